//! Products of classes of the sphere with classes of a module.
#![tactic(auto)]

mod fault;
mod multiply;
mod place;
mod values;

pub use bidegree::Place;
pub use fault::YonedaFault;
pub use multiply::{product, products};
pub use place::{known, place_of};
pub use values::{coefficients, product_by_lift};
