//! Lifts of classes to chain maps from a module's resolution to the sphere's.
#![tactic(auto)]

mod inverse;
mod laws;
mod making;
mod maps;
mod rows;
mod rows_held;
mod source;
mod values;

pub use bidegree::Class;
pub use inverse::Inverse;
pub use laws::{tables_have_images, tables_of_the_sphere};
pub use making::{lift, lifts};
pub use maps::Lift;
pub use rows::lowered_generators;
pub use rows_held::Held;
pub use source::Source;
