//! Milnor's basis of the Steenrod algebra at 2, and the product of two of its elements.
#![tactic(auto)]

mod all_products;
mod basis;
mod counts;
mod exps;
mod laws;
mod multiples;
mod product;
mod text;

pub use basis::Basis;
pub use counts::Counts;
pub use exps::Exps;
pub use laws::{basis_is_milnors, product_is_homogeneous};
pub use multiples::Multiples;
pub use product::terms;
pub use text::sq_text;
