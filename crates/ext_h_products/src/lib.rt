//! The output of `products` with classes of row 1, read off the images of the module's generators.
#![tactic(auto)]

mod found;
mod lines;
mod power;
mod products;

pub use found::{are_in_row_one, find_each};
pub use products::{h_products_text, h_products_with};
