//! The output of `products` and of `product`: resolves the sphere, multiplies, formats.
#![tactic(auto)]

mod headed;
mod laws;
mod lines;
mod one_product;
mod products;
mod refusal;
mod sphere;

pub use headed::add_headed;
pub use laws::{
    one_product_answer_exists, one_product_answer_is_unique, one_product_is_line,
    products_answer_exists, products_answer_is_unique, products_answer_of_each,
    products_answer_of_one,
};
pub use one_product::one_product_text;
pub use products::{products_text, products_with};
pub use refusal::{ClassesFault, Named, Pair, Refusal, Target};
pub use sphere::sphere_table;
