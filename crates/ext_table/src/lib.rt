//! The output of `table`, the classes of a module stem by stem with their products, and the choice between that and lists of products.
#![tactic(auto)]

mod laws;
mod layout;
mod lifted;
mod listed;
mod row_one;
mod squares;

pub use laws::{each_layout_has_answer, each_layout_has_one_answer, layouts_refuse_alike};
pub use layout::{Layout, h_products_in, products_in};
pub use lifted::table_by_lifts;
pub use row_one::h_table;
