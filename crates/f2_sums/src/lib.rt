//! Sums of rows over the field with two elements: tables of all sums of a few rows, and vectors cleared by a block of up to
//! 32 rows at once, with one sum out of each of four tables.
#![tactic(auto)]

mod number;
mod table;
mod tables;
mod words;

pub use number::index_at;
pub use table::Table;
pub use tables::Tables;
