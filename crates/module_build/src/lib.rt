//! Modules made of others: sums, shifts, tensor products and duals; and the module file of a module.
#![tactic(auto)]

mod build;
mod coefficients;
mod construction;
mod dual_operators;
mod fault;
mod file;
mod generators;
mod limits;
mod order;
mod splittings;

pub use build::{dual, shift, sum, tensor};
pub use fault::BuildFault;
pub use file::file_text;
