//! The check that a module file describes a module over the mod 2 Steenrod algebra: the module, or what keeps it from that.
#![tactic(auto)]

mod acceptance;
mod derive;
mod exponents;
mod fault;
mod laws;
mod relations;
mod sq_n;

pub use acceptance::check;
pub use fault::CheckFault;
pub use finite_module::{Module, modules_are_graded_modules};
pub use laws::accepted_is_module;
