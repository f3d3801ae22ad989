//! Finite modules over the mod 2 Steenrod algebra: a basis, and the value of each Sq(R) on it.
//!
//! `Generators` and `Operators` are public, so that a module can be put together of them: what stands on modules alone does
//! not wait for the check of module files.
#![tactic(auto)]

mod exponents;
mod finite_module;
mod generators;
mod laws;
mod operators;
mod sample;
mod target;
mod text;

pub use exponents::sq;
pub use finite_module::Module;
pub use generators::{Generator, Generators};
pub use laws::modules_are_graded_modules;
pub use operators::{Operator, Operators};
