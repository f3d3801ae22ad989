//! Free modules over the Steenrod algebra, and the target of a linear map from one.
#![tactic(auto)]

mod gens;
mod laws;
mod target;
mod terms;

pub use gens::Gens;
pub use laws::free_basis_is_pairs;
pub use target::Target;
