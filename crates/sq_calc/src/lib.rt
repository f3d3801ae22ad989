//! Calculations with Steenrod's squares: a product of them in Milnor's basis, and a sum of Milnor's basis elements as a sum of
//! admissible monomials.
#![tactic(auto)]

mod convert;
mod leading;
mod sum;

pub use convert::{to_admissible, to_milnor};
pub use monomial::Mono;
pub use sum::Sum;
