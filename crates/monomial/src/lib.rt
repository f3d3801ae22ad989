//! Monomials in Steenrod's squares, as lists of numbers.
#![tactic(auto)]

mod mono;

pub use mono::Mono;
