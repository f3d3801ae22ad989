//! Milnor's product, as coefficients on the basis of its degree.
#![tactic(auto)]

mod products;

pub use products::{elements_at, product, times};
