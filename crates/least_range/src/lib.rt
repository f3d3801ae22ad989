//! The least range in which classes have their product or their bracket.
#![tactic(auto)]

mod laws;
mod ranges;

pub use laws::{bracket_range_is_least, product_range_is_least};
pub use ranges::{bracket_range, product_range};
