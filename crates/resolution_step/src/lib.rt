//! The step from a square's inputs to the square, and the resolution of a range on one thread.
#![tactic(auto)]

mod alone;
mod step_on;
mod units;

pub use alone::{resolve_alone, resolved};
pub use step_on::step;
