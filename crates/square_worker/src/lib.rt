//! A table and its keeper as a stock of squares, and the workers that resolve a range of it.
#![tactic(auto)]

mod kept;
mod products;
mod resolve;

pub use kept::Kept;
pub use resolve::{outcome, resolve_with};
pub use square_board::{Gate, OpenGate};
