//! A state behind a lock that counts its history. Passes take turns at the state, and read the count and the fronts without waiting.
//!
//! The state tells its history, a list of entries, each with the number of the pass that made it, and its fronts, numbers that only
//! rise as the history grows. A pass takes the turn, has the state to itself, adds at most one entry, and ends the turn with it.
//! What a pass has seen of the history only grows. In the whole history the entries of its number are just those that it made, each once and in order.
//!
//! Whether and when a pass gets its turn is in no contract: who waits tries again until the turn is free.
#![tactic(auto)]

mod held;
mod pass;
mod pause;
mod rule;
mod start;
mod steps;
mod told;
mod turn;
mod view;

pub use held::Held;
pub use pass::Pass;
pub use told::Told;
pub use turn::Turn;
