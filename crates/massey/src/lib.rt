//! Three-fold Massey products.
#![tactic(auto)]

mod answer;
mod fault;
mod homotopy;
mod making;
mod places;
mod setting;

pub use answer::Bracket;
pub use fault::MasseyFault;
pub use making::bracket;
pub use places::reach;
