//! The journal of a save file: records behind gates, each of which a crash leaves whole or not at all.
//!
//! The digest is the caller's: the crate knows nothing of modules, and 32 bytes say whose records these are.
//!
//! Clauses on images and records hold of disks that tell what they hold. Clauses on moments, faults and lengths hold of
//! every disk, and so does the one that there are at most as many bodies as the place of the gate behind them says: whoever
//! counts the records need not fear for the sum.
#![tactic(auto)]

mod fault;
mod framing;
mod journal;
mod laws;
mod opening;
mod reading;

pub use fault::OpenFault;
pub use framing::{Framed, frame};
pub use journal::Journal;
pub use laws::{records_are_read, refusals_are_read};
