//! The board of squares that several workers share, and its workers. What lies on it is any stock of squares.
#![tactic(auto)]

mod ahead;
mod board;
mod desk;
mod gate;
mod job;
mod joining;
mod opening;
mod schedule;
mod stock;
mod worker;
mod workers;

pub use ahead::Ahead;
pub use board::{Board, BoardPass};
pub use board_core::Entry;
pub use desk::Desk;
pub use gate::{Gate, OpenGate};
pub use job::{GiveFault, Job, Taken};
pub use joining::join_all;
pub use opening::Opening;
pub use stock::Stock;
pub use worker::{WorkEnd, work};
pub use workers::{conclude, made_by, no_board};
