//! The words of a command line, and the command that they give.
#![tactic(auto)]

mod command;
mod constants;
mod numbers;
mod remarks;
mod words;

pub use command::{
    Build, Classes, Command, Common, MAX_SHIFT, MAX_SQUARES, MAX_SQUARES_DEGREE, MAX_WORKERS,
    WordsFault,
};
pub use constants::limits_are_these;
pub use remarks::{remark, remark_on_classes};
pub use words::{has_live, parse};
