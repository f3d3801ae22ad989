//! The board of squares as a machine without words: which squares are done, which are out, and what each event does.
#![tactic(auto)]

mod event;
mod fronts;
mod laws;
mod machine;

pub use event::{Cause, CoreFault, Entry, Event, Out};
pub use laws::{
    board_is_finished, cause_is_the_first, done_is_staircase, done_squares_grow, fronts_are_given,
    held_is_open_take, history_is_short, idle_waits_for_another, open_take_is_held,
    some_square_is_ready, squares_are_given_once, squares_are_out_once,
};
pub use machine::Core;
