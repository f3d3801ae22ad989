//! What a take and a give answer.
ghost use Rattle.std.specs.Prelude.{◌≡◌};

use board_core::Cause;
use std::marker::Model;
use thiserror::Error;

/// What a take gives.
pub enum Taken<J> {
    /// A square to be made.
    Job(J),
    /// No square may be taken now; some of the range are not done yet.
    Idle,
    /// All squares of the range are done.
    Over,
    /// No more squares are given out.
    Stopped(Cause),
}

/// A square that was taken, with what it is made from. It has to be given or handed back, at its own board, by the pass that
/// took it. No type ties it to its board: its pass, what the board's squares are squares of, and the open take among the
/// pass's entries are conditions of `give` and `back`. It cannot be dropped, so it has to be spent.
pub struct Job<I> {
    pub(crate) who: u64,
    pub(crate) s: u16,
    pub(crate) t: i32,
    pub(crate) inputs: I,
}

impl<I> Model for Job<I> {
    ghost use Rattle.square_board.specs.Jobs.{Taking};

    ghost Value = { Taking I };

    ghost view = { λ j. record { who = j.who; s = j.s; t = j.t; inputs = j.inputs } };
}

impl<I> Job<I> {
    /// The square's row.
    pub fn s(&self) -> u16
        ensures { result ≡ self.now.s }
    {
        self.s
    }

    /// The square's internal degree.
    pub fn t(&self) -> i32
        ensures { result ≡ self.now.t }
    {
        self.t
    }

    /// What it is made from.
    pub fn inputs(&self) -> &I
        ensures { result.now ≡ self.now.inputs }
    {
        &self.inputs
    }
}

impl<I: Drop> Job<I> {
    /// Lets go of what the square was made from.
    pub(crate) fn spend(self) {
        let Job {
            who: _,
            s: _,
            t: _,
            inputs: _,
        } = self;
    }
}

/// Why a square that was given is not done.
#[derive(Clone, Copy, Debug, PartialEq, Eq, Drop, Error)]
pub enum GiveFault {
    /// It could not be kept, and no more are.
    #[error("a square could not be kept")]
    Failed,
    #[error("out of memory")]
    Memory,
    /// No more squares are taken back: this is why.
    #[error("the board has stopped")]
    Stopped(Cause),
}
