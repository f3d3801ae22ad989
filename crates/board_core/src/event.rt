//! What happens to squares, and why the board stops giving them out.
ghost use Rattle.std.specs.Prelude.{◌≡◌};
ghost use Rattle.board_core.specs.Entries.{event_of};
ghost use Rattle.board_core.specs.declared.event.CoreFault.TheVariants.{Memory as OutOfMemory};

use memory::Memory;
use thiserror::Error;

/// Why no more squares are given out. A cause that stands bars that a square is taken, given or failed at. It does not bar
/// that one is handed back, which can always be done, and which leaves the cause as it is.
#[derive(Clone, Copy, Debug, PartialEq, Eq, Drop)]
pub enum Cause {
    /// A square failed.
    Failed,
    /// A square was handed back because memory ran out.
    Memory,
}

/// A square that is out: who has it, its row, and its degree above the bottom. What happens to it in a run is an `Entry`.
#[derive(Clone, Copy, Debug, PartialEq, Eq, Drop)]
pub struct Out {
    pub who: u64,
    pub s: u16,
    pub above: u64,
}

/// What happens to the square in row `s` and of degree `t` while the board runs.
#[derive(Clone, Copy, Debug, PartialEq, Eq, Drop)]
pub enum Entry {
    /// `who` takes it, having seen so many squares done in row `s` and in row `s - 1`, 0 for row 0.
    Take {
        who: u64,
        s: u16,
        t: i32,
        snapshot: (u64, u64),
    },
    /// `who` gives it, done.
    Give {
        who: u64,
        s: u16,
        t: i32,
    },
    /// `who` hands it back because memory ran out.
    Back {
        who: u64,
        s: u16,
        t: i32,
    },
    /// `who` has failed at it.
    Fail {
        who: u64,
        s: u16,
        t: i32,
    },
}

/// What happens to a board: an entry, at the square in row `s` and of degree `t`, or the run ends and another begins.
#[derive(Clone, Copy, Debug, PartialEq, Eq, Drop)]
pub enum Event {
    /// `who` takes it, having seen so many squares done in row `s` and in row `s - 1`, 0 for row 0.
    Take {
        who: u64,
        s: u16,
        t: i32,
        snapshot: (u64, u64),
    },
    /// `who` gives it, done.
    Give {
        who: u64,
        s: u16,
        t: i32,
    },
    /// `who` hands it back because memory ran out.
    Back {
        who: u64,
        s: u16,
        t: i32,
    },
    /// `who` has failed at it.
    Fail {
        who: u64,
        s: u16,
        t: i32,
    },
    /// The run ends. Of the squares that were out, and of the one that failed, the file may have got one, which is then its last.
    Stop {
        in_file: Option<(u16, i32)>,
    },
    /// Another run begins, with the squares of the file.
    Open,
}

impl From<Entry> for Event {
    ghost from_gives = { λ entry event. event ≡ event_of entry };

    fn from(entry: Entry) -> Event {
        match entry {
            Entry::Take {
                who,
                s,
                t,
                snapshot,
            } => Event::Take {
                who,
                s,
                t,
                snapshot,
            },
            Entry::Give { who, s, t } => Event::Give { who, s, t },
            Entry::Back { who, s, t } => Event::Back { who, s, t },
            Entry::Fail { who, s, t } => Event::Fail { who, s, t },
        }
    }
}

/// Why an event was not accepted.
#[derive(Clone, Copy, Debug, PartialEq, Eq, Drop, Error)]
pub enum CoreFault {
    /// The machine does not accept the event, which comes back.
    #[error("not legal")]
    NotLegal { event: Event },
    #[error("out of memory")]
    Memory,
}

impl From<Memory> for CoreFault {
    ghost from_gives = { λ _ fault. fault ≡ OutOfMemory };

    fn from(_: Memory) -> Self {
        CoreFault::Memory
    }
}
