//! What can be wrong with a module file.
ghost use Rattle.std.specs.Prelude.{◌≡◌};
ghost use Rattle.module_json.specs.declared.malformed.Malformed.TheVariants.{Memory as OutOfMemory};

use memory::Memory;
use std::alloc::{AllocError, AllocFailed};
use thiserror::Error;

/// What is wrong with a module file: the first check that fails, or out of memory.
#[derive(Clone, Copy, Debug, PartialEq, Eq, Drop, Error)]
pub enum Malformed {
    #[error("past the limit of {what}")]
    Limit { what: What },
    #[error("not JSON")]
    Json,
    #[error("wrong shape at {at}")]
    Shape { at: Place },
    #[error("unknown type")]
    Kind,
    #[error("prime {given}")]
    Prime { given: u64 },
    /// Generators are numbered in the order of the bytes of their names.
    #[error("name of generator {generator}")]
    Name { generator: usize },
    /// Generators are numbered in the order of the bytes of their names.
    #[error("degree of generator {generator}")]
    Degree { generator: usize },
    /// Actions are numbered from 0, as they are listed.
    #[error("action {index}: {why}")]
    Action { index: usize, why: Why },
    /// The cells of a real projective space are to lie from `min` to `max`, which is less.
    #[error("max below min")]
    Bounds { min: i64, max: i64 },
    /// A file of several modules has `given` of them, where `want` are asked for.
    #[error("{given} parts, wanted {want}")]
    Parts { want: usize, given: usize },
    #[error("out of memory")]
    Memory,
}

impl From<Memory> for Malformed {
    ghost from_gives = { λ _ e. e ≡ OutOfMemory };

    fn from(_: Memory) -> Self {
        Malformed::Memory
    }
}

impl From<AllocError> for Malformed {
    ghost from_gives = { λ _ e. e ≡ OutOfMemory };

    fn from(_: AllocError) -> Self {
        Malformed::Memory
    }
}

impl<T: Drop> From<AllocFailed<T>> for Malformed {
    ghost from_gives = { λ _ e. e ≡ OutOfMemory };

    fn from(_: AllocFailed<T>) -> Self {
        Malformed::Memory
    }
}

/// What there is too much of.
#[derive(Clone, Copy, Debug, PartialEq, Eq, Drop, Error)]
pub enum What {
    #[error("bytes")]
    Bytes,
    #[error("generators")]
    Gens,
    #[error("degree")]
    Degree,
    #[error("span")]
    Span,
    #[error("actions")]
    Actions,
}

/// The part of the file that has another shape than it should.
#[derive(Clone, Copy, Debug, PartialEq, Eq, Drop, Error)]
pub enum Place {
    #[error("whole")]
    Whole,
    #[error("type")]
    Kind,
    #[error("cofiber")]
    Cofiber,
    #[error("shift")]
    Shift,
    #[error("profile")]
    Profile,
    #[error("adem_actions")]
    AdemActions,
    #[error("milnor_actions")]
    MilnorActions,
    #[error("p")]
    Prime,
    #[error("gens")]
    Gens,
    #[error("actions")]
    Actions,
    #[error("min")]
    Min,
    #[error("max")]
    Max,
}

/// What is wrong with an action.
#[derive(Clone, Copy, Debug, PartialEq, Eq, Drop, Error)]
pub enum Why {
    #[error("syntax")]
    Syntax,
    #[error("square zero")]
    SquareZero,
    #[error("unknown name")]
    Unknown,
    #[error("wrong degree")]
    WrongDegree,
    /// The entry at index `first` gives this square of this generator another sum.
    #[error("differs from action {first}")]
    Repeated { first: usize },
}
