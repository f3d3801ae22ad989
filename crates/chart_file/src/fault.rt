//! Why bytes are no part of a column, and why records are none.
ghost use Rattle.std.specs.Prelude.{◌≡◌};
ghost use Rattle.chart_file.specs.declared.fault.DecodeFault.TheVariants.{Memory as WantOfMemory};
ghost use Rattle.chart_file.specs.declared.fault.PartsFault.TheVariants.{Memory as OutOfMemory};

use memory::Memory;
use std::alloc::{AllocError, AllocFailed};
use thiserror::Error;

/// Why bytes were not read as a part of a column.
#[derive(Clone, Copy, Debug, PartialEq, Eq, Error)]
pub enum DecodeFault {
    /// They end within what every part begins with, or within a square.
    #[error("too short")]
    Short,
    /// They do not begin with the kind of a part.
    #[error("of another kind")]
    Kind,
    /// The column or a row is past the limits of a range.
    #[error("past the limits of a range")]
    Limits,
    /// A square has more images than an image has coordinates.
    #[error("more images than coordinates")]
    Crowded,
    /// A spare bit behind an image is 1.
    #[error("a spare bit is 1")]
    SpareBits,
    /// Memory allocation failed.
    #[error("out of memory")]
    Memory,
}

impl From<Memory> for DecodeFault {
    ghost from_gives = { λ _ e. e ≡ WantOfMemory };

    fn from(_: Memory) -> Self {
        DecodeFault::Memory
    }
}

impl<T: Drop> From<AllocFailed<T>> for DecodeFault {
    ghost from_gives = { λ _ e. e ≡ WantOfMemory };

    fn from(_: AllocFailed<T>) -> Self {
        DecodeFault::Memory
    }
}

/// Why records were not read as parts of columns.
#[derive(Clone, Copy, Debug, PartialEq, Eq, Error)]
pub enum PartsFault {
    /// The body of a record is no part of a column.
    #[error("record {number}: {fault}")]
    Strange {
        /// Which record, counted from 0.
        number: u64,
        /// What is wrong with it, which is not want of memory.
        fault: DecodeFault,
    },
    /// Memory allocation failed.
    #[error("out of memory")]
    Memory,
}

impl From<AllocError> for PartsFault {
    ghost from_gives = { λ _ e. e ≡ OutOfMemory };

    fn from(_: AllocError) -> Self {
        PartsFault::Memory
    }
}

impl<T: Drop> From<AllocFailed<T>> for PartsFault {
    ghost from_gives = { λ _ e. e ≡ OutOfMemory };

    fn from(_: AllocFailed<T>) -> Self {
        PartsFault::Memory
    }
}
