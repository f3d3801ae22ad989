//! Why parts of columns are no chart.
ghost use Rattle.std.specs.Prelude.{◌≡◌};
ghost use Rattle.chart_rows.specs.declared.fault.PlaceFault.TheVariants.{Memory as WantOfMemory};
ghost use Rattle.chart_rows.specs.declared.fault.ChartFault.TheVariants.{Memory as OutOfMemory};

use memory::Memory;
use thiserror::Error;

/// Why a square may not stand behind those of its row.
#[derive(Clone, Copy, Debug, PartialEq, Eq, Error)]
pub enum PlaceFault {
    /// It is not the next one of its row, or a square of lower degree is not there in the row below.
    #[error("row {row} is out of order")]
    Order {
        /// The row of the square, here as below.
        row: u16,
    },
    /// Its images do not have a coordinate for each element of their target.
    #[error("row {row} has images of another width")]
    Width {
        row: u16,
    },
    /// A sum of some of its images is zero.
    #[error("row {row} has dependent images")]
    Dependent {
        row: u16,
    },
    /// The differential does not take an image to zero.
    #[error("row {row} has an image that is no cycle")]
    NoCycle {
        row: u16,
    },
    /// Memory allocation failed.
    #[error("out of memory")]
    Memory,
}

impl From<Memory> for PlaceFault {
    ghost from_gives = { λ _ e. e ≡ WantOfMemory };

    fn from(_: Memory) -> Self {
        PlaceFault::Memory
    }
}

/// Why parts of columns are no chart.
#[derive(Clone, Copy, Debug, PartialEq, Eq, Error)]
pub enum ChartFault {
    /// A part has a square that may not stand behind those of the parts before it.
    #[error("record {number}: {fault}")]
    Misplaced {
        /// Which part, counted from 0.
        number: u64,
        /// What is wrong with it, which is not want of memory.
        fault: PlaceFault,
    },
    /// Memory allocation failed.
    #[error("out of memory")]
    Memory,
}

impl From<Memory> for ChartFault {
    ghost from_gives = { λ _ e. e ≡ OutOfMemory };

    fn from(_: Memory) -> Self {
        ChartFault::Memory
    }
}
