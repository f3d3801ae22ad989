//! Why a chart file was not taken up.
ghost use Rattle.std.specs.Prelude.{◌≡◌};
ghost use Rattle.chart_keep.specs.Files.{of_opening, of_parts};

use chart_file::{DecodeFault, PartsFault};
use save_journal::OpenFault;
use thiserror::Error;

/// Why a chart file was not taken up.
#[derive(Clone, Copy, Debug, PartialEq, Eq, Error)]
pub enum ChartFault {
    /// The disk failed.
    #[error("the chart file failed")]
    Failed,
    /// It does not begin as a journal does.
    #[error("not a chart file")]
    NotChart,
    /// It keeps the digest of something else: it is the chart file of another module or of another format, or a save file.
    #[error("a chart file of something else")]
    Other {
        /// The digest that it keeps.
        kept: [u8; 32],
        /// The digest that was asked for.
        ours: [u8; 32],
    },
    /// The body of a record does not have the digest that the record keeps.
    #[error("record {number} is damaged")]
    Damaged {
        /// Which record, counted from 0.
        number: u64,
        /// The place of its gate, in bytes from the beginning of the file.
        place: u64,
        /// The digest that it keeps.
        kept: [u8; 32],
        /// The digest of its body.
        found: [u8; 32],
    },
    /// An open gate, and less than a record and the next gate behind it.
    #[error("too short behind place {place}")]
    Short {
        /// Which record that is, counted from 0.
        number: u64,
        /// The place of the gate, in bytes from the beginning of the file.
        place: u64,
    },
    /// The body of a record is no part of a column.
    #[error("record {number} is strange: {fault}")]
    Strange {
        /// Which record, counted from 0.
        number: u64,
        /// What is wrong with it.
        fault: DecodeFault,
    },
    /// Memory allocation failed.
    #[error("out of memory")]
    Memory,
}

impl From<OpenFault> for ChartFault {
    ghost from_gives = { λ fault e. e ≡ of_opening fault };

    fn from(fault: OpenFault) -> Self {
        match fault {
            OpenFault::Failed => ChartFault::Failed,
            OpenFault::NotSave => ChartFault::NotChart,
            OpenFault::Other { kept, ours } => ChartFault::Other { kept, ours },
            OpenFault::Damaged {
                number,
                place,
                kept,
                found,
            } => ChartFault::Damaged {
                number,
                place,
                kept,
                found,
            },
            OpenFault::Short { number, place } => ChartFault::Short { number, place },
            OpenFault::Memory => ChartFault::Memory,
        }
    }
}

impl From<PartsFault> for ChartFault {
    ghost from_gives = { λ fault e. e ≡ of_parts fault };

    fn from(fault: PartsFault) -> Self {
        match fault {
            PartsFault::Strange { number, fault } => ChartFault::Strange { number, fault },
            PartsFault::Memory => ChartFault::Memory,
        }
    }
}

/// Why a part was not kept.
#[derive(Clone, Copy, Debug, PartialEq, Eq, Error)]
pub enum KeepFault {
    /// The disk failed.
    #[error("the chart file failed")]
    Failed,
    /// Memory allocation failed.
    #[error("out of memory")]
    Memory,
}
