//! Why a save file was not opened.
ghost use Rattle.std.specs.Prelude.{◌≡◌};
ghost use Rattle.save_journal.specs.declared.fault.OpenFault.TheVariants.{Failed as DiskFailed, Memory as WantOfMemory};

use edge::Failed;
use std::alloc::{AllocError, AllocFailed};
use thiserror::Error;

/// Why a save file was not opened. A digest is SHA-256.
#[derive(Clone, Copy, Debug, PartialEq, Eq, Error)]
pub enum OpenFault {
    /// The disk failed.
    #[error("the save file failed")]
    Failed,
    /// It does not begin as a save file does.
    #[error("not a save file")]
    NotSave,
    /// It keeps the digest of something else.
    #[error("a save file of something else")]
    Other {
        /// The digest that it keeps.
        kept: [u8; 32],
        /// The digest that was asked for.
        ours: [u8; 32],
    },
    /// The body of a record does not have the digest that the record keeps.
    #[error("record {number} is damaged")]
    Damaged {
        /// Which record, counted from 0.
        number: u64,
        /// The place of its gate, in bytes from the beginning of the file.
        place: u64,
        /// The digest that it keeps.
        kept: [u8; 32],
        /// The digest of its body.
        found: [u8; 32],
    },
    /// An open gate, and less than a record and the next gate behind it.
    #[error("too short behind place {place}")]
    Short {
        /// Which record that is, counted from 0.
        number: u64,
        /// The place of the gate, in bytes from the beginning of the file.
        place: u64,
    },
    /// Out of memory.
    #[error("out of memory")]
    Memory,
}

impl From<Failed> for OpenFault {
    ghost from_gives = { λ _ fault. fault ≡ DiskFailed };

    fn from(_: Failed) -> Self {
        OpenFault::Failed
    }
}

impl From<AllocError> for OpenFault {
    ghost from_gives = { λ _ fault. fault ≡ WantOfMemory };

    fn from(_: AllocError) -> Self {
        OpenFault::Memory
    }
}

impl<T: Drop> From<AllocFailed<T>> for OpenFault {
    ghost from_gives = { λ _ fault. fault ≡ WantOfMemory };

    fn from(_: AllocFailed<T>) -> Self {
        OpenFault::Memory
    }
}
