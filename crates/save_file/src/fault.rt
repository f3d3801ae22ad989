//! Why bytes are no square, and why a file was not taken up.
ghost use Rattle.std.specs.Prelude.{◌≡◌};
ghost use Rattle.save_file.specs.Files.{opening_refusal};
ghost use Rattle.save_file.specs.declared.fault.DecodeFault.TheVariants.{Memory as OutOfMemory};

use memory::Memory;
use save_journal::OpenFault;
use thiserror::Error;

/// Why a body was not read.
#[derive(Clone, Copy, Debug, PartialEq, Eq, Error)]
pub enum DecodeFault {
    /// The bytes of the record of this number are no square that may stand behind those before it, and no quasi-inverse of one of
    /// these.
    #[error("record {number} is strange")]
    Strange { number: u64 },
    /// Memory allocation failed.
    #[error("out of memory")]
    Memory,
}

impl From<Memory> for DecodeFault {
    ghost from_gives = { λ _ e. e ≡ OutOfMemory };

    fn from(_: Memory) -> Self {
        DecodeFault::Memory
    }
}

/// Why a save file was not taken up.
#[derive(Clone, Copy, Debug, PartialEq, Eq, Error)]
pub enum ResumeFault {
    /// The file was not opened. Where that was for want of memory the answer is `Memory`.
    #[error("{0}")]
    Open(OpenFault),
    /// The body of a record is no square that may stand behind those before it, and no quasi-inverse of one of these.
    #[error("record {number} is strange")]
    Strange {
        /// Which record, counted from 0.
        number: u64,
        /// The place of its gate, in bytes from the beginning of the file.
        place: u64,
    },
    /// Memory allocation failed.
    #[error("out of memory")]
    Memory,
}

impl From<OpenFault> for ResumeFault {
    ghost from_gives = { λ fault e. e ≡ opening_refusal fault };

    fn from(fault: OpenFault) -> Self {
        match fault {
            OpenFault::Memory => ResumeFault::Memory,
            fault => ResumeFault::Open(fault),
        }
    }
}
