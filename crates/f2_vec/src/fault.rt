//! Why bytes are no vector.
ghost use Rattle.std.specs.Prelude.{◌≡◌};
ghost use Rattle.f2_vec.specs.declared.fault.BitsFault.TheVariants.{Memory as OutOfMemory};

use memory::Memory;
use thiserror::Error;

/// Why bytes are no vector of the length that was asked for.
#[derive(Clone, Copy, Debug, PartialEq, Eq, Error)]
pub enum BitsFault {
    /// A vector of that length takes `want` bytes, and `given` bytes were given.
    #[error("{given} bytes where the vector takes {want}")]
    Length { want: usize, given: usize },
    /// A bit past the last coordinate is 1.
    #[error("a spare bit is 1")]
    SpareBits,
    /// Memory allocation failed.
    #[error("out of memory")]
    Memory,
}

impl From<Memory> for BitsFault {
    ghost from_gives = { λ _ e. e ≡ OutOfMemory };

    fn from(_: Memory) -> Self {
        BitsFault::Memory
    }
}
