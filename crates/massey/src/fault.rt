//! Why there is no bracket.
ghost use Rattle.std.specs.Prelude.{◌≡◌};
ghost use Rattle.massey.specs.declared.fault.MasseyFault.TheVariants.{Memory as OutOfMemory};

use f2_vec::BitVec;
use memory::Memory;
use thiserror::Error;

/// Why there is no bracket of the classes a and b of the sphere and the class c of a module.
#[derive(Debug, Drop, Error)]
pub enum MasseyFault {
    /// The table has not this class through the range: a for `which` 0, b for 1, and c for 2. There are `count` classes at its place,
    /// and 0 outside of the range.
    #[error("no such class, {count} there")]
    NoClass { which: u8, count: usize },
    /// The square of ab, for `which` 0, of bc, for 1, or of the bracket, for 2, is outside of the range.
    #[error("({s},{t}) is out of range")]
    OutOfRange { which: u8, s: i32, t: i32 },
    /// ab, for `which` 0, or bc, for 1, is not zero.
    #[error("a product is not zero")]
    Nonzero { which: u8, product: BitVec },
    /// Memory allocation failed.
    #[error("out of memory")]
    Memory,
}

impl From<Memory> for MasseyFault {
    ghost from_gives = { λ _ e. e ≡ OutOfMemory };

    fn from(_: Memory) -> Self {
        MasseyFault::Memory
    }
}
