//! Why there is no product.
ghost use Rattle.std.specs.Prelude.{◌≡◌};
ghost use Rattle.yoneda.specs.declared.fault.YonedaFault.TheVariants.{Memory as OutOfMemory};

use memory::Memory;
use thiserror::Error;

/// Why there is no product of two classes, a of the sphere and x of a module.
#[derive(Clone, Copy, Debug, PartialEq, Eq, Drop, Error)]
pub enum YonedaFault {
    /// The table has not this class through the range: a for `which` 0, x for 1. There are `count` classes at its place, and 0
    /// outside of the range.
    #[error("no such class, {count} there")]
    NoClass { which: u8, count: usize },
    /// The square of the product is outside of the range.
    #[error("({s},{t}) is out of range")]
    OutOfRange { s: i32, t: i32 },
    /// Memory allocation failed.
    #[error("out of memory")]
    Memory,
}

impl From<Memory> for YonedaFault {
    ghost from_gives = { λ _ e. e ≡ OutOfMemory };

    fn from(_: Memory) -> Self {
        YonedaFault::Memory
    }
}
