//! Why a module file describes no module.
ghost use Rattle.std.specs.Prelude.{◌≡◌};
ghost use Rattle.module_check.specs.declared.fault.CheckFault.TheVariants.{Memory as OutOfMemory};

use memory::Memory;
use milnor_basis::Exps;
use thiserror::Error;

/// Why a file describes no module: the first thing that is wrong, or out of memory.
#[derive(Clone, Copy, Debug, PartialEq, Eq, Drop, Error)]
pub enum CheckFault {
    /// The entry with this index, whose number is no power of two, differs from what the entries for powers of two give.
    #[error("action {index} differs from its derived value")]
    Listed { index: usize },
    /// Sq(R) on Sq(S) on the generator with this number is not the product of the two on it.
    #[error("a relation fails on generator {generator}")]
    Relation { r: Exps, s: Exps, generator: usize },
    /// Memory allocation failed.
    #[error("out of memory")]
    Memory,
}

impl From<Memory> for CheckFault {
    ghost from_gives = { λ _ e. e ≡ OutOfMemory };

    fn from(_: Memory) -> Self {
        CheckFault::Memory
    }
}
