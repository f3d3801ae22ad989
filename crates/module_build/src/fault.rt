//! Why a module is not made of others.
ghost use Rattle.std.specs.Prelude.{◌≡◌};
ghost use Rattle.module_build.specs.declared.fault.BuildFault.TheVariants.{Memory as OutOfMemory};

use memory::Memory;
use module_json::What;
use thiserror::Error;

/// Why a module is not made: the first limit that it would pass, or out of memory.
#[derive(Clone, Copy, Debug, PartialEq, Eq, Drop, Error)]
pub enum BuildFault {
    /// It would have too many generators, or else a degree outside the limits, or else degrees too far apart.
    #[error("past the limit of {what}")]
    Limit { what: What },
    /// Memory allocation failed.
    #[error("out of memory")]
    Memory,
}

impl From<Memory> for BuildFault {
    ghost from_gives = { λ _ e. e ≡ OutOfMemory };

    fn from(_: Memory) -> Self {
        BuildFault::Memory
    }
}
