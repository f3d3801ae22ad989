//! The kernel of a square, as it is kept.
ghost use Rattle.std.specs.Prelude.{◌≡◌, option_map, IfOk, IfSome};
ghost use Rattle.square.specs.Inside.Kernel.{rows_of, quasi_of};

use f2_matrix::{Reduced, Rows};
use f2_vec::BitVec;
use memory::Memory;
use std::alloc::Global;

/// The kernel of a square: a part of the reduction that the square has kept, and else the rows alone.
#[derive(Drop)]
pub(crate) enum Kernel {
    Reduced(Reduced),
    Bare(Vec<BitVec>),
}

impl Kernel {
    /// These rows, as a part of the reduction where there is one.
    pub(crate) fn of(quasi: Option<Reduced>, rows: Vec<BitVec>) -> Kernel
        requires { IfSome quasi (λ r. r.kernel ≡ rows.items) }
        ensures rows { rows_of result ≡ rows.items }
        ensures quasi { quasi_of result ≡ quasi }
    {
        match quasi {
            Some(quasi) => Kernel::Reduced(quasi),
            None => Kernel::Bare(rows),
        }
    }

    /// Its echelon rows.
    pub(crate) fn rows(&self) -> &[BitVec]
        ensures { result.now ≡ rows_of self.now }
    {
        match self {
            Kernel::Reduced(quasi) => quasi.kernel(),
            Kernel::Bare(rows) => rows.as_slice(),
        }
    }

    /// The kernel rows for one more owner: shared with the reduction if one is kept, and copied otherwise.
    pub(crate) fn shared(&self, alloc: Global) -> Result<Rows, Memory>
        ensures { IfOk result (λ rows. rows ≡ rows_of self.now) }
    {
        match self {
            Kernel::Reduced(quasi) => quasi.kernel_rows(alloc),
            Kernel::Bare(rows) => Rows::of(alloc, Vec::from_clones(alloc, rows.as_slice())?),
        }
    }

    /// The reduction that has them, where one is kept.
    pub(crate) fn quasi(&self) -> Option<&Reduced>
        ensures { option_map (λ r. r.now) result ≡ quasi_of self.now }
    {
        match self {
            Kernel::Reduced(quasi) => Some(quasi),
            Kernel::Bare(_) => None,
        }
    }
}
