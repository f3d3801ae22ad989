//! Rows that a reduction keeps.
ghost use Rattle.std.specs.Prelude.{◌≡◌, ◌<◌, length, IfOk};
ghost use Rattle.f2_vec.specs.Spans.{row};
ghost use Rattle.f2_matrix.specs.Preimages.{pivot_of};
ghost use Rattle.f2_matrix.specs.Inside.Held.{rows_of};

use crate::rows::{Rows, pivot};
use f2_vec::BitVec;
use memory::Memory;
use std::alloc::Global;

/// Rows of a reduction: shared with their pivots, or as they were given, which takes no memory.
#[derive(Debug, Drop)]
pub(crate) enum Held {
    Shared(Rows),
    Given(Vec<BitVec>),
}

impl Held {
    /// The rows, in order.
    pub(crate) fn as_slice(&self) -> &[BitVec]
        ensures { result.now ≡ rows_of self.now }
    {
        match self {
            Held::Shared(rows) => rows.as_slice(),
            Held::Given(rows) => rows.as_slice(),
        }
    }

    /// The pivot of the row at place `i`, its length where it is zero.
    pub(crate) fn pivot(&self, i: usize) -> usize
        requires { i < length (rows_of self.now) }
        ensures { result ≡ pivot_of (row (rows_of self.now) i) }
    {
        match self {
            Held::Shared(rows) => rows.pivots()[i],
            Held::Given(rows) => pivot(&rows[i]),
        }
    }

    /// The rows for one more owner: a copy of them where they are not shared yet.
    ///
    /// # Errors
    /// `Memory` if allocation fails, or if there are too many owners to count.
    pub(crate) fn share(&self, alloc: Global) -> Result<Rows, Memory>
        ensures { IfOk result (λ rows. rows ≡ rows_of self.now) }
    {
        match self {
            Held::Shared(rows) => rows.share(),
            Held::Given(rows) => Rows::of(alloc, Vec::from_clones(alloc, rows.as_slice())?),
        }
    }
}
