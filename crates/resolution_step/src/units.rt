//! The unit vectors, as rows.
ghost use Rattle.std.specs.Prelude.{◌≡◌, IfOk};
ghost use Rattle.f2_vec.specs.Spans.{unit_vectors};

use f2_matrix::Rows;
use f2_vec::BitVec;
use memory::Memory;
use std::alloc::Global;

/// The rows of the unit matrix.
pub(crate) fn unit_rows(alloc: Global, n: usize) -> Result<Rows, Memory>
    ensures { IfOk result (λ rows. rows ≡ unit_vectors n) }
{
    let mut rows = Vec::with_capacity(alloc, n)?;
    for i in 0..n {
        rows.push(BitVec::unit(alloc, n, i)?)?;
    }
    Rows::of(alloc, rows)
}
