//! Where the pivots of rows stand.
ghost use Rattle.std.specs.Prelude.{ℕ, ◌<◌, length, IfOk};
ghost use Rattle.f2_vec.specs.Spans.{row};
ghost use Rattle.f2_matrix.specs.Echelon.{HasNoZeroRow};
ghost use Rattle.f2_matrix.specs.Preimages.{pivot_of};
ghost use Rattle.f2_choice.specs.Inside.Tables.{IsTableOfPivots};

use f2_vec::BitVec;
use memory::Memory;
use std::alloc::Global;

/// For each of `n` places the number of the row whose pivot is there.
///
/// # Errors
/// `Memory` if allocation fails.
pub fn table_of_pivots(
    alloc: Global,
    n: usize,
    rows: &[BitVec],
) -> Result<Vec<Option<usize>>, Memory>
    requires nonzero { HasNoZeroRow rows.now }
    requires within { (i : ℕ) → i < length rows.now → pivot_of (row rows.now i) < n }
    ensures { IfOk result (λ table. IsTableOfPivots n rows.now table.items) }
{
    let mut table = vec![in alloc; None; n]?;
    for i in 0..rows.len() {
        if let Some(pivot) = rows[i].first_one() {
            table[pivot] = Some(i);
        }
    }
    Ok(table)
}
