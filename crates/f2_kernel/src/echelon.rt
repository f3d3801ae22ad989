//! The test of the reduced echelon form, and marks at the pivots of rows.
ghost use Rattle.std.specs.Prelude.{◌≡◌, ◌↔◌, ℕ, true, length, IsTrue, IfOk};
ghost use Rattle.f2_vec.specs.Vectors.{bit, IsFirstOne};
ghost use Rattle.f2_vec.specs.Spans.{row, HaveWidth};
ghost use Rattle.f2_matrix.specs.Echelon.{IsReduced, HasNoZeroRow};

use f2_vec::BitVec;
use memory::Memory;
use std::alloc::Global;

/// Whether the rows, of length `n`, are in reduced echelon form, and none of them is zero.
///
/// # Errors
/// `Memory` if allocation fails.
pub fn is_row_basis(alloc: Global, n: usize, rows: &[BitVec]) -> Result<bool, Memory>
    requires { HaveWidth n rows.now }
    ensures { IfOk result (λ is. IsTrue is ↔ (IsReduced rows.now × HasNoZeroRow rows.now)) }
{
    // Without a row nothing is taken, however long rows would be.
    if rows.is_empty() {
        return Ok(true);
    }
    // A 1 at the pivots of the rows behind, and the first of these.
    let mut pivots = BitVec::zero(alloc, n)?;
    let mut next = n;
    for i in (0..rows.len()).rev() {
        let Some(pivot) = rows[i].first_one() else {
            return Ok(false);
        };
        if pivot >= next || have_common_one(&rows[i], &pivots) {
            return Ok(false);
        }
        pivots.set(pivot, true);
        next = pivot;
    }
    Ok(true)
}

/// Whether two vectors have a 1 at one place.
pub(crate) fn have_common_one(a: &BitVec, b: &BitVec) -> bool
    ensures { IsTrue result ↔ ((p : ℕ) × (bit a.now p ≡ true) × (bit b.now p ≡ true)) }
{
    for i in 0..a.len().div_ceil(64) {
        if a.word(i) & b.word(i) != 0 {
            return true;
        }
    }
    false
}

/// The vector of length `n` with a 1 at just the pivots of the rows.
///
/// # Errors
/// `Memory` if allocation fails.
pub(crate) fn marks_of(alloc: Global, n: usize, rows: &[BitVec]) -> Result<BitVec, Memory>
    requires { HaveWidth n rows.now }
    ensures length { IfOk result (λ marks. length marks ≡ n) }
    ensures marked { IfOk result (λ marks. (p : ℕ) → bit marks p ≡ true → (j : ℕ) × IsFirstOne (row rows.now j) p) }
    ensures marks_all { IfOk result (λ marks. (j p : ℕ) → IsFirstOne (row rows.now j) p → bit marks p ≡ true) }
{
    let mut marks = BitVec::zero(alloc, n)?;
    for row in rows {
        if let Some(pivot) = row.first_one() {
            marks.set(pivot, true);
        }
    }
    Ok(marks)
}
