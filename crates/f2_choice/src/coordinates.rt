//! Coordinates of rows on reduced candidates.
ghost use Rattle.std.specs.Prelude.{◌≡◌, ◌↔◌, ℕ, ◌+◌, ◌<◌, ◌++◌, length, map, IsTrue, IsSome, IfSome, IfOk};
ghost use Rattle.std.specs.List.{range_with_len};
ghost use Rattle.f2_vec.specs.Vectors.{zeros};
ghost use Rattle.f2_vec.specs.Spans.{row, unit_vector, HaveWidth, IsInSpan};
ghost use Rattle.f2_matrix.specs.Echelon.{IsReduced, HasNoZeroRow};
ghost use Rattle.f2_matrix.specs.Preimages.{at_pivots};
ghost use Rattle.f2_matrix.specs.Reduction.{augmented};
ghost use Rattle.f2_choice.specs.Coordinates.{coordinates as coordinates_of};
ghost use Rattle.f2_choice.specs.Inside.Tables.{IsTableOfPivots};
ghost use Rattle.f2_choice.specs.Inside.Columns.{column, ChangesOnlyColumn};

use crate::pivots::table_of_pivots;
use f2_matrix::Matrix;
use f2_vec::BitVec;
use memory::Memory;
use std::alloc::Global;

/// The coordinates of the rows on the candidates, transposed, with the last row first, and the unit matrix to the right of them. There
/// are none where a row is no sum of candidates.
///
/// # Errors
/// `Memory` if allocation fails.
pub fn coordinates(
    alloc: Global,
    matrix: &Matrix,
    candidates: &[BitVec],
) -> Result<Option<Matrix>, Memory>
    requires widths { HaveWidth matrix.now.cols candidates.now }
    requires reduced { IsReduced candidates.now }
    requires nonzero { HasNoZeroRow candidates.now }
    ensures covered { IfOk result (λ found. IsSome found
        ↔ ((i : ℕ) → i < length matrix.now.rows → IsInSpan matrix.now.cols candidates.now (row matrix.now.rows i))) }
    ensures cols { IfOk result (λ found. IfSome found (λ m. m.cols ≡ length matrix.now.rows + length candidates.now)) }
    ensures rows { IfOk result
        (λ found. IfSome found (λ m. m.rows ≡ augmented (coordinates_of candidates.now matrix.now.rows))) }
{
    let n = matrix.cols();
    let table = table_of_pivots(alloc, n, candidates)?;
    let mut rest = BitVec::zero(alloc, n)?;
    let rows = matrix.rows();
    let Some(width) = rows.len().checked_add(candidates.len()) else {
        // No memory holds a row of that length.
        return Err(Memory);
    };
    let mut columns = units_behind(alloc, rows.len(), candidates.len(), width)?;
    for i in 0..rows.len() {
        let inside = add_coefficients(
            candidates,
            table.as_slice(),
            &rows[rows.len() - 1 - i],
            &mut rest,
            columns.as_mut_slice(),
            i,
        );
        if !inside {
            return Ok(None);
        }
    }
    Ok(Some(Matrix::from_rows(width, columns)))
}

/// The rows of `[0 | I]`, of length `width`, with `n` columns of zeros and `count` rows.
fn units_behind(alloc: Global, n: usize, count: usize, width: usize) -> Result<Vec<BitVec>, Memory>
    requires { width ≡ n + count }
    ensures { IfOk result (λ rows. rows.items ≡ map (λ i. zeros n ++ unit_vector count i) (range_with_len 0 count)) }
{
    let mut rows = Vec::with_capacity(alloc, count)?;
    for i in 0..count {
        rows.push(BitVec::unit(alloc, width, n + i)?)?;
    }
    Ok(rows)
}

/// Adds the coefficients of the candidates in the vector to column `at` of the columns, a row for each candidate, where the
/// vector is a sum of candidates, and says whether it is. The vector is added to `rest`, which is zero, and cleared there at the
/// pivots one after the other: a 1 that is then the first and at no pivot says that it is none. Where it is a sum `rest` is zero
/// again.
fn add_coefficients(
    candidates: &[BitVec],
    table: &[Option<usize>],
    vector: &BitVec,
    rest: &mut BitVec,
    columns: &mut [BitVec],
    at: usize,
) -> bool
    requires widths { HaveWidth (length vector.now) candidates.now }
    requires reduced { IsReduced candidates.now }
    requires nonzero { HasNoZeroRow candidates.now }
    requires table { IsTableOfPivots (length vector.now) candidates.now table.now }
    requires rest { rest.old ≡ zeros (length vector.now) }
    requires as_many { length columns.old ≡ length candidates.now }
    requires within { (k : ℕ) → k < length columns.old → at < length (row columns.old k) }
    requires blank { column at columns.old ≡ zeros (length candidates.now) }
    ensures inside { IsTrue result ↔ IsInSpan (length vector.now) candidates.now vector.now }
    ensures at_pivots { IsTrue result → column at columns.new ≡ at_pivots candidates.now vector.now }
    ensures others { ChangesOnlyColumn at columns.old columns.new }
    ensures rest { IsTrue result → rest.new ≡ zeros (length vector.now) }
{
    rest.xor_with(vector);
    let mut from = 0;
    while let Some(place) = rest.next_one(from) {
        let Some(i) = table[place] else {
            return false;
        };
        rest.xor_with(&candidates[i]);
        columns[i].flip(at);
        from = place + 1;
    }
    true
}
