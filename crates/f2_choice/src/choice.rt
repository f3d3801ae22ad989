//! The choice of new rows.
ghost use Rattle.std.specs.Prelude.{◌≡◌, ℕ, ◌+◌, ◌<◌, length, ◌++◌, IfOk};
ghost use Rattle.f2_vec.specs.Spans.{row, HaveWidth, IsInSpan};
ghost use Rattle.f2_matrix.specs.Echelon.{IsReduced, HasNoZeroRow, IsKernelBasis};
ghost use Rattle.f2_matrix.specs.Reduction.{augmented, IsReductionOf};
ghost use Rattle.f2_matrix.specs.Choice.{IsChosen};
ghost use Rattle.f2_choice.specs.Coordinates.{coordinates as coordinates_of};

use crate::coordinates::coordinates;
use crate::parts::{new_rows, preimages_and_relations, rows_of};
use f2_matrix::{Matrix, Reduced, Rows};
use f2_vec::BitVec;
use memory::Memory;
use std::alloc::Global;

/// The candidates outside the span of the rows and the candidates before them, in order, and what the matrix is reduced to with
/// these as its last rows. The candidates are reduced. Where each row is a sum of candidates, the rows are reduced in
/// coordinates on these, and the image is the candidates, shared.
///
/// # Errors
/// `Memory` if allocation fails.
pub fn choose(
    alloc: Global,
    matrix: Matrix,
    candidates: &Rows,
) -> Result<(Vec<BitVec>, Reduced), Memory>
    requires rows { HaveWidth matrix.cols matrix.rows }
    requires candidates { HaveWidth matrix.cols candidates.now }
    requires reduced { IsReduced candidates.now }
    requires nonzero { HasNoZeroRow candidates.now }
    ensures chosen { IfOk result (λ r. IsChosen matrix.cols matrix.rows candidates.now r.0.items) }
    ensures kernel { IfOk result (λ r. IsKernelBasis matrix.cols (matrix.rows ++ r.0.items) r.1.kernel) }
    ensures reduction { IfOk result (λ r. IsReductionOf matrix.cols (matrix.rows ++ r.0.items) r.1) }
{
    match coordinates(alloc, &matrix, candidates.as_slice())? {
        Some(form) => choose_covered(alloc, matrix, candidates, form),
        None => choose_any(alloc, &matrix, candidates.as_slice()),
    }
}

/// Makes the choice if each row is a sum of candidates, from the rows' coordinates with the unit matrix to the right of them.
fn choose_covered(
    alloc: Global,
    matrix: Matrix,
    candidates: &Rows,
    mut form: Matrix,
) -> Result<(Vec<BitVec>, Reduced), Memory>
    requires widths { HaveWidth matrix.cols candidates.now }
    requires reduced { IsReduced candidates.now }
    requires nonzero { HasNoZeroRow candidates.now }
    requires covered { (i : ℕ) → i < length matrix.rows → IsInSpan matrix.cols candidates.now (row matrix.rows i) }
    requires cols { form.cols ≡ length matrix.rows + length candidates.now }
    requires form { form.rows ≡ augmented (coordinates_of candidates.now matrix.rows) }
    ensures chosen { IfOk result (λ r. IsChosen matrix.cols matrix.rows candidates.now r.0.items) }
    ensures kernel { IfOk result (λ r. IsKernelBasis matrix.cols (matrix.rows ++ r.0.items) r.1.kernel) }
    ensures reduction { IfOk result (λ r. IsReductionOf matrix.cols (matrix.rows ++ r.0.items) r.1) }
{
    let cols = matrix.cols();
    let n = matrix.rows().len();
    // What follows may have the memory of the rows.
    drop(matrix);
    form.reduce_rowwise(alloc)?;
    let (image, kernel) = rows_of(&form, n);
    let new = new_rows(alloc, n, candidates.as_slice(), kernel)?;
    let Some(height) = n.checked_add(kernel.len()) else {
        // No memory holds a row of that length.
        return Err(Memory);
    };
    let (chosen, kernel) = preimages_and_relations(alloc, n, form.cols(), image, kernel)?;
    let image = candidates.share()?;
    let kernel = Rows::of(alloc, kernel)?;
    Ok((
        new,
        Reduced::from_shared_rows(cols, height, image, chosen, kernel),
    ))
}

/// Makes the choice for any rows, one candidate after the other. Only the candidates that were picked are looked at: with
/// the rows they span what all candidates before do.
pub(crate) fn choose_any(
    alloc: Global,
    matrix: &Matrix,
    candidates: &[BitVec],
) -> Result<(Vec<BitVec>, Reduced), Memory>
    requires rows { HaveWidth matrix.now.cols matrix.now.rows }
    requires candidates { HaveWidth matrix.now.cols candidates.now }
    ensures chosen { IfOk result (λ r. IsChosen matrix.now.cols matrix.now.rows candidates.now r.0.items) }
    ensures kernel { IfOk result (λ r. IsKernelBasis matrix.now.cols (matrix.now.rows ++ r.0.items) r.1.kernel) }
    ensures reduction { IfOk result (λ r. IsReductionOf matrix.now.cols (matrix.now.rows ++ r.0.items) r.1) }
{
    let mut reduced = Reduced::of(alloc, matrix)?;
    let mut chosen = Vec::new(alloc);
    for i in 0..candidates.len() {
        let candidate = &candidates[i];
        let inside = reduced.contains(alloc, candidate)?;
        if !inside {
            reduced.extend(alloc, &candidates[i..i + 1])?;
            chosen.push(candidate.try_copy(alloc)?)?;
        }
    }
    Ok((chosen, reduced))
}
