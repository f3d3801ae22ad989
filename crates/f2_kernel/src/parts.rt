//! Whether rows are the parts of a matrix's reduction.
ghost use Rattle.std.specs.Prelude.{◌≡◌, ◌↔◌, ℕ, ◌<◌, ◌≤◌, Bool, false, true, List, length, slice_index_or, IsTrue, IfOk};
ghost use Rattle.f2_vec.specs.Vectors.{bit, sum_of, IsFirstOne};
ghost use Rattle.f2_vec.specs.Spans.{row, HaveWidth, combination};
ghost use Rattle.f2_matrix.specs.Echelon.{IsReduced, HasNoZeroRow};
ghost use Rattle.f2_matrix.specs.Parts.{AreReductionParts};
ghost use Rattle.f2_matrix.specs.Preimages.{at_pivots};
ghost use Rattle.f2_kernel.specs.Inside.Split.{AreSplit, AreNumbersOf};

use crate::echelon::{have_common_one, is_row_basis, marks_of};
use f2_matrix::{Matrix, parts_are_reduction, pivot};
use f2_vec::BitVec;
use memory::Memory;
use std::alloc::Global;

/// Whether these are the image rows, the chosen preimages and the kernel rows of the matrix's reduction, where the kernel rows are
/// in reduced echelon form without a zero row. Nothing is eliminated: each row of the matrix is cleared by the image rows, and the
/// chosen rows beside these are added.
///
/// # Errors
/// `Memory` if allocation fails.
pub fn are_parts(
    alloc: Global,
    matrix: &Matrix,
    image: &[BitVec],
    chosen: &[BitVec],
    kernel: &[BitVec],
) -> Result<bool, Memory>
    requires image { HaveWidth matrix.now.cols image.now }
    requires chosen { HaveWidth (length matrix.now.rows) chosen.now }
    requires kernel { HaveWidth (length matrix.now.rows) kernel.now }
    requires reduced { IsReduced kernel.now }
    requires nonzero { HasNoZeroRow kernel.now }
    ensures { IfOk result
        (λ are. IsTrue are ↔ AreReductionParts matrix.now.cols matrix.now.rows image.now chosen.now kernel.now) }
{
    let height = matrix.rows().len();
    let fit = image.len().checked_add(kernel.len()) == Some(height);
    if !fit || chosen.len() != image.len() {
        return Ok(false);
    }
    let is_basis = is_row_basis(alloc, matrix.cols(), image)?;
    if !is_basis {
        return Ok(false);
    }
    let clear = are_clear(alloc, height, kernel, chosen)?;
    if !clear {
        return Ok(false);
    }
    // What the parts are to the matrix is learnt here by proofs: nothing runs for it.
    parts_are_reduction();
    are_split(alloc, matrix, image, chosen, kernel)
}

/// Whether each vector, of length `n`, has a 0 at the pivot of each row.
///
/// # Errors
/// `Memory` if allocation fails.
fn are_clear(alloc: Global, n: usize, rows: &[BitVec], vectors: &[BitVec]) -> Result<bool, Memory>
    requires rows { HaveWidth n rows.now }
    ensures { IfOk result (λ are. IsTrue are ↔ ((i j p : ℕ) → i < length vectors.now → IsFirstOne (row rows.now j) p →
        bit (row vectors.now i) p ≡ false)) }
{
    let pivots = marks_of(alloc, n, rows)?;
    Ok(are_zero_at(vectors, &pivots))
}

/// Whether each vector has a 0 wherever the marks have a 1.
fn are_zero_at(vectors: &[BitVec], marks: &BitVec) -> bool
    ensures { IsTrue result ↔ ((i p : ℕ) → i < length vectors.now → bit marks.now p ≡ true →
        bit (row vectors.now i) p ≡ false) }
{
    for vector in vectors {
        if have_common_one(vector, marks) {
            return false;
        }
    }
    true
}

/// Whether each row of the matrix is the sum of the image rows at whose pivots it has a 1, and the chosen rows beside these give its
/// unit vector, cleared at the pivots of the kernel rows.
///
/// # Errors
/// `Memory` if allocation fails.
fn are_split(
    alloc: Global,
    matrix: &Matrix,
    image: &[BitVec],
    chosen: &[BitVec],
    kernel: &[BitVec],
) -> Result<bool, Memory>
    requires image { HaveWidth matrix.now.cols image.now }
    requires image_reduced { IsReduced image.now }
    requires image_nonzero { HasNoZeroRow image.now }
    requires as_many { length chosen.now ≡ length image.now }
    requires chosen { HaveWidth (length matrix.now.rows) chosen.now }
    requires kernel { HaveWidth (length matrix.now.rows) kernel.now }
    requires reduced { IsReduced kernel.now }
    requires nonzero { HasNoZeroRow kernel.now }
    ensures { IfOk result
        (λ are. IsTrue are ↔ AreSplit matrix.now.cols matrix.now.rows image.now chosen.now kernel.now) }
{
    let rows = matrix.rows();
    if rows.is_empty() {
        return Ok(true);
    }
    let numbers = numbers_of(alloc, matrix.cols(), image)?;
    let kernel_numbers = numbers_of(alloc, rows.len(), kernel)?;
    let at_image = numbers.as_slice();
    let at_kernel = kernel_numbers.as_slice();
    // Both are zero again after each row that is split.
    let mut rest = BitVec::zero(alloc, matrix.cols())?;
    let mut beside = BitVec::zero(alloc, rows.len())?;
    for j in 0..rows.len() {
        let row = &rows[j];
        rest.xor_with(row);
        add_at_ones(row, at_image, image, &mut rest);
        add_at_ones(row, at_image, chosen, &mut beside);
        add_at(j, at_kernel, kernel, &mut beside);
        beside.flip(j);
        if !rest.is_zero() || !beside.is_zero() {
            return Ok(false);
        }
    }
    Ok(true)
}

/// The number of each row, of length `n`, at its pivot, and at each other place how many rows there are. Without a row nothing is
/// taken, however long rows would be.
///
/// # Errors
/// `Memory` if allocation fails.
fn numbers_of(alloc: Global, n: usize, rows: &[BitVec]) -> Result<Vec<usize>, Memory>
    requires widths { HaveWidth n rows.now }
    requires reduced { IsReduced rows.now }
    requires nonzero { HasNoZeroRow rows.now }
    ensures { IfOk result (λ numbers. AreNumbersOf n rows.now numbers.items) }
{
    if rows.is_empty() {
        return Ok(Vec::new(alloc));
    }
    let mut numbers = vec![in alloc; rows.len(); n]?;
    for i in 0..rows.len() {
        numbers[pivot(&rows[i])] = i;
    }
    Ok(numbers)
}

/// Adds to the sum the rows whose numbers stand where the vector has a 1.
fn add_at_ones(vector: &BitVec, numbers: &[usize], rows: &[BitVec], sum: &mut BitVec)
    requires numbers { 0 < length rows.now → length numbers.now ≡ length vector.now }
    requires rows { HaveWidth (length sum.old) rows.now }
    ensures length { length sum.new ≡ length sum.old }
    ensures sum { (image : List (List Bool)) → AreNumbersOf (length vector.now) image numbers.now →
        length rows.now ≡ length image →
        sum.new ≡ sum_of sum.old (combination (length sum.old) (at_pivots image vector.now) rows.now) }
{
    let mut from = 0;
    while let Some(place) = vector.next_one(from) {
        add_at(place, numbers, rows, sum);
        // A length fits `usize`, so what follows a place of the vector does.
        prove!(place < vector.len());
        from = place + 1;
    }
}

/// Adds the row whose number stands at this place to the sum, if there is a row of that number.
fn add_at(place: usize, numbers: &[usize], rows: &[BitVec], sum: &mut BitVec)
    requires place { 0 < length rows.now → place < length numbers.now }
    requires rows { HaveWidth (length sum.old) rows.now }
    ensures length { length sum.new ≡ length sum.old }
    ensures added { slice_index_or numbers.now place 0 < length rows.now →
        sum.new ≡ sum_of sum.old (row rows.now (slice_index_or numbers.now place 0)) }
    ensures none { length rows.now ≤ slice_index_or numbers.now place 0 → sum.new ≡ sum.old }
{
    if rows.is_empty() {
        return;
    }
    let number = numbers[place];
    if number < rows.len() {
        sum.xor_with(&rows[number]);
    }
}
