//! The choice of new rows, and the kernel with these behind the others.
ghost use Rattle.std.specs.Prelude.{◌≡◌, ℕ, ◌+◌, ◌<◌, Bool, List, ◌++◌, map, length, reverse, IfOk};
ghost use Rattle.std.specs.List.{items_where_true};
ghost use Rattle.f2_vec.specs.Spans.{row, HaveWidth, IsInSpan};
ghost use Rattle.f2_matrix.specs.Echelon.{IsKernelBasis};
ghost use Rattle.f2_matrix.specs.Choice.{IsChosen};
ghost use Rattle.f2_choice.specs.Coordinates.{coordinates as coordinates_of};
ghost use Rattle.f2_kernel.specs.Coordinates.{AreCoordinatesOf};
ghost use Rattle.f2_kernel.specs.Inside.Upward.{are_zero};

use crate::blocks::clear_upward;
use crate::kernel::Kernel;
use f2_choice::columns_at;
use f2_matrix::Matrix;
use f2_vec::BitVec;
use memory::Memory;
use std::alloc::Global;

/// The vectors of `below` outside the span of the rows and the vectors before them, in order, and the kernel of the rows with
/// these behind them. Each row is a sum of vectors of `below`, and the rows are reduced in coordinates on these.
///
/// # Errors
/// `Memory` if allocation fails.
pub fn choose(
    alloc: Global,
    matrix: &Matrix,
    below: &Kernel,
) -> Result<(Vec<BitVec>, Kernel), Memory>
    requires cols { below.now.cols ≡ matrix.now.cols }
    requires covered { (i : ℕ) → i < length matrix.now.rows →
        IsInSpan matrix.now.cols below.now.rows (row matrix.now.rows i) }
    ensures chosen { IfOk result (λ r. IsChosen matrix.now.cols matrix.now.rows below.now.rows r.0.items) }
    ensures cols { IfOk result (λ r. r.1.cols ≡ length (matrix.now.rows ++ r.0.items)) }
    ensures kernel { IfOk result (λ r. IsKernelBasis matrix.now.cols (matrix.now.rows ++ r.0.items) r.1.rows) }
{
    let n = matrix.rows().len();
    let form = coordinates(alloc, matrix, below)?;
    choose_by_coordinates(alloc, n, form, below)
}

/// The choice for `n` rows of which the coordinates on the vectors of `below` are given: for each of these vectors the
/// coefficients of the rows, with the last row first.
///
/// # Errors
/// `Memory` if allocation fails.
pub fn choose_by_coordinates(
    alloc: Global,
    n: usize,
    mut form: Vec<BitVec>,
    below: &Kernel,
) -> Result<(Vec<BitVec>, Kernel), Memory>
    requires as_many { length form.items ≡ length below.now.rows }
    requires widths { HaveWidth n form.items }
    ensures chosen { IfOk result (λ r. (rows : List (List Bool)) → AreCoordinatesOf n below.now rows form.items →
        IsChosen below.now.cols rows below.now.rows r.0.items) }
    ensures cols { IfOk result (λ r. r.1.cols ≡ n + length r.0.items) }
    ensures kernel { IfOk result (λ r. (rows : List (List Bool)) → AreCoordinatesOf n below.now rows form.items →
        IsKernelBasis below.now.cols (rows ++ r.0.items) r.1.rows) }
{
    // What is known of the vectors.
    let _cols = below.cols();
    clear_upward(alloc, n, form.as_mut_slice())?;
    let new = new_rows(alloc, below, form.as_slice())?;
    let Some(width) = n.checked_add(new.len()) else {
        // No memory holds a vector of that length.
        return Err(Memory);
    };
    let kernel = Kernel::of_form(alloc, n, new.len(), width, form)?;
    Ok((new, kernel))
}

/// The kernel of the rows of the matrix.
///
/// # Errors
/// `Memory` if allocation fails.
pub fn kernel_of(alloc: Global, matrix: &Matrix) -> Result<Kernel, Memory>
    ensures cols { IfOk result (λ k. k.cols ≡ length matrix.now.rows) }
    ensures kernel { IfOk result (λ k. IsKernelBasis matrix.now.cols matrix.now.rows k.rows) }
{
    let n = matrix.rows().len();
    let all = Kernel::whole(alloc, matrix.cols())?;
    let columns = coordinates(alloc, matrix, &all)?;
    Kernel::of_columns(alloc, n, columns)
}

/// The coordinates of the rows on the vectors of `below`: for each of these its coefficients, with the last row first.
///
/// # Errors
/// `Memory` if allocation fails.
fn coordinates(alloc: Global, matrix: &Matrix, below: &Kernel) -> Result<Vec<BitVec>, Memory>
    ensures { IfOk result (λ form. form.items ≡ coordinates_of below.now.rows matrix.now.rows) }
{
    let rows = from_the_last(alloc, matrix.rows())?;
    columns_at(alloc, below.pivots(), rows.as_slice())
}

/// The rows, the last one first.
///
/// # Errors
/// `Memory` if allocation fails.
fn from_the_last<'a>(alloc: Global, rows: &'a [BitVec]) -> Result<Vec<&'a BitVec>, Memory>
    ensures { IfOk result (λ refs. map (λ v. v.now) refs.items ≡ reverse rows.now) }
{
    let mut refs = Vec::with_capacity(alloc, rows.len())?;
    for i in 0..rows.len() {
        refs.push(&rows[rows.len() - 1 - i])?;
    }
    Ok(refs)
}

/// The vectors of `below` whose rows of the form are zero.
///
/// # Errors
/// `Memory` if allocation fails.
fn new_rows(alloc: Global, below: &Kernel, form: &[BitVec]) -> Result<Vec<BitVec>, Memory>
    requires { length form.now ≡ length below.now.rows }
    ensures { IfOk result (λ new. new.items ≡ items_where_true (are_zero form.now) below.now.rows) }
{
    let mut new = Vec::new(alloc);
    for i in 0..form.len() {
        if form[i].is_zero() {
            new.push(below.row(alloc, i)?)?;
        }
    }
    Ok(new)
}
