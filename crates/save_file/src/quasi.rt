//! The quasi-inverse of a square of a table, from the kernel rows of the square below.
ghost use Rattle.std.specs.Prelude.{◌≡◌, ◌<◌, length, IsTrue, IsSome, IfSome, IfOk, MatchOption};
ghost use Rattle.f2_vec.specs.Spans.{HaveWidth};
ghost use Rattle.f2_matrix.specs.Echelon.{IsReduced, HasNoZeroRow};
ghost use Rattle.f2_matrix.specs.Parts.{AreReductionParts};
ghost use Rattle.f2_matrix.specs.Reduction.{IsReductionOf};
ghost use Rattle.square.specs.Tables.{square_at, IsMatrixAt, IsQuasiAt};
ghost use Rattle.save_file.specs.Inside.Differentials.{matrix_of};

use crate::differential::{Differential, is_small, square_map};
use crate::products::are_few;
use crate::reading::square_below;
use crate::rows::{have_width, is_pivot_of};
use f2_choice::columns_at;
use f2_matrix::{Matrix, Reduced, Rows, parts_are_reduction};
use f2_vec::BitVec;
use memory::Memory;
use square::Table;
use std::alloc::Global;

/// The reduction of the matrix of d_s in degree `t`, with the generators of the square there, as `Table::quasi` gives it where the
/// square has kept none. Where the image rows are the kernel rows of the square below, as in the canonical resolution, the chosen
/// preimages are made with the inverse of a small part of the matrix, and then tested row by row. Elsewhere the table makes it.
///
/// # Errors
/// `Memory` if allocation fails.
pub fn quasi_by_inverse(alloc: Global, table: &Table, s: u16, t: i32) -> Result<Reduced, Memory>
    requires { IsSome (square_at table.now s t) }
    ensures { IfOk result (λ reduced. IsQuasiAt table.now s t reduced) }
{
    match quasi_over_below(alloc, table, s, t)? {
        Some(quasi) => Ok(quasi),
        None => table.quasi(alloc, s, t),
    }
}

/// The reduction, none where its image rows are not the kernel rows of the square below, or its kernel rows not those of the square.
///
/// # Errors
/// `Memory` if allocation fails.
fn quasi_over_below(alloc: Global, table: &Table, s: u16, t: i32) -> Result<Option<Reduced>, Memory>
    requires { IsSome (square_at table.now s t) }
    ensures { IfOk result (λ found. IfSome found (λ reduced. IsQuasiAt table.now s t reduced)) }
{
    let Some(square) = table.at(s, t) else {
        return Ok(None);
    };
    let Some(below) = square_below(table, s, square.above()) else {
        return Ok(None);
    };
    let (w, v) = square.widths();
    let (rank, nullity) = (below.kernel().len() as u64, square.kernel().len() as u64);
    if rank > v || nullity != v - rank {
        return Ok(None);
    }
    let len = rank
        .saturating_mul(w.div_ceil(8))
        .saturating_add(nullity.saturating_mul(v.div_ceil(8)));
    let few = are_few(alloc, table, s, square.above(), &[], len)?;
    let small = few && is_small(v, w, len);
    let guess = guessed(alloc, table, s, t, below.kernel(), square.kernel(), small)?;
    let Guess {
        map,
        cols,
        height,
        chosen,
    } = guess;
    let image = below.kernel_rows(alloc)?;
    let kernel = square.kernel_rows(alloc)?;
    reduction_with(alloc, &map, cols, height, image, chosen, kernel)
}

/// The map d_s in the degree of a square, how many columns and rows its matrix has, and rows that may be chosen preimages of its
/// image rows.
#[derive(Drop)]
struct Guess<'a> {
    map: Differential<'a>,
    cols: usize,
    height: usize,
    chosen: Vec<BitVec>,
}

/// The map d_s in degree `t`, with the generators of the square there, and the chosen preimages of the image rows, if these are
/// its image rows and its kernel rows. Elsewhere they are any rows. Its matrix is made if it is small, and else only those of its
/// rows that are not at pivots of the kernel rows.
///
/// # Errors
/// `Memory` if allocation fails.
fn guessed<'a>(
    alloc: Global,
    table: &'a Table,
    s: u16,
    t: i32,
    image: &[BitVec],
    kernel: &[BitVec],
    is_small: bool,
) -> Result<Guess<'a>, Memory>
    requires { IsSome (square_at table.now s t) }
    ensures map { IfOk result (λ guess. IsMatrixAt table.now s t (matrix_of guess.map)) }
    ensures cols { IfOk result (λ guess. guess.cols ≡ (matrix_of guess.map).cols) }
    ensures height { IfOk result (λ guess. guess.height ≡ length (matrix_of guess.map).rows) }
{
    if is_small {
        let matrix = table.matrix(alloc, s, t)?;
        let chosen = preimages(alloc, matrix.rows(), kernel, image, kernel)?;
        let (cols, height) = (matrix.cols(), matrix.rows().len());
        return Ok(Guess {
            map: Differential::Whole(matrix),
            cols,
            height,
            chosen,
        });
    }
    let map = square_map(alloc, table, s, t)?;
    let (cols, height) = map.dims()?;
    let others = map.others(alloc, kernel)?;
    let chosen = preimages(alloc, others.as_slice(), &[], image, kernel)?;
    Ok(Guess {
        map: Differential::OfSquare(map),
        cols,
        height,
        chosen,
    })
}

/// The chosen preimages of the image rows under a matrix, if these are its image rows and its kernel rows, by rows of it, of which
/// those at pivots of the rows `past` are passed over. The others are all that are not at pivots of the kernel rows: in the columns at
/// the pivots of the image rows they are an invertible matrix. The chosen preimages are the rows of its inverse, with zeros at the
/// pivots of the kernel rows. Elsewhere they are any rows.
///
/// # Errors
/// `Memory` if allocation fails.
fn preimages(
    alloc: Global,
    rows: &[BitVec],
    past: &[BitVec],
    image: &[BitVec],
    kernel: &[BitVec],
) -> Result<Vec<BitVec>, Memory> {
    let others = others_of(alloc, rows, past)?;
    let places = pivots_of(alloc, image)?;
    let columns = columns_at(alloc, places.as_slice(), others.as_slice())?;
    let matrix = Matrix::from_rows(others.len(), columns);
    let inverse = Reduced::of(alloc, &matrix)?;
    let height = others.len().saturating_add(kernel.len());
    spread(alloc, height, places.len(), inverse.chosen(), kernel)
}

/// The pivots of the rows that are not zero.
///
/// # Errors
/// `Memory` if allocation fails.
fn pivots_of(alloc: Global, rows: &[BitVec]) -> Result<Vec<usize>, Memory> {
    let mut pivots = Vec::with_capacity(alloc, rows.len())?;
    for row in rows {
        if let Some(pivot) = row.first_one() {
            pivots.push(pivot)?;
        }
    }
    Ok(pivots)
}

/// Those of the rows that are not at pivots of the kernel rows.
///
/// # Errors
/// `Memory` if allocation fails.
fn others_of<'a>(
    alloc: Global,
    rows: &'a [BitVec],
    kernel: &[BitVec],
) -> Result<Vec<&'a BitVec>, Memory> {
    let mut others = Vec::with_capacity(alloc, rows.len())?;
    let mut passed = 0;
    for i in 0..rows.len() {
        if is_pivot_of(kernel, passed, i) {
            passed += 1;
        } else {
            others.push(&rows[i])?;
        }
    }
    Ok(others)
}

/// The columns, `count` of them, of rows which are zero at pivots of the kernel rows and these elsewhere, one after the other, as far
/// as there are any: `height` rows in all.
///
/// # Errors
/// `Memory` if allocation fails.
fn spread(
    alloc: Global,
    height: usize,
    count: usize,
    rows: &[BitVec],
    kernel: &[BitVec],
) -> Result<Vec<BitVec>, Memory> {
    let zero = BitVec::zero(alloc, count)?;
    let mut all = Vec::with_capacity(alloc, height)?;
    let mut passed = 0;
    for i in 0..height {
        if is_pivot_of(kernel, passed, i) {
            passed += 1;
            all.push(&zero)?;
        } else {
            all.push(rows.get(i - passed).unwrap_or(&zero))?;
        }
    }
    let mut places = Vec::with_capacity(alloc, count)?;
    for i in 0..count {
        places.push(i)?;
    }
    columns_at(alloc, places.as_slice(), all.as_slice())
}

/// The reduction of the matrix with these image rows, chosen preimages and kernel rows, none where they are not its parts.
///
/// # Errors
/// `Memory` if allocation fails.
fn reduction_with(
    alloc: Global,
    matrix: &Differential<'_>,
    cols: usize,
    height: usize,
    image: Rows,
    chosen: Vec<BitVec>,
    kernel: Rows,
) -> Result<Option<Reduced>, Memory>
    requires cols { cols ≡ (matrix_of matrix.now).cols }
    requires height { height ≡ length (matrix_of matrix.now).rows }
    requires widths { HaveWidth (length (matrix_of matrix.now).rows) kernel }
    requires reduced { IsReduced kernel }
    requires nonzero { HasNoZeroRow kernel }
    ensures { IfOk result
        (λ found. IfSome found (λ r. IsReductionOf (matrix_of matrix.now).cols (matrix_of matrix.now).rows r)) }
{
    let wide = have_width(cols, image.as_slice()) && have_width(height, chosen.as_slice());
    if !wide {
        return Ok(None);
    }
    with_parts(alloc, matrix, cols, height, image, chosen, kernel)
}

/// The reduction of the matrix with these parts, none where they are not its parts.
///
/// # Errors
/// `Memory` if allocation fails.
pub(crate) fn with_parts(
    alloc: Global,
    matrix: &Differential<'_>,
    cols: usize,
    height: usize,
    image: Rows,
    chosen: Vec<BitVec>,
    kernel: Rows,
) -> Result<Option<Reduced>, Memory>
    requires cols { cols ≡ (matrix_of matrix.now).cols }
    requires height { height ≡ length (matrix_of matrix.now).rows }
    requires image { HaveWidth (matrix_of matrix.now).cols image }
    requires chosen { HaveWidth (length (matrix_of matrix.now).rows) chosen.items }
    requires widths { HaveWidth (length (matrix_of matrix.now).rows) kernel }
    requires reduced { IsReduced kernel }
    requires nonzero { HasNoZeroRow kernel }
    ensures { IfOk result (λ found. MatchOption found
        (AreReductionParts (matrix_of matrix.now).cols (matrix_of matrix.now).rows image chosen.items kernel → ⊥)
        (λ r. AreReductionParts (matrix_of matrix.now).cols (matrix_of matrix.now).rows image chosen.items kernel
        × (r.image ≡ image) × (r.chosen ≡ chosen.items) × (r.kernel ≡ kernel)
        × IsReductionOf (matrix_of matrix.now).cols (matrix_of matrix.now).rows r)) }
{
    let fits = matrix.has_parts(
        alloc,
        cols,
        image.as_slice(),
        chosen.as_slice(),
        kernel.as_slice(),
    )?;
    if !fits {
        return Ok(None);
    }
    parts_are_reduction(); // Rows that are the parts are those of the reduction, which proofs learn here.
    Ok(Some(Reduced::from_shared_rows(cols, height, image, chosen, kernel)))
}
