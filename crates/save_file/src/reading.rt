//! Squares and quasi-inverses out of bytes.
ghost use Rattle.std.specs.Prelude.{◌≡◌, ◌↔◌, ℕ, ◌+◌, ◌*◌, ◌≤◌, None, Err, Bool, List, length, IsTrue, IfOk, MatchOption};
ghost use Rattle.std.specs.Arc.{arc_value};
ghost use Rattle.bidegree.specs.declared.range.TheConstants.{MAX_S, MAX_T};
ghost use Rattle.f2_vec.specs.Spans.{HaveWidth};
ghost use Rattle.f2_matrix.specs.Reduction.{IsReductionOf};
ghost use Rattle.square.specs.Squares.{Placed, over};
ghost use Rattle.square.specs.Tables.{AllRead, IsNext, IsTable};
ghost use Rattle.f2_matrix.specs.Echelon.{IsReduced, HasNoZeroRow};
ghost use Rattle.save_file.specs.Reading.{packed_len, square_in, addition_in, after_body};
ghost use Rattle.save_file.specs.Saved.{IsDecoded, IsDecodedSquare, IsDecodedQuasi, kept_of_table};
ghost use Rattle.save_file.specs.Inside.Differentials.{matrix_of};
ghost use Rattle.save_file.specs.Inside.Outline.{outline_of, addition_outline_of, packed_of, pair_of, IsPlaceFor, HasDimensions, IsBareAt, AreUnpacked, ArePackedParts};
ghost use Rattle.save_file.specs.declared.fault.DecodeFault.TheVariants.{Strange};

use crate::body::Body;
use crate::differential::{Differential, is_small, map_there, next_map};
use crate::fault::DecodeFault;
use crate::outline::{
    AdditionParts, PackedPreimages, PackedRows, Parts, addition_parts_of, parts_of,
};
use crate::products::are_few;
use crate::quasi::with_parts;
use crate::rows::{are_packed_so, unpack};
use bidegree::{MAX_S, MAX_T};
use f2_kernel::is_row_basis;
use f2_matrix::{Reduced, Rows};
use memory::Memory;
use square::{Square, Table};
use std::alloc::Global;
use std::sync::Arc;

/// The square that these bytes are behind those of the table, all of which were read, or the quasi-inverse of one of them. `number`
/// is that of the record they stand in, from 0, and is told where the bytes are strange. The list of the squares that were read is
/// the table's start; the table has them at their places, so it is asked.
///
/// The bytes are a square's if they are its body, byte by byte, and the square may stand there: its kind is 1 or 2 and its place
/// within the limits of a range; it is not in the table, and those that it stands on are; the dimensions are those of the target of
/// d_s and of F_s with the new generators, in its degree; there are no more images and kernel rows than that; and the kernel rows are
/// in reduced echelon form without a zero row. They are a quasi-inverse's if the kind is 3 and the square is in the table, without
/// one, with these dimensions. Where there are image rows and chosen preimages, these are with the kernel rows the parts of the
/// reduction of the matrix of d_s: that is seen row by row, and nothing is eliminated. That the content is that of the canonical
/// resolution is not looked at.
///
/// # Errors
/// `Strange` exactly where they are neither, and `Memory` if allocation fails.
pub fn decode(alloc: Global, table: &Table, number: u64, body: &[u8]) -> Result<Body, DecodeFault>
    requires { AllRead table.now.rows }
    ensures decoded { IfOk result (λ b. IsDecoded table.now body.now b) }
    ensures strange { (n : ℕ) → result ≡ Err (Strange n) →
        (n ≡ number) × (after_body (over table.now.resolved) (kept_of_table table.now) body.now ≡ None) }
{
    if let Some(square) = read_square(alloc, table, body)? {
        return Ok(Body::Square(square));
    }
    match read_quasi(alloc, table, body)? {
        Some((s, t, quasi)) => Ok(Body::Quasi { s, t, quasi }),
        None => Err(DecodeFault::Strange { number }),
    }
}

/// The square that the bytes are, or `None` if they are no square that may stand there.
fn read_square(alloc: Global, table: &Table, body: &[u8]) -> Result<Option<Square>, Memory>
    requires { AllRead table.now.rows }
    ensures { IfOk result (λ found. MatchOption found
        (square_in (over table.now.resolved) table.now.start body.now ≡ None)
        (λ q. IsDecodedSquare table.now body.now q)) }
{
    let Some(parts) = parts_of(body) else {
        return Ok(None);
    };
    let Some(t) = next_degree(table, parts.s, parts.above) else {
        return Ok(None);
    };
    if !has_dimensions(table, t, &parts) {
        return Ok(None);
    }
    let Some(images) = unpack(alloc, &parts.images)? else {
        return Ok(None);
    };
    let Some(kernel) = unpack(alloc, &parts.kernel)? else {
        return Ok(None);
    };
    let is_basis = is_row_basis(alloc, parts.kernel.cols as usize, kernel.as_slice())?;
    if !is_basis {
        return Ok(None);
    }
    let Some(packed) = parts.quasi else {
        let square = Square::read(table, parts.s, t, images, kernel, None);
        return Ok(Some(square));
    };
    if !counts_add_up(&packed, parts.kernel.height) {
        return Ok(None);
    }
    let (w, v) = (parts.images.cols, parts.kernel.cols);
    let len = body.len() as u64;
    let few = are_few(alloc, table, parts.s, parts.above, images.as_slice(), len)?;
    let small = few && is_small(v, w, len);
    let matrix = next_map(alloc, table, parts.s, t, images.as_slice(), small)?;
    let below = square_below(table, parts.s, parts.above);
    let shared = Rows::of(alloc, kernel)?;
    let Some(quasi) = reduction(alloc, &matrix, &packed, shared, below)? else {
        return Ok(None);
    };
    Ok(Some(Square::read_reduced(table, parts.s, t, images, quasi)))
}

/// The quasi-inverse that the bytes are, with the row and the degree of its square, or `None` if they are none of a square that is
/// there without one.
fn read_quasi(
    alloc: Global,
    table: &Table,
    body: &[u8],
) -> Result<Option<(u16, i32, Reduced)>, Memory>
    requires { AllRead table.now.rows }
    ensures { IfOk result (λ found. MatchOption found
        (addition_in (over table.now.resolved) (kept_of_table table.now) body.now ≡ None)
        (λ r. IsDecodedQuasi table.now body.now r.0 r.1 r.2)) }
{
    let Some(parts) = addition_parts_of(body) else {
        return Ok(None);
    };
    let Some(square) = bare_square(table, &parts) else {
        return Ok(None);
    };
    if !counts_add_up(&parts.quasi, square.kernel().len() as u64) {
        return Ok(None);
    }
    let (w, v) = (parts.quasi.image.cols, parts.quasi.chosen.cols);
    let len = body.len() as u64;
    let few = are_few(alloc, table, parts.s, parts.above, &[], len)?;
    let small = few && is_small(v, w, len);
    let matrix = map_there(alloc, table, parts.s, square.t(), small)?;
    let below = square_below(table, parts.s, parts.above);
    let kernel = square.kernel_rows(alloc)?;
    let Some(quasi) = reduction(alloc, &matrix, &parts.quasi, kernel, below)? else {
        return Ok(None);
    };
    Ok(Some((parts.s, square.t(), quasi)))
}

/// The square of the table at the place of a quasi-inverse, none where it is not there, or has one, or has other dimensions.
fn bare_square<'a>(table: &'a Table, parts: &AdditionParts<'_>) -> Option<&'a Arc<Square>>
    requires { AllRead table.now.rows }
    ensures square { MatchOption result ((q : Placed) → IsBareAt table.now (addition_outline_of parts.now) q → ⊥)
        (λ q. IsBareAt table.now (addition_outline_of parts.now) (arc_value q.now)) }
    ensures is_table { IsTable table.now }
{
    let square = table.square(parts.s, parts.above)?;
    if square.kept_quasi().is_some() {
        return None;
    }
    let (target, source) = square.widths();
    if target != parts.quasi.image.cols || source != parts.quasi.chosen.cols {
        return None;
    }
    Some(square)
}

/// The square below a place, whose kernel rows are the image rows there wherever the squares were made. There is none below row 0.
pub(crate) fn square_below(table: &Table, s: u16, above: u16) -> Option<&Square> {
    let below = s.checked_sub(1)?;
    Some(table.square(below, above)?)
}

/// Whether there are as many image rows and kernel rows together as the matrix of d_s has rows. It is seen before that is made: a body
/// whose rows are fewer cannot say how many rows it has.
fn counts_add_up(packed: &PackedPreimages<'_>, nullity: u64) -> bool
    ensures { IsTrue result ↔ packed.now.image.height + nullity ≡ packed.now.chosen.cols }
{
    let (rank, height) = (packed.image.height, packed.chosen.cols);
    nullity <= height && rank == height - nullity
}

/// The reduction of the matrix with these packed parts and these kernel rows, none where they are not its parts.
///
/// # Errors
/// `Memory` if allocation fails.
fn reduction(
    alloc: Global,
    matrix: &Differential<'_>,
    packed: &PackedPreimages<'_>,
    kernel: Rows,
    below: Option<&Square>,
) -> Result<Option<Reduced>, Memory>
    requires image { length packed.now.image.bytes.now ≡ packed.now.image.height * packed_len packed.now.image.cols }
    requires chosen { length packed.now.chosen.bytes.now
        ≡ packed.now.chosen.height * packed_len packed.now.chosen.cols }
    requires cols { packed.now.image.cols ≡ (matrix_of matrix.now).cols }
    requires height { packed.now.chosen.cols ≡ length (matrix_of matrix.now).rows }
    requires widths { HaveWidth (length (matrix_of matrix.now).rows) kernel }
    requires reduced { IsReduced kernel }
    requires nonzero { HasNoZeroRow kernel }
    ensures { IfOk result (λ found. MatchOption found
        ((image chosen : List (List Bool)) → ArePackedParts (pair_of packed.now) (matrix_of matrix.now) image chosen kernel
        → ⊥)
        (λ r. ArePackedParts (pair_of packed.now) (matrix_of matrix.now) r.image r.chosen r.kernel × (r.kernel ≡ kernel)
        × IsReductionOf (matrix_of matrix.now).cols (matrix_of matrix.now).rows r)) }
{
    let Some(image) = image_rows(alloc, &packed.image, below)? else {
        return Ok(None);
    };
    let Some(chosen) = unpack(alloc, &packed.chosen)? else {
        return Ok(None);
    };
    let (cols, height) = (packed.image.cols as usize, packed.chosen.cols as usize);
    with_parts(alloc, matrix, cols, height, image, chosen, kernel)
}

/// The image rows, none where a spare bit of one is 1. Where they are the kernel rows of the square below they are shared with it,
/// and not unpacked.
///
/// # Errors
/// `Memory` if allocation fails.
fn image_rows(
    alloc: Global,
    packed: &PackedRows<'_>,
    below: Option<&Square>,
) -> Result<Option<Rows>, Memory>
    requires { length packed.now.bytes.now ≡ packed.now.height * packed_len packed.now.cols }
    ensures { IfOk result
        (λ found. MatchOption found ((rows : List (List Bool)) → AreUnpacked (packed_of packed.now) rows → ⊥)
        (λ rows. AreUnpacked (packed_of packed.now) rows)) }
{
    if let Some(square) = below {
        let fit = are_packed_so(alloc, square.kernel(), packed)?;
        if fit {
            return Ok(Some(square.kernel_rows(alloc)?));
        }
    }
    match unpack(alloc, packed)? {
        Some(rows) => Ok(Some(Rows::of(alloc, rows)?)),
        None => Ok(None),
    }
}

/// The degree of the square in row `s`, `above` degrees above the bottom, none where it is past the limits, or not the next of
/// its row, or does not have those that it stands on.
fn next_degree(table: &Table, s: u16, above: u16) -> Option<i32>
    ensures place { MatchOption result (s ≤ MAX_S → above ≤ MAX_T → IsNext table.now.rows s above → ⊥)
        (λ t. IsPlaceFor table.now s above t) }
    ensures is_table { IsTable table.now }
{
    if !table.is_next(s, above) || s > MAX_S || above > MAX_T {
        return None;
    }
    Some(table.degree(above))
}

/// Whether the matrices have as many columns as the modules have dimensions, where the next square of the row is, in degree `t`,
/// and no more rows. For kernel rows in reduced echelon form without a zero row the last adds nothing. It is tested first,
/// so that a body of rows without a coordinate is refused at once.
fn has_dimensions(table: &Table, t: i32, parts: &Parts<'_>) -> bool
    requires { IsPlaceFor table.now parts.now.s parts.now.above t }
    ensures { IsTrue result ↔ HasDimensions table.now (outline_of parts.now) }
{
    let (images, kernel) = (&parts.images, &parts.kernel);
    let (w, v) = (images.cols, kernel.cols);
    match table.next_widths(parts.s, t, images.height as usize) {
        Some((target, source)) => {
            w == target && images.height <= w && v == source && kernel.height <= v
        }
        None => false,
    }
}
