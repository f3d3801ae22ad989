//! Whether d_s may be exact at a square of a table, by the rows that the table has there.
ghost use Rattle.std.specs.Prelude.{◌≡◌, ◌+◌, ◌↔◌, false, length, IsTrue, IsSome, IfOk, IfSome};
ghost use Rattle.f2_vec.specs.Spans.{HaveWidth, combination};
ghost use Rattle.square.specs.Tables.{square_at};
ghost use Rattle.save_file.specs.Exactness.{IsInexactAt};
ghost use Rattle.save_file.specs.Inside.Differentials.{matrix_of_map};
ghost use Rattle.save_file.specs.Inside.Exactness.{AreOfNone, HasNoRelation, HasOtherRow, HasOtherRelation};

use crate::differential::{is_small, square_map};
use crate::row_map::SquareMap;
use crate::rows::{have_width, is_pivot_of};
use f2_kernel::is_row_basis;
use f2_matrix::{Matrix, Reduced, Rows, parts_are_reduction};
use f2_vec::BitVec;
use free_hom::Hom;
use memory::Memory;
use square::Table;
use std::alloc::Global;

/// How many bytes a matrix of d_s beside the unit matrix may take, whatever the table has there.
const LITTLE: u64 = 1 << 14;

/// Whether d_s may be exact at a square that is there. Where its matrix takes little the answer is yes. Elsewhere the rows that the
/// table has are tested by d_s, whose matrix is not made: so it takes the memory of these rows, and of few others as long as they are.
/// Where the answer is no, d_s is not exact there, or the kernel rows of the square, or of the one below, are not those of its map.
///
/// # Errors
/// `Memory` if allocation fails.
pub fn may_be_exact(alloc: Global, table: &Table, s: u16, t: i32) -> Result<bool, Memory>
    requires { IsSome (square_at table.now s t) }
    ensures { IfOk result (λ may. may ≡ false → IsInexactAt table.now s t) }
{
    let Some(square) = table.at(s, t) else {
        return Ok(true);
    };
    let (w, v) = square.widths();
    if takes_little(v, w) {
        return Ok(true);
    }
    parts_are_reduction(); // Image and kernel rows are as many as the matrix has rows, which proofs learn here.
    let map = square_map(alloc, table, s, t)?;
    if s == 0 {
        return map.adds_up(table.module().dim_in(t), square.kernel().len());
    }
    let Some(below) = table.square(s - 1, square.above()) else {
        return Ok(true);
    };
    let image = below.kernel_rows(alloc)?;
    let kernel = square.kernel_rows(alloc)?;
    map.may_have(alloc, image, kernel)
}

/// Whether a matrix of `height` rows of `cols` coordinates takes little beside the unit matrix.
fn takes_little(height: u64, cols: u64) -> bool {
    let row = cols.saturating_add(height).div_ceil(8);
    height.saturating_mul(row.saturating_add(64)) <= LITTLE
}

impl SquareMap<'_> {
    /// Whether its matrix has as many rows as these two numbers say together.
    ///
    /// # Errors
    /// `Memory` if no memory holds so many rows as it has.
    fn adds_up(&self, rank: usize, nullity: usize) -> Result<bool, Memory>
        ensures { IfOk result (λ adds. IsTrue adds ↔ rank + nullity ≡ length (matrix_of_map self.now).rows) }
    {
        let (_, height) = self.dims()?;
        Ok(rank <= height && nullity == height - rank)
    }

    /// Whether these may be the image rows and the kernel rows of the reduction of its matrix.
    ///
    /// # Errors
    /// `Memory` if allocation fails.
    fn may_have(&self, alloc: Global, image: Rows, kernel: Rows) -> Result<bool, Memory>
        ensures { IfOk result (λ may. may ≡ false → AreOfNone (matrix_of_map self.now) image kernel) }
    {
        parts_are_reduction(); // Image and kernel rows are as many as the matrix has rows, which proofs learn here.
        let adds_up = self.adds_up(image.as_slice().len(), kernel.as_slice().len())?;
        if !adds_up {
            return Ok(false);
        }
        let (cols, height) = self.dims()?;
        if is_small(height as u64, cols as u64, 0) {
            return Ok(true);
        }
        let Some(image) = span_of(alloc, cols, image)? else {
            return Ok(true);
        };
        let Some(kernel) = span_of(alloc, height, kernel)? else {
            return Ok(true);
        };
        self.may_span(alloc, height, &image, &kernel)
    }

    /// Whether the rows of its matrix may span the first of these, and its kernel be the second.
    ///
    /// # Errors
    /// `Memory` if allocation fails.
    fn may_span(
        &self,
        alloc: Global,
        height: usize,
        image: &Reduced,
        kernel: &Reduced,
    ) -> Result<bool, Memory>
        requires height { height ≡ length (matrix_of_map self.now).rows }
        requires image { image.now.cols ≡ (matrix_of_map self.now).cols }
        requires kernel { kernel.now.cols ≡ height }
        ensures { IfOk result (λ may. may ≡ false →
            AreOfNone (matrix_of_map self.now) image.now.image kernel.now.image) }
    {
        let vanish = self.vanishes_at(alloc, kernel.image())?;
        if !vanish {
            return Ok(false);
        }
        let stay = self.stays_in(alloc, height, image)?;
        if !stay {
            return Ok(false);
        }
        self.has_no_more(alloc, height, kernel)
    }

    /// Whether it takes each of these vectors of the square's degree to zero.
    ///
    /// # Errors
    /// `Memory` if allocation fails.
    fn vanishes_at(&self, alloc: Global, vectors: &[BitVec]) -> Result<bool, Memory>
        requires { HaveWidth (length (matrix_of_map self.now).rows) vectors.now }
        ensures { IfOk result (λ all. all ≡ false → HasNoRelation (matrix_of_map self.now) vectors.now) }
    {
        for i in 0..vectors.len() {
            let value = self.value(alloc, &vectors[i])?;
            if !value.is_zero() {
                return Ok(false);
            }
        }
        Ok(true)
    }

    /// Whether each row of its matrix, which has so many, is in this span.
    ///
    /// # Errors
    /// `Memory` if allocation fails.
    fn stays_in(&self, alloc: Global, height: usize, span: &Reduced) -> Result<bool, Memory>
        requires height { height ≡ length (matrix_of_map self.now).rows }
        requires span { span.now.cols ≡ (matrix_of_map self.now).cols }
        ensures { IfOk result (λ all. all ≡ false → HasOtherRow (matrix_of_map self.now) span.now.image) }
    {
        for i in 0..height {
            let unit = BitVec::unit(alloc, height, i)?;
            let value = self.value(alloc, &unit)?;
            let inside = span.contains(alloc, &value)?;
            if !inside {
                return Ok(false);
            }
        }
        Ok(true)
    }

    /// Whether its kernel, of vectors of this length, may be no more than this span, which is in the kernel. Were it more, the rows of
    /// its matrix that are not at pivots of the span had a relation, and the first one is tried.
    ///
    /// # Errors
    /// `Memory` if allocation fails.
    fn has_no_more(&self, alloc: Global, height: usize, span: &Reduced) -> Result<bool, Memory>
        requires height { height ≡ length (matrix_of_map self.now).rows }
        requires span { span.now.cols ≡ height }
        ensures { IfOk result (λ may. may ≡ false → HasOtherRelation (matrix_of_map self.now) span.now.image) }
    {
        let others = self.others(alloc, span.image())?;
        if others.is_empty() {
            return Ok(true);
        }
        let (cols, _) = self.dims()?;
        if !have_width(cols, others.as_slice()) {
            return Ok(true);
        }
        let form = Reduced::of(alloc, &Matrix::from_rows(cols, others))?;
        let Some(relation) = form.kernel().first() else {
            return Ok(true);
        };
        let vector = beside_pivots(alloc, height, span.image(), relation)?;
        let value = self.value(alloc, &vector)?;
        if !value.is_zero() {
            return Ok(true);
        }
        span.contains(alloc, &vector)
    }

    /// The map on a vector of the square's degree.
    ///
    /// # Errors
    /// `Memory` if allocation fails.
    fn value(&self, alloc: Global, vector: &BitVec) -> Result<BitVec, Memory>
        requires { length vector.now ≡ length (matrix_of_map self.now).rows }
        ensures value { IfOk result
            (λ w. w ≡ combination (matrix_of_map self.now).cols vector.now (matrix_of_map self.now).rows) }
        ensures width { IfOk result (λ w. length w ≡ (matrix_of_map self.now).cols) }
        ensures widths { HaveWidth (matrix_of_map self.now).cols (matrix_of_map self.now).rows }
    {
        let map = Hom::new(self.basis, &self.gens, &self.target, self.images.as_slice());
        map.apply(alloc, self.t, vector)
    }
}

/// The span of these rows, where they are of length `n`, in reduced echelon form, and none is zero. They stand for its image rows, and
/// nothing is reduced.
///
/// # Errors
/// `Memory` if allocation fails.
fn span_of(alloc: Global, n: usize, rows: Rows) -> Result<Option<Reduced>, Memory>
    ensures image { IfOk result (λ found. IfSome found (λ span. span.image ≡ rows)) }
    ensures cols { IfOk result (λ found. IfSome found (λ span. span.cols ≡ n)) }
{
    if !have_width(n, rows.as_slice()) {
        return Ok(None);
    }
    let is_basis = is_row_basis(alloc, n, rows.as_slice())?;
    if !is_basis {
        return Ok(None);
    }
    let chosen = BitVec::zero_rows(alloc, rows.as_slice().len(), 0)?;
    let none = Rows::of(alloc, Vec::new(alloc))?;
    Ok(Some(Reduced::from_shared_rows(n, 0, rows, chosen, none)))
}

/// The vector of length `n` with zeros at the pivots of the rows, and with these coordinates at the other places, one after the other.
///
/// # Errors
/// `Memory` if allocation fails.
fn beside_pivots(
    alloc: Global,
    n: usize,
    rows: &[BitVec],
    coordinates: &BitVec,
) -> Result<BitVec, Memory>
    ensures { IfOk result (λ vector. length vector ≡ n) }
{
    let mut vector = BitVec::zero(alloc, n)?;
    let mut passed = 0;
    for i in 0..n {
        if is_pivot_of(rows, passed, i) {
            passed += 1;
        } else if i - passed < coordinates.len() && coordinates.get(i - passed) {
            vector.set(i, true);
        }
    }
    Ok(vector)
}
