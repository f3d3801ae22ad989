//! The linear map d_s where the next square stands, and whether rows are the parts of its reduction.
ghost use Rattle.std.specs.Prelude.{◌≡◌, ◌↔◌, ℕ, pos, ◌+ℤ◌, length, IsTrue, IfOk, IsSome};
ghost use Rattle.f2_vec.specs.Spans.{HaveWidth};
ghost use Rattle.f2_matrix.specs.Echelon.{IsReduced, HasNoZeroRow};
ghost use Rattle.f2_matrix.specs.Parts.{AreReductionParts};
ghost use Rattle.square.specs.Squares.{bottom_of};
ghost use Rattle.square.specs.Tables.{IsNextAt, IsMatrixAt, IsMatrixBehind, next_target_width, square_at};
ghost use Rattle.save_file.specs.Inside.Differentials.{matrix_of, matrix_behind, matrix_of_map};

use crate::row_map::{RowMap, SquareMap};
use crate::rows::is_pivot_of;
use f2_kernel::are_parts;
use f2_matrix::Matrix;
use f2_vec::BitVec;
use free_hom::Hom;
use free_module::Target;
use hom_parts::are_parts_of;
use memory::Memory;
use square::Table;
use std::alloc::Global;

/// How many bytes a matrix of d_s may take for each byte of the body that it is made for.
const MATRIX_BYTES: u64 = 16;

/// How many bytes a matrix of d_s may take besides.
const LEAST_MATRIX_BYTES: u64 = 1 << 20;

/// The map d_s in one degree, seen as its matrix. That is there, or else it is made row by row.
#[derive(Drop)]
pub(crate) enum Differential<'a> {
    Whole(Matrix),
    ByRows(RowMap),
    OfSquare(SquareMap<'a>),
}

/// The map d_s in degree `t`, where the next square of row `s` is, if that gets generators of these images. Its matrix is made at once
/// if it is small.
///
/// # Errors
/// `Memory` if allocation fails.
pub(crate) fn next_map(
    alloc: Global,
    table: &Table,
    s: u16,
    t: i32,
    images: &[BitVec],
    is_small: bool,
) -> Result<Differential<'static>, Memory>
    requires place { IsNextAt table.now s t }
    requires widths { (k : ℕ) → t ≡ bottom_of table.now.resolved +ℤ pos k →
        HaveWidth (next_target_width table.now s k) images.now }
    ensures { IfOk result (λ map. IsMatrixBehind table.now s t images.now (matrix_of map)) }
{
    if is_small {
        let matrix = table.next_matrix(alloc, s, t, images)?;
        return Ok(Differential::Whole(matrix));
    }
    let inputs = table.inputs(alloc, s, t)?;
    let images = copied(alloc, images)?;
    Ok(Differential::ByRows(RowMap { inputs, images }))
}

/// The map d_s in degree `t`, with the generators of the square there. Its matrix is made at once if it is small.
///
/// # Errors
/// `Memory` if allocation fails.
pub(crate) fn map_there(
    alloc: Global,
    table: &Table,
    s: u16,
    t: i32,
    is_small: bool,
) -> Result<Differential<'_>, Memory>
    requires { IsSome (square_at table.now s t) }
    ensures { IfOk result (λ map. IsMatrixAt table.now s t (matrix_of map)) }
{
    if is_small {
        let matrix = table.matrix(alloc, s, t)?;
        return Ok(Differential::Whole(matrix));
    }
    let map = square_map(alloc, table, s, t)?;
    Ok(Differential::OfSquare(map))
}

/// The map d_s in degree `t`, with the generators of the square there.
///
/// # Errors
/// `Memory` if allocation fails.
pub(crate) fn square_map(
    alloc: Global,
    table: &Table,
    s: u16,
    t: i32,
) -> Result<SquareMap<'_>, Memory>
    requires { IsSome (square_at table.now s t) }
    ensures { IfOk result (λ map. IsMatrixAt table.now s t (matrix_of_map map)) }
{
    let Some(square) = table.at(s, t) else {
        unreachable!()
    };
    let above = square.above();
    let basis = table.basis(alloc, above)?;
    let target = table.below(alloc, s, above)?;
    let gens = table.generators(alloc, s, above + 1)?;
    let images = table.images(alloc, s, above + 1)?;
    Ok(SquareMap {
        basis,
        target,
        gens,
        images,
        t,
    })
}

/// A copy of the rows.
///
/// # Errors
/// `Memory` if allocation fails.
fn copied(alloc: Global, rows: &[BitVec]) -> Result<Vec<BitVec>, Memory>
    ensures { IfOk result (λ copy. copy.items ≡ rows.now) }
{
    let copy = Vec::from_clones(alloc, rows)?;
    Ok(copy)
}

/// Whether a matrix of `height` rows of `cols` coordinates, with what is taken to test rows against it, takes little beside a body of
/// `len` bytes.
pub(crate) fn is_small(height: u64, cols: u64, len: u64) -> bool {
    let row = cols.div_ceil(8).saturating_add(64);
    let matrix = height.saturating_mul(row);
    let numbers = cols.saturating_add(height).saturating_mul(8);
    matrix.saturating_add(numbers)
        <= len
            .saturating_mul(MATRIX_BYTES)
            .saturating_add(LEAST_MATRIX_BYTES)
}

impl Differential<'_> {
    /// Whether these are the image rows, the chosen preimages and the kernel rows of the reduction of its matrix, which has `cols`
    /// columns, where the kernel rows are in reduced echelon form without a zero row.
    ///
    /// # Errors
    /// `Memory` if allocation fails.
    pub(crate) fn has_parts(
        &self,
        alloc: Global,
        cols: usize,
        image: &[BitVec],
        chosen: &[BitVec],
        kernel: &[BitVec],
    ) -> Result<bool, Memory>
        requires cols { cols ≡ (matrix_of self.now).cols }
        requires image { HaveWidth (matrix_of self.now).cols image.now }
        requires chosen { HaveWidth (length (matrix_of self.now).rows) chosen.now }
        requires kernel { HaveWidth (length (matrix_of self.now).rows) kernel.now }
        requires reduced { IsReduced kernel.now }
        requires nonzero { HasNoZeroRow kernel.now }
        ensures parts { IfOk result (λ are. IsTrue are
            ↔ AreReductionParts (matrix_of self.now).cols (matrix_of self.now).rows image.now chosen.now kernel.now) }
        ensures widths { IfOk result (λ _. HaveWidth (matrix_of self.now).cols (matrix_of self.now).rows) }
    {
        match self {
            Differential::Whole(matrix) => {
                let _rows = matrix.rows();
                are_parts(alloc, matrix, image, chosen, kernel)
            }
            Differential::ByRows(map) => map.has_parts(alloc, cols, image, chosen, kernel),
            Differential::OfSquare(map) => map.has_parts(alloc, cols, image, chosen, kernel),
        }
    }
}

impl RowMap {
    /// Whether these are the parts of the reduction of the matrix, which is not made.
    ///
    /// # Errors
    /// `Memory` if allocation fails.
    fn has_parts(
        &self,
        alloc: Global,
        cols: usize,
        image: &[BitVec],
        chosen: &[BitVec],
        kernel: &[BitVec],
    ) -> Result<bool, Memory>
        requires cols { cols ≡ (matrix_behind self.now).cols }
        requires image { HaveWidth (matrix_behind self.now).cols image.now }
        requires chosen { HaveWidth (length (matrix_behind self.now).rows) chosen.now }
        requires kernel { HaveWidth (length (matrix_behind self.now).rows) kernel.now }
        requires reduced { IsReduced kernel.now }
        requires nonzero { HasNoZeroRow kernel.now }
        ensures parts { IfOk result (λ are. IsTrue are ↔ AreReductionParts (matrix_behind self.now).cols
            (matrix_behind self.now).rows image.now chosen.now kernel.now) }
        ensures widths { IfOk result (λ _. HaveWidth (matrix_behind self.now).cols (matrix_behind self.now).rows) }
    {
        let t = self.inputs.t();
        let target = self.inputs.below(alloc)?;
        let mut gens = self.inputs.generators(alloc)?;
        gens.push_many(self.images.len(), t)?;
        let mut all = self.inputs.images(alloc)?;
        all.extend_with_clones(self.images.as_slice())?;
        let map = Hom::new(self.inputs.basis(), &gens, &target, all.as_slice());
        are_parts_of(alloc, &map, t, cols, image, chosen, kernel)
    }
}

impl SquareMap<'_> {
    /// Whether these are the parts of the reduction of the matrix, which is not made.
    ///
    /// # Errors
    /// `Memory` if allocation fails.
    pub(crate) fn has_parts(
        &self,
        alloc: Global,
        cols: usize,
        image: &[BitVec],
        chosen: &[BitVec],
        kernel: &[BitVec],
    ) -> Result<bool, Memory>
        requires cols { cols ≡ (matrix_of_map self.now).cols }
        requires image { HaveWidth (matrix_of_map self.now).cols image.now }
        requires chosen { HaveWidth (length (matrix_of_map self.now).rows) chosen.now }
        requires kernel { HaveWidth (length (matrix_of_map self.now).rows) kernel.now }
        requires reduced { IsReduced kernel.now }
        requires nonzero { HasNoZeroRow kernel.now }
        ensures parts { IfOk result (λ are. IsTrue are ↔ AreReductionParts (matrix_of_map self.now).cols
            (matrix_of_map self.now).rows image.now chosen.now kernel.now) }
        ensures widths { IfOk result (λ _. HaveWidth (matrix_of_map self.now).cols (matrix_of_map self.now).rows) }
    {
        let map = Hom::new(self.basis, &self.gens, &self.target, self.images.as_slice());
        are_parts_of(alloc, &map, self.t, cols, image, chosen, kernel)
    }

    /// How many columns and how many rows the matrix has.
    ///
    /// # Errors
    /// `Memory` if one of them does not fit `usize`.
    pub(crate) fn dims(&self) -> Result<(usize, usize), Memory>
        ensures cols { IfOk result (λ dims. dims.0 ≡ (matrix_of_map self.now).cols) }
        ensures height { IfOk result (λ dims. dims.1 ≡ length (matrix_of_map self.now).rows) }
    {
        let map = Hom::new(self.basis, &self.gens, &self.target, self.images.as_slice());
        let height = map.height(self.t)?;
        match usize::try_from(self.target.dim(self.basis, self.t)) {
            Ok(cols) => Ok((cols, height)),
            // No memory holds a row of that length.
            Err(_) => Err(Memory),
        }
    }

    /// The rows of the matrix that are not at pivots of the kernel rows.
    ///
    /// # Errors
    /// `Memory` if allocation fails.
    pub(crate) fn others(&self, alloc: Global, kernel: &[BitVec]) -> Result<Vec<BitVec>, Memory> {
        let map = Hom::new(self.basis, &self.gens, &self.target, self.images.as_slice());
        let height = map.height(self.t)?;
        let mut others = Vec::new(alloc);
        let mut passed = 0;
        for i in 0..height {
            if is_pivot_of(kernel, passed, i) {
                passed += 1;
            } else {
                let unit = BitVec::unit(alloc, height, i)?;
                others.push(map.apply(alloc, self.t, &unit)?)?;
            }
        }
        Ok(others)
    }
}
