//! Whether a square may stand behind those of its row.
ghost use Rattle.std.specs.Prelude.{◌≡◌, ◌↔◌, ℕ, suc, ◌+◌, ◌-◌, ◌<◌, ◌≤◌, pos, ◌+ℤ◌, IsTrue, length, map, take, ◌++◌, IfOk, IfErr, OnOk, OnErr};
ghost use Rattle.bidegree.specs.declared.range.TheConstants.{MAX_S, MAX_T};
ghost use Rattle.f2_vec.specs.Vectors.{zeros, IsZero};
ghost use Rattle.f2_vec.specs.Spans.{row, HaveWidth};
ghost use Rattle.free_module.specs.FreeModule.{IsWithinReach, free_width};
ghost use Rattle.free_module.specs.LinearMap.{mapped};
ghost use Rattle.resolution_laws.specs.Resolution.{degrees_from, images_of, row_of};
ghost use Rattle.square.specs.Squares.{over, bottom_of};
ghost use Rattle.resolution_images.specs.BareRows.{bare_row_in, squares_of};
ghost use Rattle.chart_rows.specs.Standing.{AreCharted, AreCycles, AreIndependent, IsMisplaced, IsNextAt, MayStand, new_below, target_below, whole_row};
ghost use Rattle.chart_rows.specs.Placing.{with_square};

use crate::fault::PlaceFault;
use chart_file::BareSquare;
use f2_kernel::kernel_of;
use f2_matrix::Matrix;
use f2_vec::BitVec;
use finite_module::Module;
use free_hom::Hom;
use free_module::{Gens, Target};
use memory::Memory;
use milnor_basis::Basis;
use resolution_images::{Row, degree};
use std::alloc::Global;

/// Where a square is to stand: in row `s`, `k` degrees above the module's bottom. The Milnor bases reach so far.
#[derive(Drop)]
pub(crate) struct Place<'a> {
    pub module: &'a Module,
    pub basis: &'a Basis,
    pub s: u16,
    pub k: u16,
}

impl Place<'_> {
    /// Puts the square behind the others of its row, where it may stand.
    ///
    /// # Errors
    /// What keeps it from that, and `Memory` if allocation fails; the rows are then as before.
    pub(crate) fn put(
        &self,
        alloc: Global,
        rows: &mut [Row],
        square: &BareSquare,
    ) -> Result<(), PlaceFault>
        requires rows { AreCharted (over self.now.module.now) rows.old }
        requires row { self.now.s ≤ MAX_S }
        requires degree { self.now.k ≤ MAX_T }
        requires basis { self.now.k ≤ self.now.basis.now }
        ensures may { OnOk result (MayStand (over self.now.module.now) rows.old self.now.s self.now.k square.now) }
        ensures put { OnOk result
            (rows.new ≡ with_square (over self.now.module.now) self.now.s self.now.k square.now rows.old) }
        ensures refused { IfErr result
            (IsMisplaced (over self.now.module.now) rows.old self.now.s self.now.k square.now) }
        ensures same { OnErr result (rows.new ≡ rows.old) }
        ensures charted { AreCharted (over self.now.module.now) rows.new }
    {
        self.look(alloc, rows, square)?;
        let images = copied(alloc, square.images())?;
        rows[usize::from(self.s)].push(degree(self.module, self.k), images)?;
        Ok(())
    }

    /// Whether the square may stand there.
    ///
    /// # Errors
    /// What keeps it from that, and `Memory` if allocation fails.
    fn look(&self, alloc: Global, rows: &[Row], square: &BareSquare) -> Result<(), PlaceFault>
        requires rows { AreCharted (over self.now.module.now) rows.now }
        requires row { self.now.s ≤ MAX_S }
        requires basis { self.now.k ≤ self.now.basis.now }
        ensures may { OnOk result (MayStand (over self.now.module.now) rows.now self.now.s self.now.k square.now) }
        ensures refused { IfErr result
            (IsMisplaced (over self.now.module.now) rows.now self.now.s self.now.k square.now) }
    {
        let row = self.s;
        if !self.is_next(rows) {
            return Err(PlaceFault::Order { row });
        }
        if square.width() as u128 != self.width(alloc, rows)? {
            return Err(PlaceFault::Width { row });
        }
        if !are_independent(alloc, square)? {
            return Err(PlaceFault::Dependent { row });
        }
        if !self.are_cycles(alloc, rows, square.images())? {
            return Err(PlaceFault::NoCycle { row });
        }
        Ok(())
    }

    /// Whether the row ends before that degree, and the row below does not end earlier.
    fn is_next(&self, rows: &[Row]) -> bool
        requires { self.now.s < length rows.now }
        ensures { IsTrue result ↔ IsNextAt rows.now self.now.s self.now.k }
    {
        let s = usize::from(self.s);
        let k = usize::from(self.k);
        rows[s].counts().len() == k && (s == 0 || k <= rows[s - 1].counts().len())
    }

    /// How many coordinates an image has there.
    ///
    /// # Errors
    /// `Memory` if allocation fails.
    fn width(&self, alloc: Global, rows: &[Row]) -> Result<u128, Memory>
        requires rows { AreCharted (over self.now.module.now) rows.now }
        requires row { self.now.s ≤ MAX_S }
        requires basis { self.now.k ≤ self.now.basis.now }
        ensures { IfOk result (λ n. n
            ≡ (target_below (over self.now.module.now) (squares_of rows.now) self.now.s self.now.k).width
            (bottom_of self.now.module.now +ℤ pos self.now.k)) }
    {
        let s = usize::from(self.s);
        let t = degree(self.module, self.k);
        if s == 0 {
            return Ok(self.module.dim_in(t) as u128);
        }
        let gens = first_gens(alloc, self.module, rows, s - 1, usize::from(self.k))?;
        Ok(gens.dim(self.basis, t))
    }

    /// Whether the differential takes each of these vectors to zero.
    ///
    /// # Errors
    /// `Memory` if allocation fails.
    fn are_cycles(&self, alloc: Global, rows: &[Row], vectors: &[BitVec]) -> Result<bool, Memory>
        requires rows { AreCharted (over self.now.module.now) rows.now }
        requires row { self.now.s ≤ MAX_S }
        requires basis { self.now.k ≤ self.now.basis.now }
        requires next { IsNextAt rows.now self.now.s self.now.k }
        requires widths { HaveWidth
            ((target_below (over self.now.module.now) (squares_of rows.now) self.now.s self.now.k).width
            (bottom_of self.now.module.now +ℤ pos self.now.k)) vectors.now }
        ensures { IfOk result (λ b. IsTrue b
            ↔ AreCycles (over self.now.module.now) (squares_of rows.now) self.now.s self.now.k vectors.now) }
    {
        if self.s == 0 {
            return Ok(true);
        }
        let i = usize::from(self.s) - 1;
        let k = usize::from(self.k);
        let t = degree(self.module, self.k);
        let source = first_gens(alloc, self.module, rows, i, k)?;
        let images = whole_images(alloc, rows, i, k.saturating_sub(1), k)?;
        if i == 0 {
            let hom = Hom::new(self.basis, &source, self.module, images.as_slice());
            return are_taken_to_zero(alloc, &hom, t, vectors);
        }
        let target = first_gens(alloc, self.module, rows, i - 1, k.saturating_sub(1))?;
        let hom = Hom::new(self.basis, &source, &target, images.as_slice());
        are_taken_to_zero(alloc, &hom, t, vectors)
    }
}

/// The generators of the first `n` squares of row `s`.
///
/// # Errors
/// `Memory` if allocation fails.
pub(crate) fn first_gens(
    alloc: Global,
    module: &Module,
    rows: &[Row],
    s: usize,
    n: usize,
) -> Result<Gens, Memory>
    requires rows { AreCharted (over module.now) rows.now }
    requires row { s ≤ MAX_S }
    ensures { IfOk result (λ gens. gens
        ≡ degrees_from (bottom_of module.now) (take n (row_of (squares_of rows.now) s))) }
{
    rows[s].first_gens(alloc, module.bottom(), n)
}

/// The images of the first `k` squares of row `s`, each with a zero for each generator of its own degree among those of the first `n`
/// squares of the row below.
///
/// # Errors
/// `Memory` if allocation fails.
pub(crate) fn whole_images(
    alloc: Global,
    rows: &[Row],
    s: usize,
    n: usize,
    k: usize,
) -> Result<Vec<BitVec>, Memory>
    requires row { s < length rows.now }
    requires there { k ≤ length (bare_row_in rows.now s).counts }
    ensures { IfOk result (λ images. images.items ≡ images_of (whole_row (squares_of rows.now) s n k)) }
{
    let mut images = Vec::new(alloc);
    for j in 0..k {
        push_padded(alloc, &mut images, rows[s].square(j), new_in(rows, s, n, j))?;
    }
    Ok(images)
}

/// How many generators square `j` of the row below row `s` has, if it is one of the first `n` there.
pub(crate) fn new_in(rows: &[Row], s: usize, n: usize, j: usize) -> usize
    requires { s ≤ length rows.now }
    ensures { result ≡ new_below (squares_of rows.now) s n j }
{
    if s == 0 || n <= j {
        return 0;
    }
    let below = &rows[s - 1];
    if below.counts().len() <= j {
        return 0;
    }
    below.square(j).len()
}

/// Puts these vectors behind the others, each with `count` zeros behind it.
///
/// # Errors
/// `Memory` if allocation fails; the vectors are then of no use.
pub(crate) fn push_padded(
    alloc: Global,
    vectors: &mut Vec<BitVec>,
    new: &[BitVec],
    count: usize,
) -> Result<(), Memory>
    ensures { OnOk result (vectors.new.items ≡ vectors.old.items ++ map (λ v. v ++ zeros count) new.now) }
{
    let none = BitVec::zero(alloc, count)?;
    for v in new {
        let mut padded = v.try_copy(alloc)?;
        padded.append(&none)?;
        vectors.push(padded)?;
    }
    Ok(())
}

/// Copies of the vectors.
///
/// # Errors
/// `Memory` if allocation fails.
fn copied(alloc: Global, vectors: &[BitVec]) -> Result<Vec<BitVec>, Memory>
    ensures { IfOk result (λ v. v.items ≡ vectors.now) }
{
    let mut copies = Vec::new(alloc);
    copies.extend_with_clones(vectors)?;
    Ok(copies)
}

/// Whether no sum of the images is zero but that of none.
///
/// # Errors
/// `Memory` if allocation fails.
fn are_independent(alloc: Global, square: &BareSquare) -> Result<bool, Memory>
    ensures { IfOk result (λ b. IsTrue b ↔ AreIndependent square.now) }
{
    let images = copied(alloc, square.images())?;
    let kernel = kernel_of(alloc, &Matrix::from_rows(square.width(), images))?;
    Ok(kernel.pivots().is_empty())
}

/// Whether the map takes each of these vectors of degree `t` to zero.
///
/// # Errors
/// `Memory` if allocation fails.
fn are_taken_to_zero<T: Target>(
    alloc: Global,
    hom: &Hom<'_, T>,
    t: i32,
    vectors: &[BitVec],
) -> Result<bool, Memory>
    requires widths { HaveWidth (free_width hom.now.source.now t) vectors.now }
    requires source { IsWithinReach hom.now.basis.now hom.now.source.now t }
    requires target { T.reaches hom.now.target.now hom.now.basis.now t }
    ensures { IfOk result (λ b. IsTrue b ↔ ((h : ℕ) → h < length vectors.now → IsZero
        (mapped (T.graded hom.now.target.now) hom.now.source.now hom.now.images.now t (row vectors.now h)))) }
{
    for vector in vectors {
        if !hom.apply(alloc, t, vector)?.is_zero() {
            return Ok(false);
        }
    }
    Ok(true)
}
