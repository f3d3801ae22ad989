//! A range resolved degree by degree, and in each degree row by row.
ghost use Rattle.std.specs.Prelude.{◌≡◌, ℕ, suc, ◌+◌, ◌<◌, ◌≤◌, pos, ◌+ℤ◌, replicate, length, IfOk, OnOk};
ghost use Rattle.std.specs.Arc.{arc_value};
ghost use Rattle.bidegree.specs.declared.range.TheConstants.{MAX_S, MAX_T};
ghost use Rattle.resolution_laws.specs.Resolution.{row_of, square_in};
ghost use Rattle.resolution_laws.specs.Exactness.{target_of};
ghost use Rattle.f2_vec.specs.Spans.{HaveWidth};
ghost use Rattle.square.specs.Squares.{over, bottom_of};
ghost use Rattle.resolution_images.specs.BareRows.{no_bare_row, bare_row_in, squares_of, AreOfCanonical, AreOfStems, AreOfRange};
ghost use Rattle.resolution_images.specs.Inside.Bare.{RowsOfRangesAreBare};
ghost use Rattle.resolution_images.specs.Made.{IsMadeThrough, IsSquareInStems, AreUnder, IsToCover};
ghost use Rattle.resolution_images.specs.Inside.Columns.{AreMadeThrough};

use crate::row::Row;
use crate::step::{Made, kernel_over, kernel_over_free, step_over, step_over_free};
use bidegree::Range;
use f2_kernel::Kernel;
use f2_vec::BitVec;
use finite_module::{Module, modules_are_graded_modules};
use free_module::Gens;
use memory::Memory;
use milnor_basis::Basis;
use milnor_laws::linear_maps;
use resolution_existence::canonical_table_exists;
use std::alloc::Global;
use std::marker::Model;
use std::sync::Arc;
use stem_laws::{
    images_in_stems_fit, kernels_in_stems_are_to_cover, rows_in_stems_are_covered,
    rows_in_stems_are_whole, squares_in_stems_are_steps, squares_in_stems_fit,
};

/// The images of the generators of a module's canonical resolution through a range: those of all squares of the range, or
/// those in stems up to that of the last square of the last row.
#[derive(Drop)]
pub struct Images {
    resolved: Arc<Module>,
    basis: Arc<Basis>,
    range: Range,
    rows: Vec<Row>,
}

impl Model for Images {
    ghost use Rattle.std.specs.Prelude.{◌≤◌};
    ghost use Rattle.std.specs.Arc.{arc_value};
    ghost use Rattle.bidegree.specs.declared.range.TheConstants.{MAX_T};
    ghost use Rattle.square.specs.Squares.{over};
    ghost use Rattle.resolution_images.specs.BareRows.{BareTable, AreOfRange};

    ghost Value = { BareTable };

    ghost view = { λ i. record { resolved = arc_value i.resolved; range = i.range; rows = i.rows.items } };

    ghost invariant = { λ i. (i.range.t ≤ MAX_T) × (i.range.t ≤ arc_value i.basis)
        × AreOfRange (over (arc_value i.resolved)) i.range.s i.range.t i.rows.items };
}

impl Images {
    /// The images of a range, whose rows were made. The Milnor bases reach through its degrees.
    pub fn of(resolved: Arc<Module>, basis: Arc<Basis>, range: Range, rows: Vec<Row>) -> Images
        requires degrees { range.t ≤ MAX_T }
        requires basis { range.t ≤ arc_value basis }
        requires rows { AreOfRange (over (arc_value resolved)) range.s range.t rows.items }
        ensures { result ≡ record { resolved = arc_value resolved; range = range; rows = rows.items } }
    {
        Images {
            resolved,
            basis,
            range,
            rows,
        }
    }

    /// The module that is resolved.
    pub fn module(&self) -> &Module
        ensures { result.now ≡ self.now.resolved }
    {
        &self.resolved
    }

    /// The Milnor bases through the greatest degree above the bottom in which there is a square.
    pub fn basis(&self) -> &Basis
        ensures { (s k : ℕ) → k < length (row_of (squares_of self.now.rows) s) → k ≤ result.now }
    {
        rows_of_ranges_are_bare();
        &self.basis
    }

    /// How many squares row `s` has. They are those of the degrees from the bottom on.
    pub fn front(&self, s: u16) -> usize
        ensures front { result ≡ length (row_of (squares_of self.now.rows) s) }
        ensures short { result ≤ MAX_T + 1 }
    {
        rows_of_ranges_are_bare();
        let s = usize::from(s);
        if s < self.rows.len() {
            return self.rows[s].counts().len();
        }
        0
    }

    /// The images of the generators of the square in row `s` and `k` degrees above the bottom, which is there.
    pub fn square(&self, s: u16, k: u16) -> &[BitVec]
        requires { k < length (row_of (squares_of self.now.rows) s) }
        ensures images { result.now ≡ (square_in (row_of (squares_of self.now.rows) s) k).images }
        ensures widths { HaveWidth ((target_of (over self.now.resolved) (squares_of self.now.rows) s).width
            (bottom_of self.now.resolved +ℤ pos k)) result.now }
        ensures degree { k ≤ MAX_T }
    {
        rows_of_ranges_are_bare();
        self.rows[usize::from(s)].square(usize::from(k))
    }
}

/// The images of the generators of the module's canonical resolution through the range, made on the caller's thread.
///
/// # Errors
/// `Memory` if allocation fails.
pub fn images_alone(alloc: Global, resolved: Module, range: Range) -> Result<Images, Memory>
    requires rows { range.s ≤ MAX_S }
    requires degrees { range.t ≤ MAX_T }
    ensures resolved { IfOk result (λ images. images.resolved ≡ resolved) }
    ensures range { IfOk result (λ images. images.range ≡ range) }
    ensures canonical { IfOk result (λ images. AreOfCanonical (over resolved) range.s range.t images.rows) }
{
    canonical_table_exists();
    // No square of the range is past stem t.
    let extent = Extent {
        last: range.s,
        n: range.t,
    };
    let (resolved, basis, rows) = parts_through(alloc, resolved, extent, range.t)?;
    Ok(Images::of(resolved, basis, range, rows))
}

/// The images of the generators of the module's canonical resolution through row `s`, in stems 0 to `n` above the
/// bottom, made on the caller's thread. No square of a greater stem is made. Row i goes through degree n + i above the
/// bottom, and its images there end before the generators of that degree, at which they are 0.
///
/// # Errors
/// `Memory` if allocation fails.
pub fn images_in_stems(alloc: Global, resolved: Module, s: u16, n: u16) -> Result<Images, Memory>
    requires rows { s ≤ MAX_S }
    requires degrees { n + s ≤ MAX_T }
    ensures resolved { IfOk result (λ images. images.resolved ≡ resolved) }
    ensures row { IfOk result (λ images. images.range.s ≡ s) }
    ensures degree { IfOk result (λ images. images.range.t ≡ n + s) }
    ensures stems { IfOk result (λ images. AreOfStems (over resolved) s n images.rows) }
{
    rows_in_stems_are_whole();
    let range = Range { s, t: n + s };
    let (resolved, basis, rows) = parts_through(alloc, resolved, Extent { last: s, n }, range.t)?;
    Ok(Images::of(resolved, basis, range, rows))
}

/// What is made of a resolution: rows 0 to `last`, in stems 0 to `n` above the bottom.
#[derive(Clone, Copy)]
pub struct Extent {
    pub last: u16,
    pub n: u16,
}

/// The module and the Milnor bases, to be shared, and the rows of this extent in the degrees through `t` above the bottom.
///
/// # Errors
/// `Memory` if allocation fails.
fn parts_through(
    alloc: Global,
    resolved: Module,
    extent: Extent,
    t: u16,
) -> Result<(Arc<Module>, Arc<Basis>, Vec<Row>), Memory>
    requires degrees { t ≤ MAX_T }
    requires stems { t ≤ extent.n + extent.last }
    ensures resolved { IfOk result (λ parts. arc_value parts.0 ≡ resolved) }
    ensures basis { IfOk result (λ parts. t ≤ arc_value parts.1) }
    ensures count { IfOk result (λ parts. length parts.2.items ≡ extent.last + 1) }
    ensures through { IfOk result (λ parts. AreMadeThrough (over resolved) extent 0 (suc t) parts.2.items) }
{
    let basis = Basis::new(alloc, t)?;
    let rows = rows_through(alloc, &resolved, &basis, extent, t)?;
    Ok((Arc::new(alloc, resolved)?, Arc::new(alloc, basis)?, rows))
}

/// The squares of this extent in the degrees through `t` above the bottom, made degree by degree.
///
/// # Errors
/// `Memory` if allocation fails.
fn rows_through(
    alloc: Global,
    module: &Module,
    basis: &Basis,
    extent: Extent,
    t: u16,
) -> Result<Vec<Row>, Memory>
    requires degrees { t ≤ MAX_T }
    requires stems { t ≤ extent.n + extent.last }
    requires basis { t ≤ basis.now }
    ensures count { IfOk result (λ rows. length rows.items ≡ extent.last + 1) }
    ensures through { IfOk result (λ rows. AreMadeThrough (over module.now) extent 0 (suc t) rows.items) }
{
    let mut rows = empty_rows(alloc, usize::from(extent.last) + 1)?;
    for k in 0..t + 1 {
        let column = Column {
            module,
            basis,
            extent,
            k,
        };
        column.add(alloc, rows.as_mut_slice())?;
    }
    Ok(rows)
}

/// The rows of no square, `count` of them.
///
/// # Errors
/// `Memory` if allocation fails.
pub fn empty_rows(alloc: Global, count: usize) -> Result<Vec<Row>, Memory>
    ensures { IfOk result (λ rows. rows.items ≡ replicate count no_bare_row) }
{
    let mut rows = Vec::with_capacity(alloc, count)?;
    for _ in 0..count {
        rows.push(Row::new(alloc))?;
    }
    Ok(rows)
}

/// The squares of an extent that are `k` degrees above the bottom. The Milnor bases reach so far.
#[derive(Drop)]
pub struct Column<'a> {
    pub module: &'a Module,
    pub basis: &'a Basis,
    pub extent: Extent,
    pub k: u16,
}

impl Column<'_> {
    /// What the square in row 0 has to cover, the whole module.
    ///
    /// # Errors
    /// `Memory` if allocation fails.
    pub fn whole(&self, alloc: Global) -> Result<Kernel, Memory>
        ensures { IfOk result (IsToCover (over self.now.module.now) self.now.extent 0 self.now.k) }
    {
        let t = degree(self.module, self.k);
        Kernel::whole(alloc, self.module.dim_in(t))
    }

    /// The kernel of row `s`, which has all of its squares through that degree. It is what the square above has to cover. The
    /// row goes to the generators `under` it, and row 0 to the module.
    ///
    /// # Errors
    /// `Memory` if allocation fails.
    pub fn kernel(&self, alloc: Global, s: usize, row: &Row, under: &Gens) -> Result<Kernel, Memory>
        requires row { s ≤ self.now.extent.last }
        requires basis { self.now.k ≤ self.now.basis.now }
        requires here { IsMadeThrough (over self.now.module.now) self.now.extent s (suc self.now.k) row.now }
        requires under { AreUnder (over self.now.module.now) self.now.extent s self.now.k under.now }
        ensures { IfOk result (IsToCover (over self.now.module.now) self.now.extent (suc s) self.now.k) }
    {
        canonical_table_exists();
        modules_are_graded_modules();
        images_in_stems_fit();
        let t = degree(self.module, self.k);
        if s == 0 {
            return kernel_over(alloc, self.basis, self.module, row, t);
        }
        kernel_over_free(alloc, self.basis, under, row, t)
    }

    /// What is made at the square in row `s`, the next one of its row. `under` are the generators of the row below, and `below` is
    /// what the square has to cover.
    ///
    /// # Errors
    /// `Memory` if allocation fails.
    pub fn made(
        &self,
        alloc: Global,
        s: usize,
        row: &Row,
        under: &Gens,
        below: &Kernel,
    ) -> Result<Made, Memory>
        requires row { s ≤ self.now.extent.last }
        requires basis { self.now.k ≤ self.now.basis.now }
        requires within { self.now.k ≤ self.now.extent.n + s }
        requires here { IsMadeThrough (over self.now.module.now) self.now.extent s self.now.k row.now }
        requires under { AreUnder (over self.now.module.now) self.now.extent s self.now.k under.now }
        requires below { IsToCover (over self.now.module.now) self.now.extent s self.now.k below.now }
        ensures square { IfOk result (λ made. IsSquareInStems (over self.now.module.now) self.now.extent s self.now.k
            (record { images = made.images.items; kernel = made.kernel.rows })) }
        ensures kernel { IfOk result
            (λ made. IsToCover (over self.now.module.now) self.now.extent (suc s) self.now.k made.kernel) }
    {
        canonical_table_exists();
        modules_are_graded_modules();
        images_in_stems_fit();
        rows_in_stems_are_whole();
        rows_in_stems_are_covered();
        squares_in_stems_are_steps();
        kernels_in_stems_are_to_cover();
        let t = degree(self.module, self.k);
        if s == 0 {
            return step_over(alloc, self.basis, self.module, below, row, t);
        }
        step_over_free(alloc, self.basis, under, below, row, t)
    }

    /// Makes these squares behind those of lower degrees. Rows that end before that degree are left as they are.
    ///
    /// # Errors
    /// `Memory` if allocation fails; the rows are then of no use.
    fn add(&self, alloc: Global, rows: &mut [Row]) -> Result<(), Memory>
        requires basis { self.now.k ≤ self.now.basis.now }
        requires rows { length rows.old ≡ self.now.extent.last + 1 }
        requires within { self.now.k ≤ self.now.extent.n + self.now.extent.last }
        requires before { AreMadeThrough (over self.now.module.now) self.now.extent 0 self.now.k rows.old }
        ensures count { OnOk result (length rows.new ≡ length rows.old) }
        ensures through { OnOk result
            (AreMadeThrough (over self.now.module.now) self.now.extent 0 (suc self.now.k) rows.new) }
    {
        canonical_table_exists();
        rows_in_stems_are_whole();
        let t = degree(self.module, self.k);
        let first = usize::from(self.k.saturating_sub(self.extent.n));
        let mut below = self.start(alloc, rows, first)?;
        for s in first..rows.len() {
            let made = self.made_over(alloc, rows, s, &below)?;
            rows[s].push(t, made.images)?;
            below = made.kernel;
        }
        Ok(())
    }

    /// What is made at the square in row `s`, the next one of its row. `below` is what it has to cover.
    ///
    /// # Errors
    /// `Memory` if allocation fails.
    fn made_over(
        &self,
        alloc: Global,
        rows: &[Row],
        s: usize,
        below: &Kernel,
    ) -> Result<Made, Memory>
        requires row { s < length rows.now }
        requires basis { self.now.k ≤ self.now.basis.now }
        requires rows { length rows.now ≡ self.now.extent.last + 1 }
        requires within { self.now.k ≤ self.now.extent.n + s }
        requires through { AreMadeThrough (over self.now.module.now) self.now.extent s self.now.k rows.now }
        requires below { IsToCover (over self.now.module.now) self.now.extent s self.now.k below.now }
        ensures square { IfOk result (λ made. IsSquareInStems (over self.now.module.now) self.now.extent s self.now.k
            (record { images = made.images.items; kernel = made.kernel.rows })) }
        ensures kernel { IfOk result
            (λ made. IsToCover (over self.now.module.now) self.now.extent (suc s) self.now.k made.kernel) }
    {
        let none = Gens::new(alloc);
        self.made(alloc, s, &rows[s], under(rows, s, &none), below)
    }

    /// What the first of these squares has to cover, which is in row `s`: the whole module in row 0, and else the kernel of
    /// the row below, which has all of its squares through that degree.
    ///
    /// # Errors
    /// `Memory` if allocation fails.
    fn start(&self, alloc: Global, rows: &[Row], s: usize) -> Result<Kernel, Memory>
        requires row { s < length rows.now }
        requires basis { self.now.k ≤ self.now.basis.now }
        requires rows { length rows.now ≡ self.now.extent.last + 1 }
        requires through { AreMadeThrough (over self.now.module.now) self.now.extent s self.now.k rows.now }
        ensures { IfOk result (IsToCover (over self.now.module.now) self.now.extent s self.now.k) }
    {
        canonical_table_exists();
        if s == 0 {
            return self.whole(alloc);
        }
        let none = Gens::new(alloc);
        self.kernel(alloc, s - 1, &rows[s - 1], under(rows, s - 1, &none))
    }
}

/// The generators under row `s`, those of the row below; for row 0 it is `none`.
fn under<'a>(rows: &'a [Row], s: usize, none: &'a Gens) -> &'a Gens
    requires { s < length rows.now }
    ensures { (i : ℕ) → suc i ≡ s → result.now ≡ (bare_row_in rows.now i).degrees }
{
    if s == 0 {
        return none;
    }
    rows[s - 1].gens()
}

/// The rows of a rectangle, and those in stems, are those of squares whose images are vectors of their targets.
fn rows_of_ranges_are_bare()
    ensures { RowsOfRangesAreBare }
{
    canonical_table_exists();
    modules_are_graded_modules();
    linear_maps();
    rows_in_stems_are_whole();
    squares_in_stems_fit();
}

/// The internal degree that is `k` above the bottom.
pub fn degree(module: &Module, k: u16) -> i32
    ensures { result ≡ bottom_of module.now +ℤ pos k }
{
    module.bottom() + i32::from(k)
}
