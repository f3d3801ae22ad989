//! The squares of a resolution, row by row, and what is read off them.
ghost use Rattle.std.specs.Prelude.{◌≡◌, ℕ, suc, ◌≤◌, ◌<◌, ◌+◌, ◌^◌, ◌+ℤ◌, ◌≤ℤ◌, pos, [], map, take, length, replicate, slice_get, Some, option_map, SomeIff, IsSome, IfOk, IfErr, OnOk, OnErr, IsOk};
ghost use Rattle.std.specs.Arc.{arc_value};
ghost use Rattle.bidegree.specs.Above.{above_of};
ghost use Rattle.bidegree.specs.declared.range.TheConstants.{MAX_S, MAX_T};
ghost use Rattle.finite_module.specs.Module.{bottom};
ghost use Rattle.f2_vec.specs.Spans.{HaveWidth};
ghost use Rattle.resolution_laws.specs.Resolution.{row_of, below_of, degrees_from, images_of, target_over};
ghost use Rattle.square.specs.Below.{graded_of, reaches_of};
ghost use Rattle.square.specs.Squares.{Placed, IsQuasi, target_width, square_matrix, over, bottom_of};
ghost use Rattle.square.specs.Tables.{row_in, square_at, plain_rows, with_square, contents, under_row, content_at, next_target_width, next_width, next_widths, FitWords, IsNext, IsNextAt, IsContinued, IsQuasiAt, LacksQuasi, with_quasi, IsMatrixAt, IsMatrixBehind, IsTable, HaveRoom};

use crate::bases::Bases;
use crate::below::Below;
use crate::inputs::Inputs;
use crate::row::Row;
use crate::square::Square;
use bidegree::{MAX_S, MAX_T};
use f2_matrix::{Matrix, Reduced};
use f2_vec::BitVec;
use finite_module::Module;
use free_hom::Hom;
use free_module::Gens;
use memory::Memory;
use milnor_basis::Basis;
use start::Start;
use std::alloc::Global;
use std::marker::Model;
use std::sync::Arc;

/// The squares of a resolution of one module that are there: row s has the squares (s, bottom), (s, bottom + 1), .., and no
/// row is longer than the one below it, s - 1. Those that were read from a save file stand before all others. Contracts do
/// not see that a table shares its module and its Milnor bases with the inputs that it lends.
#[derive(Drop)]
pub struct Table {
    module: Arc<Module>,
    bases: Arc<Bases>,
    start: Start,
    rows: Vec<Row>,
    spare: usize,
}

impl Model for Table {
    ghost use Rattle.std.specs.Prelude.{◌≡◌, map};
    ghost use Rattle.std.specs.Arc.{arc_value};
    ghost use Rattle.square.specs.Tables.{Staircase};

    ghost Value = { Staircase };

    ghost use Rattle.bidegree.specs.declared.range.TheConstants.{MAX_T};
    ghost use Rattle.square.specs.Tables.{IsTable, HaveRoom};

    ghost view = { λ t. record {
      resolved = arc_value t.module;
      start = t.start;
      rows = map (λ r. r.squares) t.rows.items;
      spare = t.spare;
    } };

    ghost invariant = { λ t. IsTable (record {
      resolved = arc_value t.module;
      start = t.start;
      rows = map (λ r. r.squares) t.rows.items;
      spare = t.spare;
    })
        × HaveRoom t.rows.items t.spare };
}

impl Table {
    /// The table of no square of this module.
    ///
    /// # Errors
    /// `Memory` if allocation fails.
    pub fn new(alloc: Global, module: Module) -> Result<Table, Memory>
        ensures { IfOk result (λ table. table ≡ record {
          resolved = «module»;
          start = [];
          rows = replicate (MAX_S + 1) [];
          spare = 0;
        }) }
    {
        let bases = Arc::new(alloc, Bases::new(alloc)?)?;
        Table::over(alloc, module, bases)
    }

    /// The table of no square of another module, which shares the Milnor bases of this one and the products that are kept
    /// with them.
    ///
    /// # Errors
    /// `Memory` if allocation fails, or if there are too many owners to count.
    pub fn beside(&self, alloc: Global, module: Module) -> Result<Table, Memory>
        ensures { IfOk result (λ table. table ≡ record {
          resolved = «module»;
          start = [];
          rows = replicate (MAX_S + 1) [];
          spare = 0;
        }) }
    {
        let Ok(bases) = Arc::try_clone(&self.bases) else {
            return Err(Memory);
        };
        Table::over(alloc, module, bases)
    }

    /// The table of no square of this module, with these bases.
    fn over(alloc: Global, module: Module, bases: Arc<Bases>) -> Result<Table, Memory>
        ensures { IfOk result (λ table. table ≡ record {
          resolved = «module»;
          start = [];
          rows = replicate (MAX_S + 1) [];
          spare = 0;
        }) }
    {
        let module = Arc::new(alloc, module)?;
        let rows = empty_rows(alloc)?;
        Ok(Table {
            module,
            bases,
            start: Start::empty(),
            rows,
            spare: 0,
        })
    }

    /// The module that is resolved.
    pub fn module(&self) -> &Module
        ensures { result.now ≡ self.now.resolved }
    {
        &self.module
    }

    /// Milnor bases that reach degree `above`.
    ///
    /// # Errors
    /// `Memory` if allocation fails.
    pub fn basis(&self, alloc: Global, above: u16) -> Result<&Basis, Memory>
        requires { above ≤ MAX_T }
        ensures reaches { IfOk result (λ basis. above ≤ basis.now) }
        ensures within { IfOk result (λ basis. basis.now ≤ MAX_T) }
    {
        let basis = self.bases.through(alloc, above)?;
        Ok(basis)
    }

    /// How many squares row `s` has: they are those of the degrees from the bottom on. It is 0 above row `MAX_S`.
    pub fn front(&self, s: u16) -> usize
        ensures front { result ≡ length (row_in self.now.rows s) }
        ensures is_table { IsTable self.now }
    {
        match self.rows.get(usize::from(s)) {
            Some(row) => row.len(),
            None => 0,
        }
    }

    /// The square in row `s` and of degree `t`, none where it is not there.
    pub fn at(&self, s: u16, t: i32) -> Option<&Arc<Square>>
        ensures square { option_map (λ a. arc_value a.now) result ≡ square_at self.now s t }
        ensures is_table { IsTable self.now }
    {
        let k = above_of(self.module.bottom(), t)?;
        self.rows.get(usize::from(s))?.get(k)
    }

    /// The square in row `s`, `above` degrees above the bottom, none where it is not there.
    pub fn square(&self, s: u16, above: u16) -> Option<&Arc<Square>>
        ensures square { option_map (λ a. arc_value a.now) result ≡ slice_get (row_in self.now.rows s) above }
        ensures is_table { IsTable self.now }
    {
        self.rows.get(usize::from(s))?.get(usize::from(above))
    }

    /// Reserves room for `n` more squares, so that the next `n` pushes cannot fail. Room that is there stays.
    ///
    /// # Errors
    /// `Memory` if allocation fails; the table is then as before.
    pub fn reserve(&mut self, n: usize) -> Result<(), Memory>
        ensures ok { OnOk result (n ≤ self.new.spare) }
        ensures spare { self.old.spare ≤ self.new.spare }
        ensures same { self.new ≡ record self.old { spare = self.new.spare } }
        ensures err { OnErr result (self.new ≡ self.old) }
    {
        reserve_rows(&mut self.rows, n)?;
        self.spare = self.spare.max(n);
        Ok(())
    }

    /// Puts a square at the end of its row.
    ///
    /// # Errors
    /// `Memory`, with the square, if allocation fails; the table is then as before.
    pub fn push(&mut self, square: Arc<Square>) -> Result<(), (Memory, Arc<Square>)>
        requires resolved { (arc_value square).resolved ≡ self.old.resolved }
        requires next { IsNext self.old.rows (arc_value square).s (arc_value square).above }
        requires continued { IsContinued self.old (arc_value square) }
        ensures rows { OnOk result (self.new.rows ≡ with_square self.old.rows (arc_value square).s (arc_value square)) }
        ensures start { OnOk result (self.new.start ≡ (arc_value square).start) }
        ensures resolved { self.new.resolved ≡ self.old.resolved }
        ensures spare { self.old.spare ≤ self.new.spare + 1 }
        ensures succeeds { 0 < self.old.spare → IsOk result }
        ensures err { OnErr result (self.new ≡ self.old) }
        ensures returned { IfErr result (λ e. e.1 ≡ square) }
    {
        let s = usize::from(square.s());
        let start = square.start().again();
        match self.rows[s].push(square) {
            Ok(()) => {
                self.start = start;
                self.spare = self.spare.saturating_sub(1);
                Ok(())
            }
            Err(square) => Err((Memory, square)),
        }
    }

    /// What the square in row `s` and of degree `t` is made from. It is not there yet, and those that it stands on are.
    ///
    /// # Errors
    /// `Memory` if allocation fails.
    pub fn inputs(&self, alloc: Global, s: u16, t: i32) -> Result<Inputs, Memory>
        requires { IsNextAt self.now s t }
        ensures resolved { IfOk result (λ i. i.resolved ≡ self.now.resolved) }
        ensures start { IfOk result (λ i. i.start ≡ self.now.start) }
        ensures s { IfOk result (λ i. i.s ≡ s) }
        ensures t { IfOk result (λ i. t ≡ bottom_of self.now.resolved +ℤ pos i.above) }
        ensures squares { IfOk result (λ i. i.squares ≡ take i.above (row_of (plain_rows self.now.rows) s)) }
        ensures below { IfOk result (λ i. i.below ≡ below_of (plain_rows self.now.rows) s i.above) }
    {
        let above = self.above(t);
        let row = self.row(s).share(alloc, usize::from(above))?;
        let below = self.share_below(alloc, s, above)?;
        let Ok(module) = Arc::try_clone(&self.module) else {
            return Err(Memory);
        };
        let Ok(basis) = Arc::try_clone(self.bases.through(alloc, above)?) else {
            return Err(Memory);
        };
        Ok(Inputs {
            module,
            basis,
            start: self.start.again(),
            s,
            above,
            t,
            row,
            below,
        })
    }

    /// The generators of the first `n` squares of row `s`.
    ///
    /// # Errors
    /// `Memory` if allocation fails.
    pub fn generators(&self, alloc: Global, s: u16, n: u16) -> Result<Gens, Memory>
        requires { n ≤ length (row_in self.now.rows s) }
        ensures { IfOk result
            (λ gens. gens ≡ degrees_from (bottom_of self.now.resolved) (take n (row_of (plain_rows self.now.rows) s))) }
    {
        if usize::from(s) >= self.rows.len() {
            return Ok(Gens::new(alloc));
        }
        self.row(s).generators(alloc, self.module().bottom(), n)
    }

    /// A copy of the images of those generators.
    ///
    /// # Errors
    /// `Memory` if allocation fails.
    pub fn images(&self, alloc: Global, s: u16, n: u16) -> Result<Vec<BitVec>, Memory>
        requires { n ≤ length (row_in self.now.rows s) }
        ensures { IfOk result (λ images. images.items ≡ images_of (take n (row_of (plain_rows self.now.rows) s))) }
    {
        if usize::from(s) >= self.rows.len() {
            return Ok(Vec::new(alloc));
        }
        self.row(s).images(alloc, n)
    }

    /// The target of d_s, with the generators of the row below through `above` degrees above the bottom.
    ///
    /// # Errors
    /// `Memory` if allocation fails.
    pub fn below(&self, alloc: Global, s: u16, above: u16) -> Result<Below<'_>, Memory>
        requires degree { above ≤ MAX_T }
        requires there { (i : ℕ) → suc i ≡ s → above < length (row_in self.now.rows i) }
        ensures graded { IfOk result (λ below. graded_of below
            ≡ target_over (over self.now.resolved) (below_of (plain_rows self.now.rows) s above)) }
        ensures reaches { IfOk result (λ below. (max k : ℕ) → k ≤ max →
            reaches_of below max (bottom_of self.now.resolved +ℤ pos k)) }
    {
        if s == 0 {
            return Ok(Below::Module(self.module()));
        }
        let gens = self.generators(alloc, s - 1, above + 1)?;
        Ok(Below::Row(gens))
    }

    /// The dimensions of the target of d_s and of F_s in degree `t`, if the next square of row `s` gets `count` generators. `None` if
    /// one of them does not fit 64 bits.
    pub fn next_widths(&self, s: u16, t: i32, count: usize) -> Option<(u64, u64)>
        requires { IsNextAt self.now s t }
        ensures { (k : ℕ) → t ≡ bottom_of self.now.resolved +ℤ pos k →
            SomeIff result (FitWords (next_widths self.now s k count)) (next_widths self.now s k count) }
    {
        let above = self.above(t);
        let target_width = self.target_width(s, above)?;
        let width = self.width_with(s, above, count)?;
        Some((target_width, width))
    }

    /// The reduction of the matrix of d_s in degree `t`, with the generators of the square there: a copy of the one that the
    /// square kept, and else it is made again.
    ///
    /// # Errors
    /// `Memory` if allocation fails.
    pub fn quasi(&self, alloc: Global, s: u16, t: i32) -> Result<Reduced, Memory>
        requires { IsSome (square_at self.now s t) }
        ensures { IfOk result (λ reduced. IsQuasiAt self.now s t reduced) }
    {
        let square = self.there(s, t);
        match square.kept_quasi() {
            Some(kept) => kept.try_copy(alloc),
            None => self.quasi_again(alloc, s, square.above()),
        }
    }

    /// Gives the square in row `s` and of degree `t`, which has kept no reduction, that of the matrix of d_s in this degree, with
    /// its generators.
    ///
    /// # Errors
    /// `Memory`, with the reduction, if allocation fails; the table is then as before.
    pub fn add_quasi(
        &mut self,
        alloc: Global,
        s: u16,
        t: i32,
        quasi: Reduced,
    ) -> Result<(), (Memory, Reduced)>
        requires lacks { LacksQuasi self.old s t quasi }
        requires quasi { IsQuasiAt self.old s t quasi }
        ensures rows { OnOk result ((k : ℕ) → t ≡ bottom_of self.old.resolved +ℤ pos k →
            self.new.rows ≡ with_quasi self.old.rows s k quasi) }
        ensures contents { plain_rows self.new.rows ≡ plain_rows self.old.rows }
        ensures same { self.new ≡ record self.old { rows = self.new.rows } }
        ensures err { OnErr result (self.new ≡ self.old) }
        ensures returned { IfErr result (λ e. e.1 ≡ quasi) }
    {
        let square = self.reduced_square(alloc, s, t, quasi)?;
        let above = usize::from(square.above());
        self.rows[usize::from(s)].replace(above, square);
        Ok(())
    }

    /// The square in row `s` and of degree `t` with this reduction, to be shared.
    ///
    /// # Errors
    /// `Memory`, with the reduction, if allocation fails.
    fn reduced_square(
        &self,
        alloc: Global,
        s: u16,
        t: i32,
        quasi: Reduced,
    ) -> Result<Arc<Square>, (Memory, Reduced)>
        requires lacks { LacksQuasi self.now s t quasi }
        requires quasi { IsQuasiAt self.now s t quasi }
        ensures square { IfOk result (λ a. (q : Placed) → square_at self.now s t ≡ Some q →
            arc_value a ≡ record q { quasi = Some quasi }) }
        ensures returned { IfErr result (λ e. e.1 ≡ quasi) }
    {
        let square = self.there(s, t).with_quasi(alloc, self.module(), quasi)?;
        match Arc::new(alloc, square) {
            Ok(square) => Ok(square),
            Err(failed) => Err((Memory, failed.value.into_quasi())),
        }
    }

    /// The matrix of d_s in degree `t`, with the generators of the square there: the rows are the images of the elements of F_s
    /// in this degree.
    ///
    /// # Errors
    /// `Memory` if allocation fails.
    pub fn matrix(&self, alloc: Global, s: u16, t: i32) -> Result<Matrix, Memory>
        requires { IsSome (square_at self.now s t) }
        ensures { IfOk result (λ matrix. IsMatrixAt self.now s t matrix) }
    {
        let above = self.there(s, t).above();
        self.matrix_again(alloc, s, above)
    }

    /// The matrix of d_s in degree `t`, where the next square of row `s` is, if that gets generators of these images.
    ///
    /// # Errors
    /// `Memory` if allocation fails.
    pub fn next_matrix(
        &self,
        alloc: Global,
        s: u16,
        t: i32,
        images: &[BitVec],
    ) -> Result<Matrix, Memory>
        requires place { IsNextAt self.now s t }
        requires widths { (k : ℕ) → t ≡ bottom_of self.now.resolved +ℤ pos k →
            HaveWidth (next_target_width self.now s k) images.now }
        ensures { IfOk result (λ matrix. IsMatrixBehind self.now s t images.now matrix) }
    {
        self.inputs(alloc, s, t)?.matrix_with(alloc, images)
    }

    /// The square in row `s` and of degree `t`, which is there.
    fn there(&self, s: u16, t: i32) -> &Arc<Square>
        requires { IsSome (square_at self.now s t) }
        ensures square { square_at self.now s t ≡ Some (arc_value result.now) }
        ensures is_table { IsTable self.now }
    {
        match self.at(s, t) {
            Some(square) => square,
            None => unreachable!(),
        }
    }

    /// The reduction of the matrix of d_s, made again from the images of the generators of the rows.
    fn quasi_again(&self, alloc: Global, s: u16, above: u16) -> Result<Reduced, Memory>
        requires row { s ≤ MAX_S }
        requires degree { above ≤ MAX_T }
        requires there { above < length (row_in self.now.rows s) }
        ensures { IfOk result (λ reduced. IsQuasi (over self.now.resolved) (below_of (plain_rows self.now.rows) s above)
            (take above (row_of (plain_rows self.now.rows) s)) (content_at self.now.rows s above) reduced) }
    {
        let matrix = self.matrix_again(alloc, s, above)?;
        Reduced::of(alloc, &matrix)
    }

    /// The matrix of d_s, made from the images of the generators of the rows.
    fn matrix_again(&self, alloc: Global, s: u16, above: u16) -> Result<Matrix, Memory>
        requires row { s ≤ MAX_S }
        requires degree { above ≤ MAX_T }
        requires there { above < length (row_in self.now.rows s) }
        ensures cols { IfOk result (λ matrix. matrix.cols
            ≡ target_width (over self.now.resolved) (below_of (plain_rows self.now.rows) s above)
            (take above (row_of (plain_rows self.now.rows) s))) }
        ensures rows { IfOk result (λ matrix. matrix.rows
            ≡ square_matrix (over self.now.resolved) (below_of (plain_rows self.now.rows) s above)
            (take above (row_of (plain_rows self.now.rows) s)) (content_at self.now.rows s above)) }
    {
        let t = self.module.bottom() + i32::from(above);
        let basis = self.basis(alloc, above)?;
        let target = self.below(alloc, s, above)?;
        let gens = self.generators(alloc, s, above + 1)?;
        let images = self.images(alloc, s, above + 1)?;
        Hom::new(basis, &gens, &target, images.as_slice()).matrix(alloc, t)
    }

    /// The squares that were read.
    pub(crate) fn start(&self) -> &Start
        ensures start { result.now ≡ self.now.start }
        ensures is_table { IsTable self.now }
    {
        &self.start
    }

    /// Row `s`.
    pub(crate) fn row(&self, s: u16) -> &Row
        requires { s ≤ MAX_S }
        ensures row { result.now.squares ≡ row_in self.now.rows s }
        ensures is_table { IsTable self.now }
    {
        &self.rows[usize::from(s)]
    }

    /// How many degrees `t` is above the bottom.
    pub(crate) fn above(&self, t: i32) -> u16
        requires low { bottom_of self.now.resolved ≤ℤ t }
        requires high { t ≤ℤ (bottom_of self.now.resolved +ℤ pos MAX_T) }
        ensures { t ≡ bottom_of self.now.resolved +ℤ pos result }
    {
        match above_of(self.module.bottom(), t) {
            Some(above) => above as u16,
            None => unreachable!(),
        }
    }

    /// The dimension of what d_s goes to, `above` degrees above the bottom, where the next square of row `s` is. None where it
    /// does not fit 64 bits.
    fn target_width(&self, s: u16, above: u16) -> Option<u64>
        requires s { s ≤ MAX_S }
        requires above { above ≤ MAX_T }
        requires next { IsNext self.now.rows s above }
        ensures { SomeIff result (next_target_width self.now s above < 2 ^ 64) (next_target_width self.now s above) }
    {
        if s == 0 {
            let t = self.module().bottom() + i32::from(above);
            return Some(self.module().dim_in(t) as u64);
        }
        self.row(s - 1).width(self.bases.counts(), above + 1, above)
    }

    /// The dimension of F_s in the same degree, where the next square of row `s` has `count` new generators. None where it does
    /// not fit 64 bits.
    fn width_with(&self, s: u16, above: u16, count: usize) -> Option<u64>
        requires s { s ≤ MAX_S }
        requires above { above ≤ MAX_T }
        requires next { IsNext self.now.rows s above }
        ensures { SomeIff result (next_width self.now s above count < 2 ^ 64) (next_width self.now s above count) }
    {
        let width = self.row(s).width(self.bases.counts(), above, above)?;
        width.checked_add(count as u64)
    }

    /// What a square in row `s`, `above` degrees above the bottom, stands on in the row below, and no square for row 0.
    fn share_below(&self, alloc: Global, s: u16, above: u16) -> Result<Row, Memory>
        requires s { s ≤ MAX_S }
        requires next { IsNext self.now.rows s above }
        ensures below { IfOk result
            (λ row. under_row s (contents row.squares) ≡ below_of (plain_rows self.now.rows) s above) }
        ensures squares { IfOk result (λ row. (j : ℕ) → suc j ≡ s →
            row.squares ≡ take (above + 1) (row_in self.now.rows j)) }
    {
        if s == 0 {
            return Ok(Row::new(alloc));
        }
        self.row(s - 1).share(alloc, usize::from(above) + 1)
    }
}

/// How many degrees `t` is above `bottom`, none where it is below.
pub(crate) fn above_of(bottom: i32, t: i32) -> Option<usize>
    ensures { result ≡ above_of bottom t }
{
    let k = bidegree::above_of(bottom, t)?;
    Some(k as usize)
}

/// As many rows of no square as a table has.
fn empty_rows(alloc: Global) -> Result<Vec<Row>, Memory>
    ensures { IfOk result (λ rows. map (λ r. r.squares) rows.items ≡ replicate (MAX_S + 1) []) }
{
    let mut rows = Vec::new(alloc);
    for _ in 0..=MAX_S {
        rows.push(Row::new(alloc))?;
    }
    Ok(rows)
}

/// Makes room for `n` squares more in each row.
fn reserve_rows(rows: &mut Vec<Row>, n: usize) -> Result<(), Memory>
    ensures same { map (λ r. r.squares) rows.new.items ≡ map (λ r. r.squares) rows.old.items }
    ensures kept { (spare : ℕ) → HaveRoom rows.old.items spare → HaveRoom rows.new.items spare }
    ensures ok { OnOk result (HaveRoom rows.new.items n) }
{
    for s in 0..rows.len() {
        rows[s].reserve(n)?;
    }
    Ok(())
}
