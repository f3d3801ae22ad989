//! What a square is made from.
ghost use Rattle.std.specs.Prelude.{◌≡◌, ◌+ℤ◌, pos, [], option_map, ℕ, ◌≤◌, IfOk, IfSome};
ghost use Rattle.f2_vec.specs.Spans.{HaveWidth};
ghost use Rattle.std.specs.Arc.{arc_value};
ghost use Rattle.bidegree.specs.declared.range.TheConstants.{MAX_T};
ghost use Rattle.finite_module.specs.Module.{bottom};
ghost use Rattle.resolution_laws.specs.Resolution.{degrees_from, images_of, square_in, target_over};
ghost use Rattle.square.specs.Below.{graded_of, reaches_of};
ghost use Rattle.square.specs.Squares.{content_of, target_width, square_matrix, over, bottom_of};
ghost use Rattle.square.specs.Tables.{IsFooting, IsPlacedAt, footing_at};

use crate::below::Below;
use crate::row::Row;
use crate::square::Square;
use crate::table::above_of;
use f2_matrix::{Matrix, Rows};
use f2_vec::BitVec;
use finite_module::Module;
use free_hom::Hom;
use free_module::Gens;
use memory::Memory;
use milnor_basis::Basis;
use start::Start;
use std::alloc::Global;
use std::marker::Model;
use std::sync::Arc;

/// What a square is made from: its module, its place, and the squares that it stands on, which are those of its row before
/// it and those of the row below through its degree.
#[derive(Drop)]
pub struct Inputs {
    pub(crate) module: Arc<Module>,
    pub(crate) basis: Arc<Basis>,
    pub(crate) start: Start,
    pub(crate) s: u16,
    pub(crate) above: u16,
    pub(crate) t: i32,
    pub(crate) row: Row,
    pub(crate) below: Row,
}

impl Model for Inputs {
    ghost use Rattle.std.specs.Prelude.{◌≡◌, ◌≤◌, ◌+ℤ◌, ℕ, suc, pos};
    ghost use Rattle.std.specs.Arc.{arc_value};
    ghost use Rattle.finite_module.specs.Module.{bottom};
    ghost use Rattle.square.specs.Tables.{Footing};

    ghost Value = { Footing };

    ghost use Rattle.bidegree.specs.declared.range.TheConstants.{MAX_T};
    ghost use Rattle.resolution_laws.specs.Resolution.{degrees_from, images_of, square_in, target_over};
    ghost use Rattle.square.specs.Below.{graded_of, reaches_of};
    ghost use Rattle.square.specs.Tables.{IsFooting, AreOfRow, contents, under_row};

    ghost view = { λ i. record {
      resolved = arc_value i.module;
      start = i.start;
      s = i.s;
      above = i.above;
      squares = contents i.row.squares;
      below = under_row i.s (contents i.below.squares);
    } };

    ghost invariant = { λ i. IsFooting (record {
      resolved = arc_value i.module;
      start = i.start;
      s = i.s;
      above = i.above;
      squares = contents i.row.squares;
      below = under_row i.s (contents i.below.squares);
    })
        × (i.t ≡ bottom (arc_value i.module).plain.generators +ℤ pos i.above)
        × (i.above ≤ arc_value i.basis) × (arc_value i.basis ≤ MAX_T)
        × AreOfRow (arc_value i.module) i.s i.row.squares
        × ((j : ℕ) → suc j ≡ i.s → AreOfRow (arc_value i.module) j i.below.squares) };
}

impl Inputs {
    /// The square's row.
    pub fn s(&self) -> u16
        ensures { result ≡ self.now.s }
    {
        self.s
    }

    /// The square's internal degree.
    pub fn t(&self) -> i32
        ensures t { result ≡ bottom_of self.now.resolved +ℤ pos self.now.above }
        ensures is_footing { IsFooting self.now }
    {
        self.t
    }

    /// The module that is resolved.
    pub fn module(&self) -> &Module
        ensures { result.now ≡ self.now.resolved }
    {
        &self.module
    }

    /// The square in row `s` and of degree `t`, none where that is not among those that the square stands on.
    pub fn at(&self, s: u16, t: i32) -> Option<&Arc<Square>>
        ensures content { option_map (λ a. content_of (arc_value a.now)) result ≡ footing_at self.now s t }
        ensures placed { IfSome result (λ a. IsPlacedAt self.now.resolved s t (arc_value a.now)) }
    {
        let k = above_of(self.module.bottom(), t)?;
        match self.s.checked_sub(s) {
            Some(0) => self.row.get(k),
            Some(1) => self.below.get(k),
            _ => None,
        }
    }

    /// Milnor bases that reach the square's degree above the bottom.
    pub fn basis(&self) -> &Basis
        ensures reaches { self.now.above ≤ result.now }
        ensures within { result.now ≤ MAX_T }
    {
        &self.basis
    }

    /// The generators of the squares of its row before it.
    ///
    /// # Errors
    /// `Memory` if allocation fails.
    pub fn generators(&self, alloc: Global) -> Result<Gens, Memory>
        ensures { IfOk result (λ gens. gens ≡ degrees_from (bottom_of self.now.resolved) self.now.squares) }
    {
        self.row.generators(alloc, self.module.bottom(), self.above)
    }

    /// A copy of the images of those generators.
    ///
    /// # Errors
    /// `Memory` if allocation fails.
    pub fn images(&self, alloc: Global) -> Result<Vec<BitVec>, Memory>
        ensures { IfOk result (λ images. images.items ≡ images_of self.now.squares) }
    {
        self.row.images(alloc, self.above)
    }

    /// The target of d_s: the module for row 0, and above it the free module on the generators of the row below through the
    /// square's degree.
    ///
    /// # Errors
    /// `Memory` if allocation fails.
    pub fn below(&self, alloc: Global) -> Result<Below<'_>, Memory>
        ensures graded { IfOk result (λ below. graded_of below ≡ target_over (over self.now.resolved) self.now.below) }
        ensures reaches { IfOk result (λ below. (max k : ℕ) → k ≤ max →
            reaches_of below max (bottom_of self.now.resolved +ℤ pos k)) }
    {
        if self.s == 0 {
            return Ok(Below::Module(self.module()));
        }
        let gens = self
            .below
            .generators(alloc, self.module.bottom(), self.above + 1)?;
        Ok(Below::Row(gens))
    }

    /// The matrix of d_s in the square's degree, if it gets generators of these images.
    ///
    /// # Errors
    /// `Memory` if allocation fails.
    pub(crate) fn matrix_with(&self, alloc: Global, images: &[BitVec]) -> Result<Matrix, Memory>
        requires { HaveWidth (target_width (over self.now.resolved) self.now.below self.now.squares) images.now }
        ensures cols { IfOk result (λ matrix. matrix.cols
            ≡ target_width (over self.now.resolved) self.now.below self.now.squares) }
        ensures rows { IfOk result (λ matrix. matrix.rows
            ≡ square_matrix (over self.now.resolved) self.now.below self.now.squares
            (record { images = images.now; kernel = [] })) }
    {
        let t = self.t();
        let target = self.below(alloc)?;
        let mut gens = self.generators(alloc)?;
        gens.push_many(images.len(), t)?;
        let mut all = self.images(alloc)?;
        all.extend_with_clones(images)?;
        Hom::new(self.basis(), &gens, &target, all.as_slice()).matrix(alloc, t)
    }

    /// The kernel rows of the square below for one more owner: shared where that square has kept a reduction that
    /// shares them, and copied otherwise.
    ///
    /// # Errors
    /// `Memory` if allocation fails, or if there are too many owners to count.
    pub fn kernel_rows_below(&self, alloc: Global) -> Result<Option<Rows>, Memory>
        ensures { IfOk result
            (λ rows. rows ≡ option_map (λ below. (square_in below self.now.above).kernel) self.now.below) }
    {
        match self.square_below() {
            Some(square) => Ok(Some(square.kernel_rows(alloc)?)),
            None => Ok(None),
        }
    }

    /// The square below, which has the same degree, none for row 0.
    fn square_below(&self) -> Option<&Arc<Square>>
        ensures { option_map (λ a. content_of (arc_value a.now)) result
            ≡ option_map (λ below. square_in below self.now.above) self.now.below }
    {
        if self.s == 0 {
            return None;
        }
        self.below.get(usize::from(self.above))
    }

    /// How many degrees the square is above the module's bottom.
    pub fn above(&self) -> u16
        ensures above { result ≡ self.now.above }
        ensures is_footing { IsFooting self.now }
    {
        self.above
    }

    /// The squares that were read.
    pub(crate) fn start(&self) -> &Start
        ensures { result.now ≡ self.now.start }
    {
        &self.start
    }
}
