//! What lifts read of a module's resolution.
ghost use Rattle.std.specs.Prelude.{◌≡◌, ℕ, ◌<◌, ◌≤◌, ◌+ℤ◌, pos, length, IfOk, IfSome};
ghost use Rattle.bidegree.specs.declared.range.TheConstants.{MAX_S, MAX_T};
ghost use Rattle.square.specs.Squares.{bottom_of};
ghost use Rattle.square.specs.Tables.{row_in, content_at, IsTable};

use crate::rows_held::Held;
use f2_vec::BitVec;
use finite_module::Module;
use memory::Memory;
use milnor_basis::Basis;
use square::Table;
use std::alloc::Global;
use std::marker::Model;

/// What lifts read of the resolution of a module: the degrees of its generators, and their images. Contracts see a table of squares.
/// Where images alone are held, it is that of the canonical resolution through their range, which has these images; its kernels
/// are not at hand, and no lift reads them.
#[derive(Drop)]
pub struct Source<'a> {
    pub held: Held<'a>,
}

impl<'a> Model for Source<'a> {
    ghost use Rattle.square.specs.Tables.{Staircase};
    ghost use Rattle.chain_map.specs.Sources.{table_held, IsHeld};

    ghost Value = { Staircase };

    ghost view = { λ s. table_held s.held };

    ghost invariant = { λ s. IsHeld s.held };
}

impl Source<'_> {
    /// The table, where squares are held.
    pub fn squares(&self) -> Option<&Table>
        ensures { IfSome result (λ table. table.now ≡ self.now) }
    {
        match self.held {
            Held::Squares(table) => Some(table),
            Held::Images(_) => None,
        }
    }

    /// The module that is resolved.
    pub fn module(&self) -> &Module
        ensures { result.now ≡ self.now.resolved }
    {
        match self.held {
            Held::Squares(table) => table.module(),
            Held::Images(images) => images.module(),
        }
    }

    /// The internal degree that is `above` degrees above the bottom.
    pub fn degree(&self, above: u16) -> i32
        ensures { result ≡ bottom_of self.now.resolved +ℤ pos above }
    {
        self.module().bottom() + i32::from(above)
    }

    /// Milnor bases that reach degree `above`, in which some row has a square.
    ///
    /// # Errors
    /// `Memory` if allocation fails.
    pub fn basis(&self, alloc: Global, above: u16) -> Result<&Basis, Memory>
        requires { (s : ℕ) × (above < length (row_in self.now.rows s)) }
        ensures { IfOk result (λ basis. above ≤ basis.now) }
    {
        match self.held {
            Held::Squares(table) => {
                let _front = table.front(0);
                table.basis(alloc, above)
            }
            Held::Images(images) => Ok(images.basis()),
        }
    }

    /// How many squares row `s` has: they are those of the degrees from the bottom on. It is 0 above row `MAX_S`.
    pub fn front(&self, s: u16) -> usize
        ensures front { result ≡ length (row_in self.now.rows s) }
        ensures is_table { IsTable self.now }
    {
        match self.held {
            Held::Squares(table) => table.front(s),
            Held::Images(images) => images.front(s),
        }
    }

    /// The images of the generators of the square in row `s`, `above` degrees above the bottom. There are none where the square
    /// is not there.
    pub fn images_of(&self, s: u16, above: u16) -> &[BitVec]
        ensures images { result.now ≡ (content_at self.now.rows s above).images }
        ensures row { above < length (row_in self.now.rows s) → s ≤ MAX_S }
        ensures degree { above < length (row_in self.now.rows s) → above ≤ MAX_T }
        ensures is_table { IsTable self.now }
    {
        match self.held {
            Held::Squares(table) => table.images_of(s, above),
            Held::Images(images) => {
                if usize::from(above) < images.front(s) {
                    images.square(s, above)
                } else {
                    &[]
                }
            }
        }
    }
}
