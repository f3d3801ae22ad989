//! What texts tell a resolution from: a table of squares, or images of generators alone.
ghost use Rattle.std.specs.Prelude.{◌≡◌, ◌+◌, ◌<◌, ◌≤◌, pos, ◌+ℤ◌, length, IfOk};
ghost use Rattle.bidegree.specs.declared.range.TheConstants.{MAX_T};
ghost use Rattle.f2_vec.specs.Spans.{HaveWidth};
ghost use Rattle.resolution_laws.specs.Resolution.{row_of, square_in};
ghost use Rattle.square.specs.Squares.{bottom_of};
ghost use Rattle.square.specs.Tables.{plain_rows};
ghost use Rattle.resolution_images.specs.BareRows.{squares_of};
ghost use Rattle.ext_chart.specs.Dump.{image_width};
ghost use Rattle.ext_chart.specs.Seen.{Seen};

use f2_vec::BitVec;
use finite_module::Module;
use memory::Memory;
use milnor_basis::Basis;
use resolution_images::Images;
use square::Table;
use std::alloc::Global;

/// The squares of a resolution, as far as texts tell of them.
pub trait Shown {
    /// The module and the squares.
    ghost seen: { Self → Seen };

    /// The module that is resolved.
    fn module(&self) -> &Module
        ensures { result.now ≡ (seen self.now).resolved };

    /// Milnor bases that reach the elements of degree `k`. There is a square in row `s` and `k` degrees above the bottom.
    ///
    /// # Errors
    /// `Memory` if allocation fails.
    fn basis(&self, alloc: Global, s: u16, k: u16) -> Result<&Basis, Memory>
        requires { k < length (row_of (seen self.now).rows s) }
        ensures { IfOk result (λ basis. k ≤ basis.now) };

    /// How many squares row `s` has. They are those of the degrees from the bottom on.
    fn front(&self, s: u16) -> usize
        ensures front { result ≡ length (row_of (seen self.now).rows s) }
        ensures short { result ≤ MAX_T + 1 };

    /// The images of the generators of the square in row `s` and `k` degrees above the bottom, which is there.
    fn images(&self, s: u16, k: u16) -> &[BitVec]
        requires { k < length (row_of (seen self.now).rows s) }
        ensures images { result.now ≡ (square_in (row_of (seen self.now).rows s) k).images }
        ensures widths { HaveWidth
            (image_width (seen self.now).resolved.plain.generators (seen self.now).rows s
            (bottom_of (seen self.now).resolved +ℤ pos k))
            result.now }
        ensures degree { k ≤ MAX_T };
}

impl Shown for Table {
    ghost seen = { λ t. record { resolved = t.resolved; rows = plain_rows t.rows } };

    fn module(&self) -> &Module {
        Table::module(self)
    }

    fn basis(&self, alloc: Global, s: u16, k: u16) -> Result<&Basis, Memory> {
        prove!(usize::from(k) < Table::front(self, s));
        Table::basis(self, alloc, k)
    }

    fn front(&self, s: u16) -> usize {
        Table::front(self, s)
    }

    fn images(&self, s: u16, k: u16) -> &[BitVec] {
        self.images_of(s, k)
    }
}

impl Shown for Images {
    ghost seen = { λ i. record { resolved = i.resolved; rows = squares_of i.rows } };

    fn module(&self) -> &Module {
        Images::module(self)
    }

    fn basis(&self, _alloc: Global, _s: u16, _k: u16) -> Result<&Basis, Memory> {
        Ok(Images::basis(self))
    }

    fn front(&self, s: u16) -> usize {
        Images::front(self, s)
    }

    fn images(&self, s: u16, k: u16) -> &[BitVec] {
        self.square(s, k)
    }
}

/// The internal degree that is `k` above the bottom.
pub(crate) fn degree<R: Shown>(table: &R, k: u16) -> i32
    ensures { result ≡ bottom_of (R.seen table.now).resolved +ℤ pos k }
{
    table.module().bottom() + i32::from(k)
}
