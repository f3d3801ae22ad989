//! A table by the places of its squares: their rows, and their degrees above the bottom.
ghost use Rattle.std.specs.Prelude.{◌≡◌, ◌<◌, ◌≤◌, ◌+ℤ◌, ◌↔◌, pos, length, IsTrue};
ghost use Rattle.bidegree.specs.declared.range.TheConstants.{MAX_S, MAX_T};
ghost use Rattle.square.specs.Squares.{bottom_of};
ghost use Rattle.square.specs.Tables.{row_in, content_at, IsNext, IsTable};

use crate::table::Table;
use f2_vec::BitVec;

impl Table {
    /// The internal degree that is `above` degrees above the bottom.
    pub fn degree(&self, above: u16) -> i32
        ensures { result ≡ bottom_of self.now.resolved +ℤ pos above }
    {
        self.module().bottom() + i32::from(above)
    }

    /// The images of the generators of the square in row `s`, `above` degrees above the bottom. There are none where the square
    /// is not there.
    pub fn images_of(&self, s: u16, above: u16) -> &[BitVec]
        ensures images { result.now ≡ (content_at self.now.rows s above).images }
        ensures row { above < length (row_in self.now.rows s) → s ≤ MAX_S }
        ensures degree { above < length (row_in self.now.rows s) → above ≤ MAX_T }
        ensures is_table { IsTable self.now }
    {
        match self.square(s, above) {
            Some(square) => square.gens(),
            None => &[],
        }
    }

    /// Whether the square in row `s`, `above` degrees above the bottom, is the next of its row, and those that it stands on are
    /// there.
    pub fn is_next(&self, s: u16, above: u16) -> bool
        ensures next { IsTrue result ↔ IsNext self.now.rows s above }
        ensures is_table { IsTable self.now }
    {
        let k = usize::from(above);
        if self.front(s) != k {
            return false;
        }
        if s == 0 {
            return true;
        }
        k < self.front(s - 1)
    }
}
