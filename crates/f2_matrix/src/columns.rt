//! Gauss and Jordan's elimination column by column, which takes no memory. Surface: no run takes it; tests compare the others
//! with it.
ghost use Rattle.std.specs.Prelude.{◌≡◌, ℕ, ◌<◌, ◌≤◌, true, false, length, IfSome, IfNone};
ghost use Rattle.f2_vec.specs.Vectors.{bit};
ghost use Rattle.f2_vec.specs.Spans.{row, HaveWidth};
ghost use Rattle.f2_matrix.specs.Echelon.{IsEchelonForm};
ghost use Rattle.f2_matrix.specs.Inside.RowOperations.{IsClearedBy};

use crate::matrix::{Matrix, clear_by};
use f2_vec::BitVec;

impl Matrix {
    /// Brings the rows to row reduced echelon form, in place.
    pub fn reduce(&mut self)
        ensures cols { self.new.cols ≡ self.old.cols }
        ensures form { IsEchelonForm self.old.cols self.old.rows self.new.rows }
    {
        reduce_rows(self.rows.as_mut_slice(), self.cols);
    }
}

/// Gauss and Jordan's elimination: the first `settled` rows have their pivots, the others are zero so far.
fn reduce_rows(rows: &mut [BitVec], cols: usize)
    requires { HaveWidth cols rows.old }
    ensures { IsEchelonForm cols rows.old rows.new }
{
    let mut settled = 0;
    for col in 0..cols {
        if let Some(found) = row_with_one_at(rows, settled, col) {
            rows.swap(settled, found);
            clear_column(rows, settled, col);
            settled += 1;
        }
    }
}

/// The first row, at or after place `from`, with a 1 in column `col`.
fn row_with_one_at(rows: &[BitVec], from: usize, col: usize) -> Option<usize>
    requires { (i : ℕ) → i < length rows.now → col < length (row rows.now i) }
    ensures at_or_after { IfSome result (λ i. from ≤ i) }
    ensures within { IfSome result (λ i. i < length rows.now) }
    ensures one { IfSome result (λ i. bit (row rows.now i) col ≡ true) }
    ensures none { IfNone result ((i : ℕ) → from ≤ i → bit (row rows.now i) col ≡ false) }
{
    for i in from..rows.len() {
        if rows[i].get(col) {
            return Some(i);
        }
    }
    None
}

/// Adds the row at place `pivot` to each other row that has a 1 in column `col`.
fn clear_column(rows: &mut [BitVec], pivot: usize, col: usize)
    requires within { pivot < length rows.old }
    requires widths { HaveWidth (length (row rows.old pivot)) rows.old }
    requires col { col < length (row rows.old pivot) }
    ensures { IsClearedBy pivot col rows.old rows.new }
{
    let (above, rest) = rows.split_at_mut(pivot);
    if let Some((pivot_row, below)) = rest.split_first_mut() {
        clear_by(above, pivot_row, col);
        clear_by(below, pivot_row, col);
    }
}
