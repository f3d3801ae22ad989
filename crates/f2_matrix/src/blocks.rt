//! Gauss and Jordan's elimination by blocks of up to eight pivots, in room that the caller has made. Surface: no run takes it.
ghost use Rattle.std.specs.Prelude.{◌≡◌, ℕ, ◌+◌, ◌<◌, ◌≤◌, true, false, length, take, drop, IfSome, IfNone};
ghost use Rattle.std.specs.List.{All};
ghost use Rattle.f2_vec.specs.Vectors.{bit};
ghost use Rattle.f2_vec.specs.Spans.{row, HaveWidth};
ghost use Rattle.f2_matrix.specs.Echelon.{IsEchelonForm};
ghost use Rattle.f2_sums.specs.Sums.{cleared_at};
ghost use Rattle.f2_matrix.specs.Inside.Blocks.{block_rows, IsClearedByBlock, IsPivotTaken};

use crate::matrix::{Matrix, clear_by};
use crate::rowwise::clear_at;
use crate::scratch::Scratch;
use f2_sums::Table;
use f2_vec::BitVec;

impl Matrix {
    /// Brings the matrix into row reduced echelon form by blocks of up to eight pivots, with room that was made for its columns.
    pub fn reduce_with(&mut self, scratch: &mut Scratch)
        requires { scratch.old ≡ self.old.cols }
        ensures cols { self.new.cols ≡ self.old.cols }
        ensures form { IsEchelonForm self.old.cols self.old.rows self.new.rows }
        ensures scratch { scratch.new ≡ scratch.old }
    {
        reduce_blocks(self.cols, self.rows.as_mut_slice(), &mut scratch.table);
    }
}

/// Brings the rows to row reduced echelon form, in place, by blocks of up to eight pivots. The table is room for the
/// sums of the rows of a block. It goes column by column; once the pivots of a block are taken, every row outside of it is
/// cleared by one of the 256 sums of its rows.
pub fn reduce_blocks(cols: usize, rows: &mut [BitVec], table: &mut Table)
    requires rows { HaveWidth cols rows.old }
    requires width { table.old.cols ≡ cols }
    requires room { table.old.most ≡ 8 }
    ensures form { IsEchelonForm cols rows.old rows.new }
    ensures width { table.new.cols ≡ cols }
    ensures room { table.new.most ≡ 8 }
{
    let mut settled = 0;
    let mut col = 0;
    while col < cols {
        let first = col;
        let mut places = [0; 8];
        let mut count = 0;
        while col < cols && count < 8 {
            if let Some(found) = row_to_take(cols, rows, settled, &places[..count], col) {
                take_pivot(cols, rows, settled, &places[..count], found, col);
                places[count] = col;
                count += 1;
            }
            col += 1;
        }
        table.fill(block_of(rows, settled, count));
        clear_outside(cols, rows, settled, &places[..count], table);
        settled += count;
        prove!(first < col);
    }
}

/// The `count` rows from place `from` on.
fn block_of(rows: &[BitVec], from: usize, count: usize) -> &[BitVec]
    requires { from + count ≤ length rows.now }
    ensures { result.now ≡ take count (drop from rows.now) }
{
    &rows[from..from + count]
}

/// The coordinate at place `col` of the row, cleared by the block.
fn cleared_bit(cols: usize, row: &BitVec, block: &[BitVec], places: &[usize], col: usize) -> bool
    requires row { length row.now ≡ cols }
    requires block { HaveWidth cols block.now }
    requires as_many { length block.now ≡ length places.now }
    requires places { All (λ p. p < cols) places.now }
    requires col { col < cols }
    ensures { result ≡ bit (cleared_at cols places.now block.now row.now) col }
{
    let mut bit = row.get(col);
    for j in 0..places.len() {
        if row.get(places[j]) {
            bit ^= block[j].get(col);
        }
    }
    bit
}

/// The first row, at or after place `from`, with a 1 in column `col` once it is cleared by the block.
fn row_to_take(
    cols: usize,
    rows: &[BitVec],
    settled: usize,
    places: &[usize],
    col: usize,
) -> Option<usize>
    requires rows { HaveWidth cols rows.now }
    requires within { settled + length places.now ≤ length rows.now }
    requires places { All (λ p. p < cols) places.now }
    requires col { col < cols }
    ensures behind { IfSome result (λ i. settled + length places.now ≤ i) }
    ensures within { IfSome result (λ i. i < length rows.now) }
    ensures one { IfSome result
        (λ i. bit (cleared_at cols places.now (block_rows settled places.now rows.now) (row rows.now i)) col ≡ true) }
    ensures none { IfNone result ((i : ℕ) → settled + length places.now ≤ i →
        bit (cleared_at cols places.now (block_rows settled places.now rows.now) (row rows.now i)) col ≡ false) }
{
    let end = settled + places.len();
    let block = &rows[settled..end];
    for i in end..rows.len() {
        if cleared_bit(cols, &rows[i], block, places, col) {
            return Some(i);
        }
    }
    None
}

/// Brings the row at place `found`, cleared by the block, behind the block, and clears column `col` of the block by it.
fn take_pivot(
    cols: usize,
    rows: &mut [BitVec],
    settled: usize,
    places: &[usize],
    found: usize,
    col: usize,
)
    requires rows { HaveWidth cols rows.old }
    requires behind { settled + length places.now ≤ found }
    requires within { found < length rows.old }
    requires places { All (λ p. p < cols) places.now }
    requires few { length places.now ≤ 8 }
    requires col { col < cols }
    ensures { IsPivotTaken cols settled places.now col found rows.old rows.new }
{
    let end = settled + places.len();
    rows.swap(end, found);
    let (above, rest) = rows.split_at_mut(end);
    let (_, block) = above.split_at_mut(settled);
    clear_at(cols, &mut rest[0], block, places);
    clear_by(block, &rest[0], col);
}

/// Clears the rows outside the block by it, each by one sum of the table.
fn clear_outside(cols: usize, rows: &mut [BitVec], settled: usize, places: &[usize], table: &Table)
    requires rows { HaveWidth cols rows.old }
    requires within { settled + length places.now ≤ length rows.old }
    requires places { All (λ p. p < cols) places.now }
    requires few { length places.now ≤ 8 }
    requires width { table.now.cols ≡ cols }
    requires sums { table.now.rows ≡ block_rows settled places.now rows.old }
    ensures { IsClearedByBlock cols settled places.now rows.old rows.new }
{
    let end = settled + places.len();
    for i in 0..rows.len() {
        if i < settled || end <= i {
            table.clear(places, &mut rows[i]);
        }
    }
}
