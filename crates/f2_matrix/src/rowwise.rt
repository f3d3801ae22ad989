//! Gauss and Jordan's elimination row by row: rows find their pivots in order, and the others are cleared by several
//! tables of sums at once.
ghost use Rattle.std.specs.Prelude.{◌≡◌, ◌≢◌, ℕ, ◌+◌, ◌*◌, ◌<◌, ◌≤◌, false, slice_index_or, length, IfSome, IfNone, OnOk, OnErr};
ghost use Rattle.std.specs.List.{All};
ghost use Rattle.f2_vec.specs.Vectors.{bit, IsFirstOne};
ghost use Rattle.f2_vec.specs.Spans.{row, HaveWidth};
ghost use Rattle.f2_matrix.specs.Echelon.{IsEchelonForm};
ghost use Rattle.f2_sums.specs.Sums.{cleared_at};
ghost use Rattle.f2_matrix.specs.Inside.Blocks.{IsClearedByBlock, IsPivotTaken};
ghost use Rattle.f2_matrix.specs.Inside.Rowwise.{IsNextCleared, HavePivots};

use crate::matrix::clear_by;
use f2_sums::{Tables, index_at};
use f2_vec::BitVec;
use memory::Memory;
use std::alloc::Global;

/// Brings the rows to row reduced echelon form.
///
/// # Errors
/// `Memory` if allocation fails.
pub fn eliminate(alloc: Global, cols: usize, rows: &mut [BitVec]) -> Result<(), Memory>
    requires { HaveWidth cols rows.old }
    ensures ok { OnOk result (IsEchelonForm cols rows.old rows.new) }
    ensures err { OnErr result (rows.new ≡ rows.old) }
{
    let bits = bits_of_tables(rows.len());
    let mut tables = Tables::new(alloc, cols, bits)?;
    let mut places = vec![in alloc; 0; cols]?;
    let found = find_pivots(cols, rows, bits, &mut tables);
    sort_by_pivot(cols, rows, found, places.as_mut_slice());
    Ok(())
}

/// Of how many rows a table has the sums: more rows of the matrix pay for larger tables.
fn bits_of_tables(height: usize) -> usize
    ensures least { 2 ≤ result }
    ensures most { result ≤ 8 }
{
    match height {
        0..64 => 2,
        64..160 => 3,
        160..320 => 4,
        320..512 => 5,
        512..768 => 6,
        768..2048 => 7,
        _ => 8,
    }
}

/// Gives the first rows a pivot each, alone in its column, and leaves only zero rows behind them.
fn find_pivots(cols: usize, rows: &mut [BitVec], bits: usize, tables: &mut Tables) -> usize
    requires rows { HaveWidth cols rows.old }
    requires least { 1 ≤ bits }
    requires most { bits ≤ 8 }
    requires width { tables.old.cols ≡ cols }
    requires room { tables.old.most ≡ 4 * bits }
    ensures { HavePivots cols result result rows.old rows.new }
{
    let mut settled = 0;
    let mut end = rows.len();
    while settled < end {
        let before = end - settled;
        let mut places = [0; 32];
        let mut count = 0;
        while settled + count < end && count < 4 * bits {
            match take_next(cols, rows, settled, &places[..count]) {
                Some(col) => {
                    places[count] = col;
                    count += 1;
                }
                None => {
                    end -= 1;
                    rows.swap(settled + count, end);
                }
            }
        }
        clear_others(cols, rows, settled, &places[..count], tables);
        settled += count;
        prove!(end - settled < before);
    }
    settled
}

/// Clears the row behind the block by it. If a 1 is left, the first is the row's pivot, and clears its column of the
/// block.
fn take_next(cols: usize, rows: &mut [BitVec], settled: usize, places: &[usize]) -> Option<usize>
    requires rows { HaveWidth cols rows.old }
    requires within { settled + length places.now < length rows.old }
    requires places { All (λ p. p < cols) places.now }
    requires few { length places.now ≤ 32 }
    ensures pivot { IfSome result
        (λ col. IsPivotTaken cols settled places.now col (settled + length places.now) rows.old rows.new) }
    ensures first { IfSome result (λ col. IsFirstOne (row rows.new (settled + length places.now)) col) }
    ensures within { IfSome result (λ col. col < cols) }
    ensures zero { IfNone result (IsNextCleared cols settled places.now rows.old rows.new) }
{
    let (above, rest) = rows.split_at_mut(settled + places.len());
    let (_, block) = above.split_at_mut(settled);
    clear_at(cols, &mut rest[0], block, places);
    let Some(pivot) = rest[0].first_one() else {
        return None;
    };
    clear_by(block, &rest[0], pivot);
    Some(pivot)
}

/// Clears the row by the block.
pub fn clear_at(cols: usize, row: &mut BitVec, block: &[BitVec], places: &[usize])
    requires row { length row.old ≡ cols }
    requires block { HaveWidth cols block.now }
    requires as_many { length block.now ≡ length places.now }
    requires places { All (λ p. p < cols) places.now }
    requires few { length places.now ≤ 32 }
    ensures { row.new ≡ cleared_at cols places.now block.now row.old }
{
    let mut index = index_at(cols, row, places);
    for j in 0..block.len() {
        if index % 2 == 1 {
            row.xor_with(&block[j]);
        }
        index /= 2;
    }
}

/// Clears the rows outside the block by it.
fn clear_others(
    cols: usize,
    rows: &mut [BitVec],
    settled: usize,
    places: &[usize],
    tables: &mut Tables,
)
    requires rows { HaveWidth cols rows.old }
    requires within { settled + length places.now ≤ length rows.old }
    requires places { All (λ p. p < cols) places.now }
    requires width { tables.old.cols ≡ cols }
    requires room { length places.now ≤ tables.old.most }
    ensures rows { IsClearedByBlock cols settled places.now rows.old rows.new }
    ensures width { tables.new.cols ≡ tables.old.cols }
    ensures room { tables.new.most ≡ tables.old.most }
{
    let (above, rest) = rows.split_at_mut(settled);
    let (block, below) = rest.split_at_mut(places.len());
    tables.fill(block);
    tables.clear_all(places, above);
    tables.clear_all(places, below);
}

/// Sorts the first `found` rows by their pivots. `places` is room for the place of the row with its pivot in each column.
fn sort_by_pivot(cols: usize, rows: &mut [BitVec], found: usize, places: &mut [usize])
    requires rows { HavePivots cols found found rows.old rows.old }
    requires places { length places.old ≡ cols }
    ensures { IsEchelonForm cols rows.old rows.new }
{
    note_places(cols, rows, found, places);
    let mut sorted = 0;
    for col in 0..cols {
        let place = places[col];
        if sorted <= place && place < found && rows[place].get(col) {
            if let Some(pivot) = rows[sorted].first_one() {
                places[pivot] = place;
            }
            rows.swap(sorted, place);
            sorted += 1;
        }
    }
}

/// Notes at the pivot of each of the first `found` rows where the row stands.
fn note_places(cols: usize, rows: &[BitVec], found: usize, places: &mut [usize])
    requires rows { HaveWidth cols rows.now }
    requires within { found ≤ length rows.now }
    requires places { length places.old ≡ cols }
    requires alone { (i j p : ℕ) → i ≢ j → i < found → IsFirstOne (row rows.now i) p → bit (row rows.now j) p ≡ false }
    ensures length { length places.new ≡ cols }
    ensures noted { (i p : ℕ) → i < found → IsFirstOne (row rows.now i) p → slice_index_or places.new p 0 ≡ i }
{
    for i in 0..found {
        if let Some(pivot) = rows[i].first_one() {
            places[pivot] = i;
        }
    }
}
