//! Columns of rows at some places, and of no others.
ghost use Rattle.std.specs.Prelude.{◌≡◌, ℕ, ◌+◌, ◌*◌, ◌<◌, ◌≤◌, map, length, IfOk};
ghost use Rattle.f2_vec.specs.Spans.{HaveWidth};
ghost use Rattle.f2_choice.specs.Inside.Columns.{IsBlockOf, columns_at as columns_at_of, IsTurnedBlock, AreFilledAt};

use f2_vec::{BitVec, transposed_block};
use memory::Memory;
use std::alloc::Global;

/// The columns of the rows at these places, in the order of the places. It is quick where places in one word of the rows
/// stand side by side.
///
/// # Errors
/// `Memory` if allocation fails.
pub fn columns_at(alloc: Global, places: &[usize], rows: &[&BitVec]) -> Result<Vec<BitVec>, Memory>
    ensures { IfOk result (λ columns. columns.items ≡ columns_at_of places.now (map (λ v. v.now) rows.now)) }
{
    let mut columns = BitVec::zero_rows(alloc, places.len(), rows.len())?;
    fill(columns.as_mut_slice(), places, rows);
    Ok(columns)
}

/// Makes the columns those of the rows at these places, 64 rows at a time.
fn fill(columns: &mut [BitVec], places: &[usize], rows: &[&BitVec])
    requires as_many { length columns.old ≡ length places.now }
    requires lengths { HaveWidth (length rows.now) columns.old }
    ensures { columns.new ≡ columns_at_of places.now (map (λ v. v.now) rows.now) }
{
    for i in 0..rows.len().div_ceil(64) {
        fill_word(columns, places, rows, i);
    }
}

/// Fills word `i` of each column.
fn fill_word(columns: &mut [BitVec], places: &[usize], rows: &[&BitVec], i: usize)
    requires as_many { length columns.old ≡ length places.now }
    requires within { 64 * i < length rows.now }
    requires lengths { HaveWidth (length rows.now) columns.old }
    ensures { AreFilledAt i 0 (length columns.old) places.now (map (λ v. v.now) rows.now) columns.old columns.new }
{
    let mut filled = 0;
    while filled < places.len() {
        filled = fill_run(columns, places, rows, i, filled);
    }
}

/// Fills word `i` of column `from`, and of those behind it as long as their places lie in the same word of the rows. Gives the
/// number of the first that it leaves.
fn fill_run(
    columns: &mut [BitVec],
    places: &[usize],
    rows: &[&BitVec],
    i: usize,
    from: usize,
) -> usize
    requires as_many { length columns.old ≡ length places.now }
    requires there { from < length places.now }
    requires within { 64 * i < length rows.now }
    requires lengths { HaveWidth (length rows.now) columns.old }
    ensures more { from < result }
    ensures end { result ≤ length places.now }
    ensures filled { AreFilledAt i from result places.now (map (λ v. v.now) rows.now) columns.old columns.new }
{
    let j = places[from] / 64;
    let turned = turned_block(rows, i, j);
    let mut k = from;
    while k < places.len() && places[k] / 64 == j {
        columns[k].set_word(i, turned[places[k] % 64]);
        k += 1;
    }
    k
}

/// Word `i` of the 64 columns from place 64 `j` on, 0 where there is no such place.
fn turned_block(rows: &[&BitVec], i: usize, j: usize) -> [u64; 64]
    requires { 64 * i < length rows.now }
    ensures { IsTurnedBlock i j (map (λ v. v.now) rows.now) result }
{
    let block = block_of(rows, i, j);
    if block == [0; 64] {
        return block;
    }
    transposed_block(&block)
}

/// Word `j` of each of the 64 rows from row 64 `i` on, and 0 past the last row.
fn block_of(rows: &[&BitVec], i: usize, j: usize) -> [u64; 64]
    requires { 64 * i < length rows.now }
    ensures { IsBlockOf i j (map (λ v. v.now) rows.now) result }
{
    let mut block = [0; 64];
    for r in 0..(rows.len() - 64 * i).min(64) {
        block[r] = rows[64 * i + r].word(j);
    }
    block
}
