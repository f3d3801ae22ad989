//! Rows cleared from the last one up, by blocks: each block clears the rows before it, by one sum of each of its
//! quarters. Few rows are cleared one by one.
ghost use Rattle.std.specs.Prelude.{◌≡◌, ◌↔◌, ℕ, ◌+◌, ◌/◌, ◌<◌, ◌≤◌, true, map, length, take, slice_index_or, IsTrue, IfOk, OnOk};
ghost use Rattle.f2_vec.specs.Vectors.{bit, IsZero};
ghost use Rattle.f2_vec.specs.Spans.{row as row_at, HaveWidth};
ghost use Rattle.f2_matrix.specs.Echelon.{IsEchelonForm, IsReduced, HasNoZeroRow};
ghost use Rattle.f2_matrix.specs.Preimages.{pivot_of, rest_of};
ghost use Rattle.f2_kernel.specs.Inside.Upward.{upward, cleared_by, AreCleared, IsBlockCleared};
ghost use Rattle.f2_kernel.specs.Inside.Marks.{AreMarksOf};

use crate::echelon::marks_of;
use crate::form::clear_one_by_one;
use f2_matrix::{Matrix, pivot, pivots_of};
use f2_sums::Tables;
use f2_vec::BitVec;
use memory::Memory;
use std::alloc::Global;

/// A vector with a 1 at the pivots of a few rows, and the words, of 64 coordinates each, in which these are.
#[derive(Drop)]
struct Marks {
    vector: BitVec,
    words: Vec<usize>,
}

/// Clears each of the rows, of length `n`, at the pivots of those behind it.
///
/// # Errors
/// `Memory` if allocation fails; the rows are then of no use.
pub fn clear_upward(alloc: Global, n: usize, rows: &mut [BitVec]) -> Result<(), Memory>
    requires { HaveWidth n rows.old }
    ensures { OnOk result (rows.new ≡ upward rows.old) }
{
    let mut end = rows.len();
    let mut tables = Tables::new(alloc, n, 0)?;
    while end > 0 {
        let start = end - rows_of_block(end);
        clear_block(alloc, n, rows, start, end, &mut tables)?;
        prove!(start < end);
        end = start;
    }
    Ok(())
}

/// How many of `height` rows are the last block: all where they are too few to pay for sums, else the more the more
/// there are.
fn rows_of_block(height: usize) -> usize
    requires { 0 < height }
    ensures some { 0 < result }
    ensures few { result < height → result ≤ 32 }
    ensures within { result ≤ height }
{
    match height {
        0..256 => height,
        256..320 => 16,
        320..512 => 20,
        512..768 => 24,
        768..2048 => 28,
        _ => 32,
    }
}

/// Clears the rows from place `start` up to `end`, each at the pivots of those behind it there, and then the rows
/// before them at their pivots.
///
/// # Errors
/// `Memory` if allocation fails; the rows are then of no use.
fn clear_block(
    alloc: Global,
    n: usize,
    rows: &mut [BitVec],
    start: usize,
    end: usize,
    tables: &mut Tables,
) -> Result<(), Memory>
    requires widths { HaveWidth n rows.old }
    requires block { start ≤ end }
    requires few { 0 < start → end ≤ start + 32 }
    requires within { end ≤ length rows.old }
    requires width { tables.old.cols ≡ n }
    ensures rows { OnOk result (IsBlockCleared start end rows.old rows.new) }
    ensures width { OnOk result (tables.new.cols ≡ n) }
{
    let (before, _) = rows.split_at_mut(end);
    let (above, block) = before.split_at_mut(start);
    clear_one_by_one(alloc, n, block)?;
    if above.is_empty() {
        return Ok(());
    }
    clear_by_block(alloc, n, above, block, tables)
}

/// Clears the rows at the pivots of the block, which is cleared itself.
///
/// # Errors
/// `Memory` if allocation fails; the rows are then as before, and the tables of no use.
fn clear_by_block(
    alloc: Global,
    n: usize,
    rows: &mut [BitVec],
    block: &[BitVec],
    tables: &mut Tables,
) -> Result<(), Memory>
    requires rows { HaveWidth n rows.old }
    requires block { AreCleared n block.now }
    requires few { length block.now ≤ 32 }
    requires width { tables.old.cols ≡ n }
    ensures rows { OnOk result (rows.new ≡ map (cleared_by block.now) rows.old) }
    ensures width { OnOk result (tables.new.cols ≡ n) }
{
    let form = echelon_form(alloc, n, block)?;
    let basis = without_zeros(form.rows());
    let pivots = pivots_of(alloc, basis)?;
    let marks = marks_at_pivots(alloc, n, basis)?;
    tables.make_room(alloc, block.len().div_ceil(4))?;
    tables.fill(basis);
    clear_all(n, rows, &marks, pivots.as_slice(), tables);
    Ok(())
}

/// The rows before the zero rows, which stand last.
fn without_zeros(rows: &[BitVec]) -> &[BitVec]
    requires { IsReduced rows.now }
    ensures first { result.now ≡ take (length result.now) rows.now }
    ensures within { length result.now ≤ length rows.now }
    ensures nonzero { HasNoZeroRow result.now }
    ensures others { (i : ℕ) → length result.now ≤ i → IsZero (row_at rows.now i) }
{
    let mut end = rows.len();
    while end > 0 && rows[end - 1].is_zero() {
        end -= 1;
    }
    rows.split_at(end).0
}

/// Marks at the pivots of the rows, of length `n`.
///
/// # Errors
/// `Memory` if allocation fails.
fn marks_at_pivots(alloc: Global, n: usize, rows: &[BitVec]) -> Result<Marks, Memory>
    requires widths { HaveWidth n rows.now }
    requires nonzero { HasNoZeroRow rows.now }
    ensures { IfOk result (λ marks. AreMarksOf rows.now marks.vector marks.words.items) }
{
    let vector = marks_of(alloc, n, rows)?;
    let mut words = Vec::with_capacity(alloc, rows.len())?;
    for i in 0..rows.len() {
        let word = pivot(&rows[i]) / 64;
        if i == 0 || pivot(&rows[i - 1]) / 64 != word {
            words.push(word)?;
        }
    }
    Ok(Marks { vector, words })
}

/// The echelon form of the rows, of length `n`.
///
/// # Errors
/// `Memory` if allocation fails.
fn echelon_form(alloc: Global, n: usize, rows: &[BitVec]) -> Result<Matrix, Memory>
    requires { HaveWidth n rows.now }
    ensures cols { IfOk result (λ form. form.cols ≡ n) }
    ensures rows { IfOk result (λ form. IsEchelonForm n rows.now form.rows) }
{
    let mut form = Matrix::from_rows(n, copies_of(alloc, rows)?);
    form.reduce_rowwise(alloc)?;
    Ok(form)
}

/// Copies of the rows.
///
/// # Errors
/// `Memory` if allocation fails.
fn copies_of(alloc: Global, rows: &[BitVec]) -> Result<Vec<BitVec>, Memory>
    ensures { IfOk result (λ copies. copies.items ≡ rows.now) }
{
    let mut copies = Vec::with_capacity(alloc, rows.len())?;
    for i in 0..rows.len() {
        copies.push(rows[i].try_copy(alloc)?)?;
    }
    Ok(copies)
}

/// Clears each of the vectors by the rows of the tables, at their pivots.
fn clear_all(n: usize, vectors: &mut [BitVec], marks: &Marks, pivots: &[usize], tables: &Tables)
    requires vectors { HaveWidth n vectors.old }
    requires width { tables.now.cols ≡ n }
    requires nonzero { HasNoZeroRow tables.now.rows }
    requires widths { HaveWidth n tables.now.rows }
    requires pivots { pivots.now ≡ map pivot_of tables.now.rows }
    requires marks { AreMarksOf tables.now.rows marks.now.vector marks.now.words.items }
    ensures { vectors.new ≡ map (rest_of n tables.now.rows) vectors.old }
{
    for vector in vectors.iter_mut() {
        clear(n, vector, marks, pivots, tables);
    }
}

/// Clears the vector by the rows of the tables, at their pivots.
fn clear(n: usize, vector: &mut BitVec, marks: &Marks, pivots: &[usize], tables: &Tables)
    requires vector { length vector.old ≡ n }
    requires width { tables.now.cols ≡ n }
    requires nonzero { HasNoZeroRow tables.now.rows }
    requires widths { HaveWidth n tables.now.rows }
    requires pivots { pivots.now ≡ map pivot_of tables.now.rows }
    requires marks { AreMarksOf tables.now.rows marks.now.vector marks.now.words.items }
    ensures { vector.new ≡ rest_of n tables.now.rows vector.old }
{
    if has_mark(vector, marks) {
        tables.clear(pivots, vector);
    }
}

/// Whether the vector has a 1 at one of the marks in these words.
fn has_mark(vector: &BitVec, marks: &Marks) -> bool
    ensures { IsTrue result ↔ ((m : ℕ) × (p : ℕ) × (m < length marks.now.words.items)
        × (slice_index_or marks.now.words.items m 0 ≡ p / 64) × (bit vector.now p ≡ true)
        × (bit marks.now.vector p ≡ true)) }
{
    for i in 0..marks.words.len() {
        let word = marks.words[i];
        if vector.word(word) & marks.vector.word(word) != 0 {
            return true;
        }
    }
    false
}
