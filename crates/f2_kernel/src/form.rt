//! Rows cleared from the last one up, and vectors made orthogonal to them.
ghost use Rattle.std.specs.Prelude.{◌≡◌, ◌<◌, [], ◌∷◌, map, length, OnOk};
ghost use Rattle.f2_vec.specs.Spans.{HaveWidth};
ghost use Rattle.f2_matrix.specs.Preimages.{pivot_of};
ghost use Rattle.f2_choice.specs.Inside.Dots.{dot as dot_of};
ghost use Rattle.f2_kernel.specs.Inside.Upward.{cleared_by, upward, solved};

use f2_matrix::pivot;
use f2_vec::BitVec;
use memory::Memory;
use std::alloc::Global;

/// Clears each of the rows, of length `n`, at the pivots of those behind it, one row after the other.
///
/// # Errors
/// `Memory` if allocation fails; the rows are then as before.
pub fn clear_one_by_one(alloc: Global, n: usize, rows: &mut [BitVec]) -> Result<(), Memory>
    requires { HaveWidth n rows.old }
    ensures { OnOk result (rows.new ≡ upward rows.old) }
{
    let mut pivots = vec![in alloc; 0; rows.len()]?;
    clear_with(n, rows, pivots.as_mut_slice());
    Ok(())
}

/// Clears each of the rows at the pivots of those behind it, and puts the pivot of each into `pivots`.
fn clear_with(n: usize, rows: &mut [BitVec], pivots: &mut [usize])
    requires widths { HaveWidth n rows.old }
    requires room { length pivots.old ≡ length rows.old }
    ensures { rows.new ≡ upward rows.old }
{
    for i in (0..rows.len()).rev() {
        let (above, below) = rows.split_at_mut(i + 1);
        clear_by_rows(n, &mut above[i], below, &pivots[i + 1..]);
        pivots[i] = pivot(&above[i]);
    }
}

/// Clears the vector at the pivots of the rows, the last one first.
fn clear_by_rows(n: usize, vector: &mut BitVec, rows: &[BitVec], pivots: &[usize])
    requires vector { length vector.old ≡ n }
    requires rows { HaveWidth n rows.now }
    requires pivots { pivots.now ≡ map pivot_of rows.now }
    ensures { vector.new ≡ cleared_by rows.now vector.old }
{
    for i in (0..rows.len()).rev() {
        clear_at(n, vector, &rows[i], pivots[i]);
    }
}

/// Clears the vector at this place, the pivot of the row.
fn clear_at(n: usize, vector: &mut BitVec, row: &BitVec, place: usize)
    requires vector { length vector.old ≡ n }
    requires row { length row.now ≡ n }
    requires pivot { place ≡ pivot_of row.now }
    ensures { vector.new ≡ cleared_by (row.now ∷ []) vector.old }
{
    if place < n && vector.get(place) {
        vector.xor_with(row);
    }
}

/// Makes the vector, of length `n`, orthogonal to each of the rows, the first one first: where it is not, its bit at the row's
/// pivot is turned over.
pub fn solve(n: usize, rows: &[BitVec], vector: &mut BitVec)
    requires rows { HaveWidth n rows.now }
    requires vector { length vector.old ≡ n }
    ensures { vector.new ≡ solved rows.now vector.old }
{
    for row in rows {
        solve_row(row, vector);
    }
}

/// Makes the vector orthogonal to the row.
fn solve_row(row: &BitVec, vector: &mut BitVec)
    requires { length vector.old ≡ length row.now }
    ensures { vector.new ≡ solved (row.now ∷ []) vector.old }
{
    if dot(row, vector) {
        if let Some(pivot) = row.first_one() {
            vector.flip(pivot);
        }
    }
}

/// The product of two vectors of one length: the sum of the products of their bits at each place.
fn dot(a: &BitVec, b: &BitVec) -> bool
    requires { length a.now ≡ length b.now }
    ensures { result ≡ dot_of a.now b.now }
{
    let mut sum = false;
    for k in (0..a.len().div_ceil(64)).rev() {
        sum ^= (a.word(k) & b.word(k)).count_ones() % 2 == 1;
    }
    sum
}
