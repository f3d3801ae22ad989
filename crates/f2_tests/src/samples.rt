//! Rows that are written out, rows that look random, and whether rows are these or those.
ghost use Rattle.std.specs.Prelude.{◌≡◌, IfOk};

use f2_matrix::Matrix;
use f2_vec::BitVec;
use memory::Memory;
use std::alloc::Global;

/// Where the numbers that look random begin.
pub(crate) const SEED: u64 = 88172645463325252;

/// The next number of a sequence that looks random.
pub(crate) fn next(seed: u64) -> u64 {
    let mut x = seed;
    x ^= x << 13;
    x ^= x >> 7;
    x ^= x << 17;
    x
}

/// The matrix of the rows that have this width, which all rows of a test have.
pub(crate) fn matrix_of(cols: usize, mut rows: Vec<BitVec>) -> Matrix
    ensures { result.cols ≡ cols }
{
    rows.retain(|row| row.len() == cols);
    Matrix::from_rows(cols, rows)
}

/// The row that the text is, written as 0 and 1.
fn row(alloc: Global, text: &str) -> Result<BitVec, Memory> {
    let mut row = BitVec::zero(alloc, 0)?;
    for byte in text.as_bytes() {
        row.push(*byte == b'1')?;
    }
    Ok(row)
}

/// The rows of length `cols` that these texts are.
pub(crate) fn written(alloc: Global, cols: usize, texts: &[&str]) -> Result<Matrix, Memory>
    ensures { IfOk result (λ matrix. matrix.cols ≡ cols) }
{
    let mut rows = Vec::new(alloc);
    for text in texts {
        rows.push(row(alloc, text)?)?;
    }
    Ok(matrix_of(cols, rows))
}

/// A row of length `cols` that looks random, in which about `ones` of 256 coordinates are 1, and the number behind it.
fn seeded_row(alloc: Global, cols: usize, ones: u64, seed: u64) -> Result<(BitVec, u64), Memory> {
    let mut seed = seed;
    let mut row = BitVec::zero(alloc, 0)?;
    for _ in 0..cols {
        seed = next(seed);
        row.push((seed >> 20) & 255 < ones)?;
    }
    Ok((row, seed))
}

/// `height` such rows.
pub(crate) fn seeded(
    alloc: Global,
    height: usize,
    cols: usize,
    ones: u64,
    seed: u64,
) -> Result<Matrix, Memory>
    ensures { IfOk result (λ matrix. matrix.cols ≡ cols) }
{
    let mut rows = Vec::new(alloc);
    let mut seed = seed;
    for _ in 0..height {
        let (row, after) = seeded_row(alloc, cols, ones, seed)?;
        rows.push(row)?;
        seed = after;
    }
    Ok(matrix_of(cols, rows))
}

/// Whether the row is this text.
pub(crate) fn is_written(row: &BitVec, text: &str) -> bool {
    let mut same = row.len() == text.len();
    for (i, digit) in text.bytes().enumerate() {
        same = same && i < row.len() && row.get(i) == (digit == b'1');
    }
    same
}

/// Whether the rows are these texts.
pub(crate) fn are_written(rows: &[BitVec], texts: &[&str]) -> bool {
    let mut same = rows.len() == texts.len();
    for (row, text) in rows.iter().zip(texts) {
        same = same && is_written(row, text);
    }
    same
}

/// Whether two vectors are the same.
pub(crate) fn is_same(a: &BitVec, b: &BitVec) -> bool {
    let mut same = a.len() == b.len();
    for i in 0..a.len().div_ceil(64) {
        same = same && a.word(i) == b.word(i);
    }
    same
}

/// Whether two lists of rows are the same.
pub(crate) fn are_same(a: &[BitVec], b: &[BitVec]) -> bool {
    let mut same = a.len() == b.len();
    for i in 0..a.len() {
        same = same && i < b.len() && is_same(&a[i], &b[i]);
    }
    same
}
