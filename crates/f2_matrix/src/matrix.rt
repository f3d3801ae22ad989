//! Matrices, and their elimination row by row.
ghost use Rattle.std.specs.Prelude.{◌≡◌, ◌+◌, ◌<◌, ◌++◌, map, length, IfOk, OnOk, OnErr};
ghost use Rattle.f2_vec.specs.Spans.{HaveWidth, unit_vector};
ghost use Rattle.f2_matrix.specs.Echelon.{IsEchelonForm};
ghost use Rattle.f2_matrix.specs.Reduction.{augmented};
ghost use Rattle.f2_matrix.specs.Inside.RowOperations.{cleared};

use crate::rowwise::eliminate;
use f2_vec::BitVec;
use memory::Memory;
use std::alloc::Global;
use std::marker::Model;

/// A matrix, seen as the length of a row and the list of its rows. Row i is the image of basis element i.
#[derive(Debug, Drop)]
pub struct Matrix {
    pub(crate) cols: usize,
    pub(crate) rows: Vec<BitVec>,
}

impl Model for Matrix {
    ghost use Rattle.f2_matrix.specs.Reduction.{Rows};
    ghost use Rattle.f2_vec.specs.Spans.{HaveWidth};

    ghost Value = { Rows };

    ghost view = { λ m. record { cols = m.cols; rows = m.rows.items } };

    ghost invariant = { λ m. HaveWidth m.cols m.rows.items };
}

impl Matrix {
    /// The matrix of these rows, each of length `cols`.
    pub fn from_rows(cols: usize, rows: Vec<BitVec>) -> Self
        requires { HaveWidth cols rows.items }
        ensures cols { result.cols ≡ cols }
        ensures rows { result.rows ≡ rows.items }
    {
        Matrix { cols, rows }
    }

    /// The length of a row.
    pub fn cols(&self) -> usize
        ensures { result ≡ self.now.cols }
    {
        self.cols
    }

    /// The rows, in order, each of length `cols`.
    pub fn rows(&self) -> &[BitVec]
        ensures rows { result.now ≡ self.now.rows }
        ensures widths { HaveWidth self.now.cols self.now.rows }
    {
        self.rows.as_slice()
    }

    /// Brings the matrix into row reduced echelon form row by row, with several tables of sums that are made for it.
    ///
    /// # Errors
    /// `Memory` if allocation fails; the matrix is then as before.
    pub fn reduce_rowwise(&mut self, alloc: Global) -> Result<(), Memory>
        ensures cols { self.new.cols ≡ self.old.cols }
        ensures ok { OnOk result (IsEchelonForm self.old.cols self.old.rows self.new.rows) }
        ensures err { OnErr result (self.new ≡ self.old) }
    {
        eliminate(alloc, self.cols, self.rows.as_mut_slice())
    }

    /// The matrix with the unit matrix put to the right of it, `[D | I]`.
    ///
    /// # Errors
    /// `Memory` if allocation fails.
    pub fn augment(&self, alloc: Global) -> Result<Matrix, Memory>
        ensures cols { IfOk result (λ m. m.cols ≡ self.now.cols + length self.now.rows) }
        ensures rows { IfOk result (λ m. m.rows ≡ augmented self.now.rows) }
    {
        let height = self.rows.len();
        let Some(cols) = self.cols.checked_add(height) else {
            // No memory holds a row of that length.
            return Err(Memory);
        };
        let rows = augmented_rows(alloc, self.rows.as_slice())?;
        Ok(Matrix { cols, rows })
    }
}

/// Adds `pivot_row` to each of the rows that has a 1 in column `col`.
pub fn clear_by(rows: &mut [BitVec], pivot_row: &BitVec, col: usize)
    requires widths { HaveWidth (length pivot_row.now) rows.old }
    requires col { col < length pivot_row.now }
    ensures { rows.new ≡ map (cleared pivot_row.now col) rows.old }
{
    for row in rows.iter_mut() {
        if row.get(col) {
            row.xor_with(pivot_row);
        }
    }
}

/// Each row, followed by the unit vector of its number.
fn augmented_rows(alloc: Global, rows: &[BitVec]) -> Result<Vec<BitVec>, Memory>
    ensures { IfOk result (λ wider. wider.items ≡ augmented rows.now) }
{
    let mut wider = Vec::with_capacity(alloc, rows.len())?;
    for i in 0..rows.len() {
        wider.push(with_unit(alloc, &rows[i], rows.len(), i)?)?;
    }
    Ok(wider)
}

/// The row, followed by the unit vector of length `n` with its 1 at place `i`.
fn with_unit(alloc: Global, row: &BitVec, n: usize, i: usize) -> Result<BitVec, Memory>
    requires { i < n }
    ensures { IfOk result (λ wider. wider ≡ row.now ++ unit_vector n i) }
{
    let Some(len) = row.len().checked_add(n) else {
        // No memory holds a row of that length.
        return Err(Memory);
    };
    let mut wider = BitVec::zero(alloc, len)?;
    wider.xor_at(0, row);
    wider.set(row.len() + i, true);
    Ok(wider)
}
