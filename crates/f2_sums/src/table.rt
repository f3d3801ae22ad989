//! All sums of up to eight rows.
ghost use Rattle.std.specs.Prelude.{◌≡◌, ℕ, ◌+◌, ◌^◌, ◌<◌, ◌≤◌, Bool, List, [], map, length, IfOk};
ghost use Rattle.std.specs.Simd.Lanes.{mask_l};
ghost use Rattle.std.specs.List.{All};
ghost use Rattle.f2_vec.specs.Vectors.{sum_of, bit};
ghost use Rattle.f2_vec.specs.Spans.{row, HaveWidth, combination};
ghost use Rattle.f2_sums.specs.Sums.{cleared_at};
ghost use Rattle.f2_sums.specs.Inside.Tables.{HoldsSums, IsRoomForSums};

use crate::number::index_at;
use f2_vec::BitVec;
use memory::Memory;
use std::alloc::Global;
use std::marker::Model;

/// A table of all sums of some rows of one length, with room for those of up to `most` rows: a sum stands at the number whose
/// binary digits are its coefficients, that of the first row the lowest. It is seen as the rows.
#[derive(Debug, Drop)]
pub struct Table {
    cols: usize,
    most: usize,
    count: usize,
    sums: Vec<BitVec>,
}

impl Model for Table {
    ghost use Rattle.f2_sums.specs.Sums.{Block};
    ghost use Rattle.f2_sums.specs.Inside.Tables.{rows_in, IsTable};

    ghost Value = { Block };

    ghost view = { λ t. record { cols = t.cols; most = t.most; rows = rows_in t.count t.sums.items } };

    ghost invariant = { λ t. IsTable t.cols t.most t.count t.sums.items };
}

impl Table {
    /// The table of no row, with room for the sums of up to `most` rows of length `cols`.
    ///
    /// # Errors
    /// `Memory` if allocation fails.
    #[tactic(auto, using(crate::proofs::Sums::none_in))]
    pub fn new(alloc: Global, cols: usize, most: usize) -> Result<Table, Memory>
        requires { most ≤ 8 }
        ensures cols { IfOk result (λ t. t.cols ≡ cols) }
        ensures most { IfOk result (λ t. t.most ≡ most) }
        ensures rows { IfOk result (λ t. t.rows ≡ []) }
    {
        let sums = room_for_sums(alloc, cols, most)?;
        Ok(Table {
            cols,
            most,
            count: 0,
            sums,
        })
    }

    /// Makes the table that of the sums of these rows.
    pub fn fill(&mut self, rows: &[BitVec])
        requires widths { HaveWidth self.old.cols rows.now }
        requires few { length rows.now ≤ self.old.most }
        ensures cols { self.new.cols ≡ self.old.cols }
        ensures most { self.new.most ≡ self.old.most }
        ensures rows { self.new.rows ≡ rows.now }
    {
        fill_table(self.cols, self.most, self.sums.as_mut_slice(), rows);
        self.count = rows.len();
    }

    /// Clears the vector by the rows: those are added at whose places it has a 1. Each row has one of the places.
    pub fn clear(&self, places: &[usize], vector: &mut BitVec)
        requires vector { length vector.old ≡ self.now.cols }
        requires places { All (λ p. p < self.now.cols) places.now }
        requires one_each { length places.now ≡ length self.now.rows }
        ensures { vector.new ≡ cleared_at self.now.cols places.now self.now.rows vector.old }
    {
        let number = self.number_at(places, vector);
        vector.xor_with(self.sum(number));
    }

    /// The number of the sum of those rows at whose places the vector has a 1. It is 0 where there are none.
    pub fn number_at(&self, places: &[usize], vector: &BitVec) -> usize
        requires vector { length vector.now ≡ self.now.cols }
        requires places { All (λ p. p < self.now.cols) places.now }
        requires one_each { length places.now ≡ length self.now.rows }
        ensures number { result ≡ mask_l (map (bit vector.now) places.now) }
        ensures within { result < 2 ^ length self.now.rows }
        ensures small { result < 256 }
    {
        index_at(self.cols, vector, places)
    }

    /// The sum with this number.
    pub fn sum(&self, number: usize) -> &BitVec
        requires { number < 2 ^ length self.now.rows }
        ensures width { length result.now ≡ self.now.cols }
        ensures sum { (c : List Bool) → length c ≡ length self.now.rows → number ≡ mask_l c →
            result.now ≡ combination self.now.cols c self.now.rows }
    {
        &self.sums[number]
    }
}

/// Room for the sums of up to `bits` rows of length `cols`.
///
/// # Errors
/// `Memory` if allocation fails.
fn room_for_sums(alloc: Global, cols: usize, bits: usize) -> Result<Vec<BitVec>, Memory>
    requires { bits ≤ 8 }
    ensures { IfOk result (λ table. IsRoomForSums cols bits table.items) }
{
    let size = 1 << bits;
    let mut table = Vec::with_capacity(alloc, size)?;
    for _ in 0..size {
        table.push(BitVec::zero(alloc, cols)?)?;
    }
    Ok(table)
}

/// Makes the table that of the sums of the rows of the block.
fn fill_table(cols: usize, bits: usize, table: &mut [BitVec], block: &[BitVec])
    requires room { IsRoomForSums cols bits table.old }
    requires block { HaveWidth cols block.now }
    requires few { length block.now ≤ bits }
    requires most { bits ≤ 8 }
    ensures room { IsRoomForSums cols bits table.new }
    ensures sums { HoldsSums cols block.now table.new }
{
    let mut filled = 1;
    for pivot in block {
        add_sums(cols, table, filled, pivot);
        filled *= 2;
    }
}

/// Puts the sums of the first `filled` rows with the pivot row behind them.
fn add_sums(cols: usize, table: &mut [BitVec], filled: usize, pivot: &BitVec)
    requires widths { HaveWidth cols table.old }
    requires room { filled + filled ≤ length table.old }
    requires pivot { length pivot.now ≡ cols }
    ensures widths { HaveWidth cols table.new }
    ensures room { length table.new ≡ length table.old }
    ensures kept { (t : ℕ) → t < filled → row table.new t ≡ row table.old t }
    ensures sums { (t : ℕ) → t < filled → row table.new (filled + t) ≡ sum_of (row table.old t) pivot.now }
{
    let (done, rest) = table.split_at_mut(filled);
    for t in 0..filled {
        rest[t].set_sum(&done[t], pivot);
    }
}
