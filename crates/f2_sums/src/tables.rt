//! Blocks of up to 32 rows in four quarters, each with a table of its sums.
ghost use Rattle.std.specs.Prelude.{◌≡◌, ◌*◌, ◌<◌, ◌≤◌, [], map, length, take, drop, IfOk, OnOk, OnErr};
ghost use Rattle.std.specs.List.{All};
ghost use Rattle.f2_vec.specs.Spans.{HaveWidth};
ghost use Rattle.f2_sums.specs.Sums.{cleared_at};
ghost use Rattle.f2_sums.specs.Inside.Tables.{first_part, second_part, third_part, fourth_part};

use crate::table::Table;
use crate::words::{Words, words_of};
use f2_vec::BitVec;
use memory::Memory;
use std::alloc::Global;
use std::marker::Model;

/// Tables of the sums of the four quarters of a block of rows of one length, with room for those of up to `most` rows. They are
/// seen as the rows of the block.
#[derive(Debug, Drop)]
pub struct Tables {
    cols: usize,
    bits: usize,
    first: Table,
    second: Table,
    third: Table,
    fourth: Table,
    quarter: usize,
    words: Words,
}

impl Model for Tables {
    ghost use Rattle.f2_sums.specs.Sums.{Block};
    ghost use Rattle.f2_sums.specs.Inside.Tables.{block_of, AreTables};

    ghost Value = { Block };

    ghost view = { λ t. block_of t.cols t.bits t.first t.second t.third t.fourth };

    ghost invariant = { λ t. AreTables t.cols t.bits t.quarter t.words.from t.words.to t.first t.second t.third t.fourth };
}

impl Tables {
    /// The tables of no row, with room for the sums of up to four times `bits` rows of length `cols`.
    ///
    /// # Errors
    /// `Memory` if allocation fails.
    #[tactic(auto, using(crate::proofs::Sums::none_filled))]
    pub fn new(alloc: Global, cols: usize, bits: usize) -> Result<Tables, Memory>
        requires { bits ≤ 8 }
        ensures cols { IfOk result (λ t. t.cols ≡ cols) }
        ensures most { IfOk result (λ t. t.most ≡ 4 * bits) }
        ensures rows { IfOk result (λ t. t.rows ≡ []) }
    {
        Ok(Tables {
            cols,
            bits,
            first: Table::new(alloc, cols, bits)?,
            second: Table::new(alloc, cols, bits)?,
            third: Table::new(alloc, cols, bits)?,
            fourth: Table::new(alloc, cols, bits)?,
            quarter: 0,
            words: Words { from: 0, to: 0 },
        })
    }

    /// Makes room for the sums of up to four times `bits` rows, where there is less. The tables are then those of no row, or as
    /// before.
    ///
    /// # Errors
    /// `Memory` if allocation fails; the tables are then as before.
    pub fn make_room(&mut self, alloc: Global, bits: usize) -> Result<(), Memory>
        requires { bits ≤ 8 }
        ensures cols { self.new.cols ≡ self.old.cols }
        ensures most { OnOk result (4 * bits ≤ self.new.most) }
        ensures err { OnErr result (self.new ≡ self.old) }
    {
        if self.bits < bits {
            *self = Tables::new(alloc, self.cols, bits)?;
        }
        Ok(())
    }

    /// Makes the tables those of the sums of these rows.
    pub fn fill(&mut self, rows: &[BitVec])
        requires widths { HaveWidth self.old.cols rows.now }
        requires few { length rows.now ≤ self.old.most }
        ensures cols { self.new.cols ≡ self.old.cols }
        ensures most { self.new.most ≡ self.old.most }
        ensures rows { self.new.rows ≡ rows.now }
    {
        let quarter = rows.len().div_ceil(4);
        let (first, second, third, fourth) = quarters_of(rows, quarter);
        self.first.fill(first);
        self.second.fill(second);
        self.third.fill(third);
        self.fourth.fill(fourth);
        self.quarter = quarter;
        self.words = words_of(rows);
    }

    /// Clears each of the vectors by the block: the rows are added at whose places it has a 1. Each row has one of the places.
    pub fn clear_all(&self, places: &[usize], vectors: &mut [BitVec])
        requires vectors { HaveWidth self.now.cols vectors.old }
        requires places { All (λ p. p < self.now.cols) places.now }
        requires one_each { length places.now ≡ length self.now.rows }
        ensures { vectors.new ≡ map (cleared_at self.now.cols places.now self.now.rows) vectors.old }
    {
        for vector in vectors.iter_mut() {
            self.clear(places, vector);
        }
    }

    /// Clears the vector by the block: the rows are added at whose places it has a 1. Each row has one of the places.
    pub fn clear(&self, places: &[usize], vector: &mut BitVec)
        requires vector { length vector.old ≡ self.now.cols }
        requires places { All (λ p. p < self.now.cols) places.now }
        requires one_each { length places.now ≡ length self.now.rows }
        ensures { vector.new ≡ cleared_at self.now.cols places.now self.now.rows vector.old }
    {
        let (first, second, third, fourth) = quarters_of(places, self.quarter);
        let a = self.first.number_at(first, vector);
        let b = self.second.number_at(second, vector);
        let c = self.third.number_at(third, vector);
        let d = self.fourth.number_at(fourth, vector);
        // The sum at number 0 is zero.
        if a + b + c + d > 0 {
            vector.xor_with_four(
                self.words.from,
                self.words.to,
                self.first.sum(a),
                self.second.sum(b),
                self.third.sum(c),
                self.fourth.sum(d),
            );
        }
    }
}

/// The items in four parts, of which the first three have `count` each, as long as there are so many.
fn quarters_of<T>(items: &[T], count: usize) -> (&[T], &[T], &[T], &[T])
    ensures first { result.0.now ≡ first_part count items.now }
    ensures second { result.1.now ≡ second_part count items.now }
    ensures third { result.2.now ≡ third_part count items.now }
    ensures fourth { result.3.now ≡ fourth_part count items.now }
{
    let (first, rest) = split_up_to(items, count);
    let (second, rest) = split_up_to(rest, count);
    let (third, fourth) = split_up_to(rest, count);
    (first, second, third, fourth)
}

/// The first `count` items, or all where there are fewer, and the others.
fn split_up_to<T>(items: &[T], count: usize) -> (&[T], &[T])
    ensures first { result.0.now ≡ take count items.now }
    ensures others { result.1.now ≡ drop count items.now }
{
    items.split_at(count.min(items.len()))
}
