//! Views in memory: how many generators each finished square has.
ghost use Rattle.std.specs.Prelude.{◌≡◌, ◌+◌, ◌<◌, ◌≤◌, [], ◌∷◌, ◌++◌, length, slice_get, vec_capacity, IfOk, IfNone, IfSome};
ghost use Rattle.bidegree.specs.declared.range.TheConstants.{MAX_S, MAX_T};
ghost use Rattle.live_view.specs.Views.{row_of, blank};
ghost use Rattle.live_view.specs.Chart.{squares_within};
ghost use Rattle.live_view.specs.Inside.Rows.{numbers_of, rows_of, IsRow, AreRows, with_count};

use bidegree::{MAX_S, MAX_T, Range};
use memory::Memory;
use std::alloc::Global;
use std::marker::Model;

/// How many rows a table has.
const ROWS: usize = MAX_S as usize + 1;

/// How many squares a row may have.
const WIDTH: usize = MAX_T as usize + 1;

/// A row of a view: how many squares it has, and their numbers of generators, by degree. The numbers behind these do not
/// count.
#[derive(Clone, Copy)]
pub struct Row {
    pub done: usize,
    pub counts: [usize; WIDTH],
}

/// For each row that a table has, the numbers of generators of its finished squares. There is room for all squares of a
/// table, so a view takes no memory as it grows or becomes another. Rows are written only through the last one that has had
/// a square, so that little is copied.
#[derive(Drop)]
pub(crate) struct View {
    rows: Vec<Row>,
}

impl Model for View {
    ghost use Rattle.std.specs.Prelude.{◌+◌, ◌≤◌, ℕ, List, vec_capacity};
    ghost use Rattle.bidegree.specs.declared.range.TheConstants.{MAX_S};

    ghost Value = { List (List ℕ) };

    ghost use Rattle.live_view.specs.Inside.Rows.{rows_of, AreRows};

    ghost view = { λ v. rows_of v.rows.items };

    ghost invariant = { λ v. AreRows v.rows.items × (MAX_S + 1 ≤ vec_capacity v.rows) };
}

impl View {
    /// The view without a square.
    pub(crate) fn blank(alloc: Global) -> Result<View, Memory>
        ensures { IfOk result (λ v. v ≡ blank) }
    {
        let rows = Vec::with_capacity(alloc, ROWS)?;
        Ok(View { rows })
    }

    /// A copy of the view.
    pub(crate) fn again(&self, alloc: Global) -> Result<View, Memory>
        ensures { IfOk result (λ v. v ≡ self.now) }
    {
        let mut rows = Vec::with_capacity(alloc, ROWS)?;
        rows.extend_from_slice(self.rows.as_slice())?;
        Ok(View { rows })
    }

    /// Becomes the other view.
    pub(crate) fn copy_from(&mut self, other: &View)
        ensures { self.new ≡ other.now }
    {
        self.rows.clear();
        let Ok(()) = self.rows.extend_from_slice(other.rows.as_slice()) else {
            unreachable!()
        };
    }

    /// Row `s` as it is written, none if none is written from there on.
    fn row(&self, s: u16) -> Option<&Row>
        requires { s ≤ MAX_S }
        ensures none { IfNone result (row_of self.now s ≡ []) }
        ensures row { IfSome result (λ row. numbers_of row.now ≡ row_of self.now s) }
        ensures is_row { IfSome result (λ row. IsRow row.now) }
        ensures rows { length self.now ≡ MAX_S + 1 }
    {
        self.rows.get(usize::from(s))
    }

    /// How many squares row `s` has.
    pub(crate) fn row_len(&self, s: u16) -> usize
        requires { s ≤ MAX_S }
        ensures length { result ≡ length (row_of self.now s) }
        ensures most { result ≤ MAX_T + 1 }
        ensures rows { length self.now ≡ MAX_S + 1 }
    {
        match self.row(s) {
            Some(row) => row.done,
            None => 0,
        }
    }

    /// The number of generators of the square in row `s` and `above` degrees above the bottom, none if the view does not
    /// have it.
    pub(crate) fn count(&self, s: u16, above: u16) -> Option<usize>
        requires { s ≤ MAX_S }
        ensures { result ≡ slice_get (row_of self.now s) above }
    {
        let row = self.row(s)?;
        let above = usize::from(above);
        if above < row.done {
            Some(row.counts[above])
        } else {
            None
        }
    }

    /// Puts in the next square of row `s`, which has so many generators.
    pub(crate) fn push(&mut self, s: u16, count: usize)
        requires row { s ≤ MAX_S }
        requires room { length (row_of self.old s) ≤ MAX_T }
        ensures { self.new ≡ with_count self.old s count }
    {
        let s = usize::from(s);
        reach(&mut self.rows, s);
        let row = &mut self.rows[s];
        row.counts[row.done] = count;
        row.done += 1;
    }

    /// How many squares of the range the view has.
    pub(crate) fn squares(&self, range: Range) -> u64
        requires { range.s ≤ MAX_S }
        ensures { result ≡ squares_within range self.now }
    {
        let most = usize::from(range.t) + 1;
        let mut squares = 0;
        for s in 0..=range.s {
            squares += self.row_len(s).min(most) as u64;
        }
        squares
    }
}

/// Writes rows without a square, until row `s` is written.
fn reach(rows: &mut Vec<Row>, s: usize)
    requires rows { AreRows rows.old.items }
    requires room { MAX_S + 1 ≤ vec_capacity rows.old }
    requires row { s ≤ MAX_S }
    ensures rows { AreRows rows.new.items }
    ensures room { MAX_S + 1 ≤ vec_capacity rows.new }
    ensures written { s < length rows.new.items }
    ensures same { rows_of rows.new.items ≡ rows_of rows.old.items }
{
    if s < rows.len() {
        return;
    }
    let empty = Row {
        done: 0,
        counts: [0; WIDTH],
    };
    let Ok(()) = rows.resize(s + 1, empty) else {
        unreachable!()
    };
}
