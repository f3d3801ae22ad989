//! The products of all elements of a degree with one element: one walk fills the matrices of all of them.
ghost use Rattle.std.specs.Prelude.{◌≡◌, ℕ, ◌≤◌, ◌<◌, ◌+◌, ◌-◌, ◌*◌, ◌/◌, ◌^◌, ◌≢◌, ◌++◌, [], List, take, IfOk, OnOk, IfSome, IsNone, Some, length, replicate, slice_index, slice_index_or, slice_set, slice_get, bit_and, bit_or};
ghost use Rattle.milnor_basis.specs.Exponents.{degree_of, entry, trimmed};
ghost use Rattle.milnor_basis.specs.Basis.{lists_of, basis_of};
ghost use Rattle.milnor_basis.specs.Product.{AreWithin, ArePairs};
ghost use Rattle.milnor_basis.specs.Inside.Walk.{next_row, next_column, taken};
ghost use Rattle.milnor_basis.specs.Inside.FreeRows.{greatest_of, added, element, TurnsOverAll, IsInRow, IsInFirstRow};

use crate::basis::Basis;
use crate::counts::{Counts, Rest};
use crate::exps::{Exps, MAX_EXPONENTS};
use crate::product::{degree_of_products, less, next_apart, next_place, numbers_of};
use memory::Memory;
use std::alloc::Global;

/// How many places a number of 16 bits can tell. The basis of degree 255 has 42,987 elements.
const MOST_PLACES: usize = 1 << 16;

/// What is left to fill of a matrix whose rows make up any element of a degree.
#[derive(Drop)]
struct Open {
    /// What is left of the sum of each column, from column 1 on.
    columns: [u16; 8],
    /// The sum of each diagonal so far, from diagonal 1 on.
    diagonals: [u16; 16],
}

impl Open {
    /// All the places to fill, for the columns S.
    fn of(s: &Exps) -> Self
        ensures columns { (j : ℕ) → j < 8 → slice_index result.columns j ≡ entry s.now j }
        ensures diagonals { (k : ℕ) → slice_index result.diagonals k ≡ 0 }
    {
        Open {
            columns: numbers_of(s),
            diagonals: [0; 16],
        }
    }

    /// The greatest number that can stand at this place, which is in none of the rows 0 and 1, where `most` is left of the
    /// row's sum.
    fn greatest(&self, column: usize, most: u16) -> u16
        requires { column ≤ 8 }
        ensures { result ≡ greatest_of column most self.now.columns }
    {
        if column > 0 {
            (most >> column).min(self.columns[column - 1])
        } else {
            most
        }
    }

    /// The first column from this one down in which something can stand, where `most` is left of the row's sum, or column 0.
    fn next_open(&self, column: usize, most: u16) -> usize
        requires { column ≤ 8 }
        ensures low { result ≤ column }
        ensures shut { (j : ℕ) → result < j → j ≤ column → greatest_of j most self.now.columns ≡ 0 }
    {
        let mut next = column;
        while next > 0 && self.greatest(next, most) == 0 {
            next -= 1;
        }
        next
    }

    /// Puts `number` at this place, which is not in row 0 and shares no binary digit with its diagonal.
    fn put(&mut self, row: usize, column: usize, number: u16)
        requires first { 0 < row }
        requires row { row ≤ 8 }
        requires column { column ≤ 8 }
        requires fits { 0 < column → number ≤ slice_index self.old.columns (column - 1) }
        ensures columns { self.new.columns ≡ taken column number self.old.columns }
        ensures diagonals { self.new.diagonals ≡ slice_set self.old.diagonals (row + column - 1)
            (bit_or (slice_index self.old.diagonals (row + column - 1)) number) }
    {
        if column > 0 {
            self.columns[column - 1] -= number;
        }
        // With no digit in common this is the sum, and it cannot overflow.
        self.diagonals[row + column - 1] |= number;
    }

    /// Takes `number` back from this place, which is not in row 0. Without it the sum of its diagonal is `sum`.
    fn take_back(&mut self, row: usize, column: usize, number: u16, sum: u16)
        requires first { 0 < row }
        requires row { row ≤ 8 }
        requires column { column ≤ 8 }
        requires room { 0 < column → slice_index self.old.columns (column - 1) + number < 2 ^ 16 }
        ensures columns { self.new.columns ≡ added column number self.old.columns }
        ensures diagonals { self.new.diagonals ≡ slice_set self.old.diagonals (row + column - 1) sum }
    {
        if column > 0 {
            self.columns[column - 1] += number;
        }
        self.diagonals[row + column - 1] = sum;
    }
}

/// A row's sum with `number` in this column.
fn more(sum: u16, number: u16, column: usize) -> u16
    requires column { column ≤ 8 }
    requires small { sum + number * 2 ^ column < 2 ^ 16 }
    ensures { result ≡ sum + number * 2 ^ column }
{
    sum + (number << column)
}

/// A row of a matrix that is being filled, from row 1 on. The rows behind it are filled.
#[derive(Clone, Copy, Drop)]
struct Row {
    /// R's exponents up to this row's, which are still to choose.
    left: Rest,
    /// The row's sum so far.
    sum: u16,
    /// By how much the sum can still grow.
    most: u16,
}

impl Row {
    /// Nothing in this row yet, where these exponents are still to choose.
    fn begun(left: Rest, row: usize) -> Self
        requires some { 0 < row }
        requires row { row ≤ 8 }
        ensures left { result.left ≡ left }
        ensures sum { result.sum ≡ 0 }
        ensures most { result.most ≡ left.degree / (2 ^ row - 1) }
    {
        Row {
            left,
            sum: 0,
            most: left.degree / ((1 << row) - 1),
        }
    }

    /// The row of the next place, once `number` is put at this one. The first place of a row, which is filled last, makes the
    /// row's sum R's exponent.
    fn after(self, counts: &Counts, row: usize, column: usize, number: u16) -> Self
        requires past { 1 < row }
        requires row { row ≤ 8 }
        requires column { column ≤ 8 }
        requires small { self.left.degree ≤ 255 }
        requires reach { self.left.degree ≤ counts.now }
        requires fits { (self.sum + self.most) * (2 ^ row - 1) ≤ self.left.degree }
        requires greatest { number * 2 ^ column ≤ self.most }
        requires place { self.left.place + length (lists_of row self.left.degree) ≤ 2 ^ 16 }
        ensures same { 0 < column → result.left ≡ self.left }
        ensures grown { 0 < column → result.sum ≡ self.sum + number * 2 ^ column }
        ensures less { 0 < column → result.most ≡ self.most - number * 2 ^ column }
        ensures begun { column ≡ 0 → result.sum ≡ 0 }
        ensures most { column ≡ 0 → result.most ≡ result.left.degree / (2 ^ (row - 1) - 1) }
        ensures degree { column ≡ 0 → result.left.degree
            ≡ self.left.degree - (self.sum + number * 2 ^ column) * (2 ^ row - 1) }
        ensures place { column ≡ 0 → result.left.place ≡ self.left.place
            + (length (lists_of row self.left.degree) - length (lists_of row result.left.degree)) }
    {
        let sum = more(self.sum, number, column);
        if column > 0 {
            return Row {
                left: self.left,
                sum,
                most: less(self.most, number, column),
            };
        }
        Row::begun(counts.chosen(self.left, row, sum), row - 1)
    }
}

/// Row 1 of a matrix, and row 0, where all other rows are filled.
#[derive(Drop)]
struct FirstRow {
    /// The degrees of R and of the products.
    degrees: (u16, u16),
    /// The last column.
    width: usize,
    /// The place of R.
    left: usize,
    /// What is left of the sum of each column, from column 1 on.
    columns: [u16; 8],
    /// The sum of each diagonal so far, from diagonal 1 on.
    diagonals: [u16; 16],
}

/// Puts down the places of R and T if `room`, which is left of the sum of row 1, can stand in the row's first place. All
/// other places of the row are filled, row 0 puts `above` in column 1, and `term` is left of T, up to the first diagonal.
fn put_down(
    first: &FirstRow,
    room: u16,
    above: u16,
    term: Rest,
    pairs: &mut Vec<(u16, u16)>,
) -> Result<(), Memory>
    requires degree { first.now.degrees.0 ≤ 255 }
    requires width { first.now.width ≤ 8 }
    requires left { first.now.left < length (basis_of first.now.degrees.0) }
    requires few { length (basis_of first.now.degrees.0) ≤ 2 ^ 16 }
    requires many { length (basis_of first.now.degrees.1) ≤ 2 ^ 16 }
    requires apart { bit_and above (slice_index first.now.diagonals 0) ≡ 0 }
    requires weight { term.degree ≡ slice_index first.now.diagonals 0 + above + room }
    requires place { term.place < length (basis_of first.now.degrees.1) }
    requires within { AreWithin first.now.degrees.0 first.now.degrees.1 pairs.old.items }
    ensures turned { OnOk result ((rows columns diagonals : List ℕ) →
        IsInFirstRow first.now.degrees.0 first.now.degrees.1 first.now.width 0 room above term.degree term.place
        first.now.left first.now.columns first.now.diagonals rows columns diagonals →
        TurnsOverAll first.now.degrees.0 first.now.degrees.1 first.now.width 1 0 room rows columns diagonals
        pairs.old.items pairs.new.items) }
    ensures within { OnOk result (AreWithin first.now.degrees.0 first.now.degrees.1 pairs.new.items) }
{
    if room & (first.diagonals[0] | above) != 0 {
        return Ok(());
    }
    pairs.push((first.left as u16, term.place as u16))?;
    Ok(())
}

/// Puts down, for each way to fill row 1 up to `column`, which is not its first, and row 0, the places of R and T: `room` is
/// left of the row's sum, row 0 puts `above` in the next column, which shares no binary digit with the diagonal, and `term`
/// is left of T, up to this place's diagonal.
fn fill_first(
    counts: &Counts,
    first: &FirstRow,
    column: usize,
    room: u16,
    above: u16,
    term: Rest,
    pairs: &mut Vec<(u16, u16)>,
) -> Result<(), Memory>
    requires degree { first.now.degrees.0 ≤ 255 }
    requires product { first.now.degrees.1 ≤ counts.now }
    requires width { first.now.width ≤ 8 }
    requires some { 0 < column }
    requires column { column ≤ first.now.width }
    requires left { first.now.left < length (basis_of first.now.degrees.0) }
    requires few { length (basis_of first.now.degrees.0) ≤ 2 ^ 16 }
    requires many { length (basis_of first.now.degrees.1) ≤ 2 ^ 16 }
    requires small { term.degree ≤ 255 }
    requires reach { term.degree ≤ counts.now }
    requires apart { bit_and above (slice_index first.now.diagonals column) ≡ 0 }
    requires weight { term.degree ≡ degree_of (take (column + 1) first.now.diagonals)
        + (above * (2 ^ (column + 1) - 1) + (degree_of (take column first.now.columns) + room)) }
    requires place { term.place + length (lists_of (column + 1) term.degree) ≤ length (basis_of first.now.degrees.1) }
    requires within { AreWithin first.now.degrees.0 first.now.degrees.1 pairs.old.items }
    ensures turned { OnOk result ((rows columns diagonals : List ℕ) →
        IsInFirstRow first.now.degrees.0 first.now.degrees.1 first.now.width column room above term.degree term.place
        first.now.left first.now.columns first.now.diagonals rows columns diagonals →
        TurnsOverAll first.now.degrees.0 first.now.degrees.1 first.now.width 1 column room rows columns diagonals
        pairs.old.items pairs.new.items) }
    ensures within { OnOk result (AreWithin first.now.degrees.0 first.now.degrees.1 pairs.new.items) }
{
    let digits = first.diagonals[column] | above;
    let left = first.columns[column - 1];
    let greatest = (room >> column).min(left);
    let mut number = 0;
    while number <= u32::from(greatest) {
        let put = number as u16;
        if put & digits == 0 {
            let next_above = left - put;
            if next_above & first.diagonals[column - 1] == 0 {
                let next_room = less(room, put, column);
                let next_term = counts.counted(term, column + 1, digits | put);
                if column == 1 {
                    put_down(first, next_room, next_above, next_term, pairs)?;
                } else {
                    fill_first(
                        counts,
                        first,
                        column - 1,
                        next_room,
                        next_above,
                        next_term,
                        pairs,
                    )?;
                }
            }
            number = next_apart(put, digits);
        } else {
            number += 1;
        }
    }
    Ok(())
}

/// Puts down, for each way to fill row 1 and row 0, the places of R and T, where all other rows are filled: `room` is the sum
/// of row 1, and `left` the place of R.
fn fill_last(
    counts: &Counts,
    degrees: (u16, u16),
    width: usize,
    room: u16,
    left: usize,
    open: &Open,
    pairs: &mut Vec<(u16, u16)>,
) -> Result<(), Memory>
    requires product { degrees.1 ≤ counts.now }
    requires small { degrees.0 ≤ degrees.1 }
    requires smaller { degrees.1 ≤ 255 }
    requires few { length (basis_of degrees.0) ≤ 2 ^ 16 }
    requires many { length (basis_of degrees.1) ≤ 2 ^ 16 }
    requires left { left < length (basis_of degrees.0) }
    requires weight { degree_of open.now.diagonals + (degree_of (take width open.now.columns) + room) ≡ degrees.1 }
    requires width { width ≤ 8 }
    requires within { AreWithin degrees.0 degrees.1 pairs.old.items }
    ensures turned { OnOk result ((rows : List ℕ) → length rows ≡ 8 →
        slice_get (basis_of degrees.0) left ≡ Some (trimmed (added 1 room rows)) →
        TurnsOverAll degrees.0 degrees.1 width 1 width room rows open.now.columns open.now.diagonals
        pairs.old.items pairs.new.items) }
    ensures within { OnOk result (AreWithin degrees.0 degrees.1 pairs.new.items) }
{
    // T's exponents past the diagonals of row 1 are known.
    let mut term = Rest {
        degree: degrees.1,
        place: 0,
    };
    let mut k = MAX_EXPONENTS + 1;
    while k > width + 1 {
        term = counts.chosen(term, k, open.diagonals[k - 1]);
        k -= 1;
    }
    let first = FirstRow {
        degrees,
        width,
        left,
        columns: open.columns,
        diagonals: open.diagonals,
    };
    if width == 0 {
        return put_down(&first, room, 0, term, pairs);
    }
    fill_first(counts, &first, width, room, 0, term, pairs)
}

/// Puts down, for each way to fill the places up to (row, column), the places of R and T. `degrees` are those of R and of
/// the products, and `own` is what is known of this row. What is open is in the end as it was.
fn fill_all(
    counts: &Counts,
    degrees: (u16, u16),
    width: usize,
    row: usize,
    column: usize,
    own: Row,
    open: &mut Open,
    pairs: &mut Vec<(u16, u16)>,
) -> Result<(), Memory>
    requires product { degrees.1 ≤ counts.now }
    requires small { degrees.0 ≤ degrees.1 }
    requires smaller { degrees.1 ≤ 255 }
    requires few { length (basis_of degrees.0) ≤ 2 ^ 16 }
    requires many { length (basis_of degrees.1) ≤ 2 ^ 16 }
    requires below { own.left.degree ≤ degrees.0 }
    requires place { own.left.place + length (lists_of row own.left.degree) ≤ length (basis_of degrees.0) }
    requires fits { own.sum * (2 ^ row - 1) ≤ own.left.degree }
    requires most { own.most ≡ (own.left.degree - own.sum * (2 ^ row - 1)) / (2 ^ row - 1) }
    requires weight { degree_of open.old.diagonals
        + (degree_of (take width open.old.columns) + (own.left.degree - own.sum * (2 ^ row - 1))) ≡ degrees.1 }
    requires some { 0 < row }
    requires row { row ≤ 8 }
    requires width { width ≤ 8 }
    requires column { column ≤ width }
    requires first { row ≡ 1 → column ≡ width }
    requires begun { row ≡ 1 → own.sum ≡ 0 }
    requires within { AreWithin degrees.0 degrees.1 pairs.old.items }
    ensures turned { OnOk result ((rows : List ℕ) → IsInRow degrees.0 row own.sum own.left.degree own.left.place rows →
        TurnsOverAll degrees.0 degrees.1 width row column (own.left.degree - own.sum * (2 ^ row - 1)) rows
        open.old.columns open.old.diagonals pairs.old.items pairs.new.items) }
    ensures columns { OnOk result (open.new.columns ≡ open.old.columns) }
    ensures diagonals { OnOk result (open.new.diagonals ≡ open.old.diagonals) }
    ensures within { OnOk result (AreWithin degrees.0 degrees.1 pairs.new.items) }
{
    if row == 1 {
        let left = own.left;
        return fill_last(counts, degrees, width, left.degree, left.place, open, pairs);
    }
    // Columns in which nothing can stand are passed over.
    let at = open.next_open(column, own.most);
    let (next_row, next_column) = next_place(width, row, at);
    let sum = open.diagonals[row + at - 1];
    let greatest = open.greatest(at, own.most);
    // Nothing there leaves what is open as it is.
    let blank = own.after(counts, row, at, 0);
    fill_all(
        counts,
        degrees,
        width,
        next_row,
        next_column,
        blank,
        open,
        pairs,
    )?;
    let mut number = next_apart(0, sum);
    while number <= u32::from(greatest) {
        let put = number as u16;
        if put & sum == 0 {
            open.put(row, at, put);
            fill_all(
                counts,
                degrees,
                width,
                next_row,
                next_column,
                own.after(counts, row, at, put),
                open,
                pairs,
            )?;
            open.take_back(row, at, put, sum);
            number = next_apart(put, sum);
        } else {
            number += 1;
        }
    }
    Ok(())
}

/// The number of exponents of the longest of these elements, or 1 if none has one.
fn greatest_len(elements: &[Exps]) -> usize
    ensures some { 0 < result }
    ensures few { result ≤ 8 }
    ensures longest { (k : ℕ) → k < length elements.now → length (slice_index_or elements.now k []) ≤ result }
{
    let mut longest = 1;
    for r in elements {
        if r.len() > longest {
            longest = r.len();
        }
    }
    longest
}

/// The pairs of the products of the elements of this degree with Sq(S): the places of R and of T for each matrix that
/// counts in Milnor's formula.
///
/// # Errors
/// `Memory` if allocation fails.
pub(crate) fn pairs_of(
    alloc: Global,
    basis: &Basis,
    degree: u16,
    s: &Exps,
) -> Result<Vec<(u16, u16)>, Memory>
    requires { degree + degree_of s.now ≤ basis.now }
    ensures { IfOk result (λ pairs. ArePairs degree s.now pairs.items) }
{
    let product = degree_of_products(basis, degree, s);
    let elements = basis.of_degree(degree);
    if elements.len() > MOST_PLACES || basis.of_degree(product).len() > MOST_PLACES {
        return Err(Memory);
    }
    let height = greatest_len(elements);
    let left = Rest { degree, place: 0 };
    let mut open = Open::of(s);
    let mut pairs = Vec::new(alloc);
    fill_all(
        basis.counts(),
        (degree, product),
        s.len(),
        height,
        s.len(),
        Row::begun(left, height),
        &mut open,
        &mut pairs,
    )?;
    pairs.shrink_to_fit();
    Ok(pairs)
}
