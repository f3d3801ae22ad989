//! The parts of the reduction of rows, with the new ones behind them, from the echelon form of `[X | I]`, X the rows' coordinates. The
//! form is not cut at the bar: its columns on both sides are the parts.
ghost use Rattle.std.specs.Prelude.{◌≡◌, ℕ, ◌+◌, ◌-◌, ◌<◌, ◌≤◌, ◌++◌, true, false, map, length, take, drop, slice_index, Some, IfOk, IfSome, OnOk};
ghost use Rattle.std.specs.List.{filter};
ghost use Rattle.f2_vec.specs.Vectors.{zeros};
ghost use Rattle.f2_vec.specs.Spans.{row, HaveWidth};
ghost use Rattle.f2_matrix.specs.Echelon.{IsReduced, HasNoZeroRow};
ghost use Rattle.f2_matrix.specs.Preimages.{pivot_of};
ghost use Rattle.f2_matrix.specs.Reduction.{has_one};
ghost use Rattle.f2_choice.specs.Inside.Columns.{columns_at as columns_at_of, with_element};
ghost use Rattle.f2_choice.specs.Inside.Coordinates.{new_rows as new_rows_of, preimages_of, relations_of};
ghost use Rattle.f2_choice.specs.Inside.Form.{is_left, is_right, parts_of as reduction_of};
ghost use Rattle.f2_choice.specs.Inside.Tables.{entry_at, vacant_places as vacant_places_of, wanted_places as wanted_places_of, row_or_zero as row_or_zero_of, spread_by, IsReducedBasis};

use crate::columns::columns_at;
use crate::pivots::table_of_pivots;
use f2_matrix::Matrix;
use f2_vec::BitVec;
use memory::Memory;
use std::alloc::Global;

/// The rows of the form with a 1 left of the bar, which stands at place `n`, and the others that are not zero.
pub fn rows_of(form: &Matrix, n: usize) -> (&[BitVec], &[BitVec])
    requires reduced { IsReduced form.now.rows }
    requires bar { n ≤ form.now.cols }
    ensures image { result.0.now ≡ filter (is_left n) form.now.rows }
    ensures kernel { result.1.now ≡ filter (is_right n) form.now.rows }
{
    let rows = form.rows();
    let bar = rows_before(rows, n);
    let end = rows_before(rows, form.cols());
    let (image, others) = rows.split_at(bar);
    let (kernel, _) = others.split_at(end - bar);
    (image, kernel)
}

/// How many of the rows have a 1 before place `end`. They are the first ones.
fn rows_before(rows: &[BitVec], end: usize) -> usize
    requires { IsReduced rows.now }
    ensures within { result ≤ length rows.now }
    ensures before { (i : ℕ) → i < result → has_one (take end (row rows.now i)) ≡ true }
    ensures others { (i : ℕ) → result ≤ i → has_one (take end (row rows.now i)) ≡ false }
{
    for i in 0..rows.len() {
        match rows[i].first_one() {
            Some(pivot) if pivot < end => {}
            _ => return i,
        }
    }
    rows.len()
}

/// A copy of the candidate at the pivot of each kernel row, whose part right of the bar begins at place `n`.
///
/// # Errors
/// `Memory` if allocation fails.
pub fn new_rows(
    alloc: Global,
    n: usize,
    candidates: &[BitVec],
    kernel: &[BitVec],
) -> Result<Vec<BitVec>, Memory>
    requires nonzero { HasNoZeroRow (map (drop n) kernel.now) }
    requires within { (i : ℕ) → i < length kernel.now → pivot_of (drop n (row kernel.now i)) < length candidates.now }
    ensures { IfOk result (λ new. new.items ≡ new_rows_of candidates.now (map (drop n) kernel.now)) }
{
    let mut new = Vec::with_capacity(alloc, kernel.len())?;
    for v in kernel {
        if let Some(place) = v.next_one(n) {
            new.push(candidates[place - n].try_copy(alloc)?)?;
        }
    }
    Ok(new)
}

/// The preimages of the candidates, coefficients of the rows and of the new ones, and the reduced relations between the rows, which
/// have zeros at the new ones. `image` and `kernel` are the rows of the form, of length `width`, that go to its image and its kernel;
/// the bar stands at place `n`. The columns at the pivots of the image are not made.
///
/// # Errors
/// `Memory` if allocation fails.
pub fn preimages_and_relations(
    alloc: Global,
    n: usize,
    width: usize,
    image: &[BitVec],
    kernel: &[BitVec],
) -> Result<(Vec<BitVec>, Vec<BitVec>), Memory>
    requires bar { n ≤ width }
    requires image { IsReducedBasis n (map (take n) image.now) }
    requires widths { HaveWidth width image.now }
    requires kernel { (i : ℕ) → has_one (take n (row kernel.now i)) ≡ false }
    ensures preimages { IfOk result
        (λ parts. parts.0.items ≡ preimages_of (reduction_of n (width - n) image.now kernel.now)) }
    ensures relations { IfOk result
        (λ parts. parts.1.items ≡ relations_of (reduction_of n (width - n) image.now kernel.now)) }
{
    let table = table_of_pivots(alloc, n, image)?;
    let places = wanted_places(alloc, table.as_slice(), width)?;
    let mut relations = columns_of_form(
        alloc,
        table.as_slice(),
        places.as_slice(),
        width,
        image,
        kernel,
    )?;
    let preimages = relations.split_off(places.len() - (width - n))?;
    // A square keeps these, and not the room of the others behind them.
    relations.shrink_to_fit();
    add_elements(relations.as_mut_slice(), n, places.as_slice());
    Ok((preimages, relations))
}

/// The places of the columns that are parts, of rows of length `width`: those where the table has no number, the last one first, and all
/// behind the table.
fn wanted_places(alloc: Global, table: &[Option<usize>], width: usize) -> Result<Vec<usize>, Memory>
    requires { length table.now ≤ width }
    ensures { IfOk result (λ places. places.items ≡ wanted_places_of table.now width) }
{
    let mut places = vacant_places(alloc, table)?;
    for place in table.len()..width {
        places.push(place)?;
    }
    Ok(places)
}

/// The places of the table where there is no number, the last one first.
fn vacant_places(alloc: Global, table: &[Option<usize>]) -> Result<Vec<usize>, Memory>
    ensures { IfOk result (λ places. places.items ≡ vacant_places_of table.now) }
{
    let mut places = Vec::new(alloc);
    for e in 0..table.len() {
        let place = table.len() - 1 - e;
        if table[place].is_none() {
            places.push(place)?;
        }
    }
    Ok(places)
}

/// The columns, at these places, of the image rows that are spread by the table, with the kernel rows behind them.
fn columns_of_form(
    alloc: Global,
    table: &[Option<usize>],
    places: &[usize],
    width: usize,
    image: &[BitVec],
    kernel: &[BitVec],
) -> Result<Vec<BitVec>, Memory>
    requires { (p t : ℕ) → entry_at table.now p ≡ Some t → t < length image.now }
    ensures { IfOk result
        (λ columns. columns.items ≡ columns_at_of places.now (spread_by table.now width image.now ++ kernel.now)) }
{
    let zero = BitVec::zero(alloc, width)?;
    let mut rows = spread(alloc, table, &zero, image)?;
    append(&mut rows, kernel)?;
    columns_at(alloc, places, rows.as_slice())
}

/// Turns over, in each column, the coordinate of the row that goes with its place: of `n` rows the last one goes with place 0.
fn add_elements(columns: &mut [BitVec], n: usize, places: &[usize])
    requires there { length columns.old ≤ length places.now }
    requires within { (k : ℕ) → k < length columns.old → slice_index places.now k < n }
    requires lengths { (k : ℕ) → k < length columns.old → n ≤ length (row columns.old k) }
    ensures as_many { length columns.new ≡ length columns.old }
    ensures turned { (k : ℕ) → k < length columns.old →
        row columns.new k ≡ with_element n (slice_index places.now k) (row columns.old k) }
{
    for k in 0..columns.len() {
        columns[k].flip(n - 1 - places[k]);
    }
}

/// For each place of the table, the last place first, the row that it names, and the zero row where it names none.
fn spread<'a>(
    alloc: Global,
    table: &[Option<usize>],
    zero: &'a BitVec,
    rows: &'a [BitVec],
) -> Result<Vec<&'a BitVec>, Memory>
    requires zero { zero.now ≡ zeros (length zero.now) }
    requires within { (p t : ℕ) → entry_at table.now p ≡ Some t → t < length rows.now }
    ensures { IfOk result (λ spread. map (λ v. v.now) spread.items ≡ spread_by table.now (length zero.now) rows.now) }
{
    let mut spread = Vec::with_capacity(alloc, table.len())?;
    for e in 0..table.len() {
        spread.push(row_or_zero(table[table.len() - 1 - e], zero, rows))?;
    }
    Ok(spread)
}

/// The row with this number, and the zero row where there is no number.
fn row_or_zero<'a>(entry: Option<usize>, zero: &'a BitVec, rows: &'a [BitVec]) -> &'a BitVec
    requires zero { zero.now ≡ zeros (length zero.now) }
    requires within { IfSome entry (λ t. t < length rows.now) }
    ensures { result.now ≡ row_or_zero_of (length zero.now) rows.now entry }
{
    match entry {
        Some(t) => &rows[t],
        None => zero,
    }
}

/// Puts more rows behind.
fn append<'a>(rows: &mut Vec<&'a BitVec>, more: &'a [BitVec]) -> Result<(), Memory>
    ensures { OnOk result (map (λ v. v.now) rows.new.items ≡ map (λ v. v.now) rows.old.items ++ more.now) }
{
    for row in more {
        rows.push(row)?;
    }
    Ok(())
}
