//! The product of two elements of the basis: the matrices of Milnor's formula are filled place by place.
ghost use Rattle.std.specs.Prelude.{◌≡◌, ℕ, ◌≤◌, ◌<◌, ◌+◌, ◌-◌, ◌*◌, ◌^◌, ◌↔◌, IfOk, IfSome, IsNone, IsTrue, Some, EachIndex, length, slice_index, slice_get, slice_set, bit_and, bit_or, ◌≢◌};
ghost use Rattle.milnor_basis.specs.Exponents.{degree_of, entry, trimmed};
ghost use Rattle.milnor_basis.specs.Basis.{basis_of};
ghost use Rattle.milnor_basis.specs.Product.{product_bits, product_terms};
ghost use Rattle.milnor_basis.specs.Inside.Walk.{least, greatest, next_row, next_column, taken, TurnsOver, TurnsOverEqual, AreChosen};
ghost use Rattle.milnor_basis.specs.Inside.FreeRows.{element};

use crate::basis::Basis;
use crate::exps::{Exps, MAX_EXPONENTS};
use f2_vec::BitVec;
use memory::Memory;
use std::alloc::Global;

/// What is left to fill of a matrix. Its places are filled from the last to the first: row by row from the last row up
/// to row 0, and each row from its last column to the first.
#[derive(Clone, Copy, Drop)]
struct Left {
    /// What is left of the sum of each row, from row 1 on.
    rows: [u16; 8],
    /// What is left of the sum of each column, from column 1 on.
    columns: [u16; 8],
    /// The sum of each diagonal so far, from diagonal 1 on.
    diagonals: [u16; 16],
}

impl Left {
    /// All the places to fill, for the rows R and the columns S.
    fn of(r: &Exps, s: &Exps) -> Self
        ensures rows { (i : ℕ) → i < 8 → slice_index result.rows i ≡ entry r.now i }
        ensures columns { (j : ℕ) → j < 8 → slice_index result.columns j ≡ entry s.now j }
        ensures diagonals { (k : ℕ) → slice_index result.diagonals k ≡ 0 }
    {
        Left {
            rows: numbers_of(r),
            columns: numbers_of(s),
            diagonals: [0; 16],
        }
    }

    /// The least and the greatest number that can stand at this place. The last place of a row or of a column takes
    /// all that is left of it.
    fn range(&self, row: usize, column: usize) -> (u16, u16)
        requires row { row ≤ 8 }
        requires column { column ≤ 8 }
        requires place { 0 < row + column }
        ensures least { result.0 ≡ least row column self.now.rows self.now.columns }
        ensures greatest { result.1 ≡ greatest row column self.now.rows self.now.columns }
    {
        if column == 0 {
            let row_left = self.rows[row - 1];
            (row_left, row_left)
        } else if row == 0 {
            let column_left = self.columns[column - 1];
            (column_left, column_left)
        } else {
            (
                0,
                (self.rows[row - 1] >> column).min(self.columns[column - 1]),
            )
        }
    }

    /// What is left with `number` put at this place, which shares no binary digit with its diagonal.
    fn put(mut self, row: usize, column: usize, number: u16) -> Self
        requires row { row ≤ 8 }
        requires column { column ≤ 8 }
        requires place { 0 < row + column }
        requires least { least row column self.rows self.columns ≤ number }
        requires greatest { number ≤ greatest row column self.rows self.columns }
        ensures rows { result.rows ≡ taken row (number * 2 ^ column) self.rows }
        ensures columns { result.columns ≡ taken column number self.columns }
        ensures diagonals { result.diagonals ≡ slice_set self.diagonals (row + column - 1)
            (bit_or (slice_index self.diagonals (row + column - 1)) number) }
    {
        if row > 0 {
            self.rows[row - 1] = less(self.rows[row - 1], number, column);
        }
        if column > 0 {
            self.columns[column - 1] -= number;
        }
        // With no digit in common this is the sum, and it cannot overflow.
        self.diagonals[row + column - 1] |= number;
        self
    }
}

/// What is left of a row's sum once `number` stands in this column.
pub(crate) fn less(left: u16, number: u16, column: usize) -> u16
    requires column { column ≤ 8 }
    requires number { number * 2 ^ column ≤ left }
    ensures { result ≡ left - number * 2 ^ column }
{
    left - (number << column)
}

/// The place that is filled after this one, in a matrix with columns 0 to `width`.
pub(crate) fn next_place(width: usize, row: usize, column: usize) -> (usize, usize)
    requires { 0 < row + column }
    ensures row { result.0 ≡ next_row row column }
    ensures column { result.1 ≡ next_column width row column }
{
    if column > 0 {
        (row, column - 1)
    } else {
        (row - 1, width)
    }
}

/// The exponents, with zeros at the end.
pub(crate) fn numbers_of(r: &Exps) -> [u16; MAX_EXPONENTS]
    ensures { (i : ℕ) → i < 8 → slice_index result i ≡ entry r.now i }
{
    let mut numbers = [0; MAX_EXPONENTS];
    for i in 0..MAX_EXPONENTS {
        numbers[i] = r.exponent(i);
    }
    numbers
}

/// Whether all of these numbers are 0.
pub(crate) fn is_zero(numbers: &[u16]) -> bool
    ensures { IsTrue result ↔ EachIndex numbers.now (λ k. slice_index numbers.now k ≡ 0) }
{
    numbers.iter().all(|number| *number == 0)
}

/// The place of Sq(R) in the basis of degree `n`; none where R is of another degree.
pub(crate) fn place_in(basis: &Basis, n: u16, r: &Exps) -> Option<usize>
    requires { n ≤ basis.now }
    ensures found { IfSome result (λ i. slice_get (basis_of n) i ≡ Some r.now) }
    ensures none { IsNone result → (k : ℕ) → k < length (basis_of n) → r.now ≢ element n k }
{
    let (degree, place) = basis.place(r)?;
    if degree == n { Some(place) } else { None }
}

/// The place in the basis of degree `n` of the element whose exponents these are; none where it is of another degree.
pub(crate) fn place_of_diagonals(basis: &Basis, n: u16, diagonals: &[u16; 16]) -> Option<usize>
    requires degree { n ≤ basis.now }
    requires small { n ≤ 255 }
    ensures found { IfSome result (λ i. slice_get (basis_of n) i ≡ Some (trimmed diagonals.now)) }
    ensures none { IsNone result → (k : ℕ) → k < length (basis_of n) → trimmed diagonals.now ≢ element n k }
{
    let (first, rest) = diagonals.split_at(MAX_EXPONENTS);
    if !is_zero(rest) {
        return None;
    }
    let mut exponents = [0; MAX_EXPONENTS];
    exponents.copy_from_slice(first);
    place_in(basis, n, &Exps::of(exponents))
}

/// Turns over the bit of the basis element of this degree whose exponents these are, if there is one. In a product there
/// always is one, but the code does not rest on that law.
fn turn_over(basis: &Basis, degree: u16, diagonals: &[u16; 16], bits: &mut BitVec)
    requires degree { degree ≤ basis.now }
    requires small { degree ≤ 255 }
    requires bits { length bits.old ≡ length (basis_of degree) }
    ensures turned { TurnsOverEqual degree diagonals.now bits.old bits.new }
    ensures size { length bits.new ≡ length bits.old }
{
    if let Some(place) = place_of_diagonals(basis, degree, diagonals) {
        bits.flip(place);
    }
}

/// Turns over, for each way to fill the places up to (row, column), the bit of its exponent list.
fn fill(
    basis: &Basis,
    degree: u16,
    width: usize,
    row: usize,
    column: usize,
    left: Left,
    bits: &mut BitVec,
)
    requires degree { degree ≤ basis.now }
    requires small { degree ≤ 255 }
    requires bits { length bits.old ≡ length (basis_of degree) }
    requires row { row ≤ 8 }
    requires width { width ≤ 8 }
    requires column { column ≤ width }
    ensures turned { TurnsOver degree width row column left.rows left.columns left.diagonals bits.old bits.new }
    ensures size { length bits.new ≡ length bits.old }
{
    if row == 0 && column == 0 {
        turn_over(basis, degree, &left.diagonals, bits);
        return;
    }
    let (next_row, next_column) = next_place(width, row, column);
    let sum = left.diagonals[row + column - 1];
    let (least, greatest) = left.range(row, column);
    let mut number = u32::from(least);
    while number <= u32::from(greatest) {
        let put = number as u16;
        if put & sum == 0 {
            fill(
                basis,
                degree,
                width,
                next_row,
                next_column,
                left.put(row, column, put),
                bits,
            );
            number = next_apart(put, sum);
        } else {
            number += 1;
        }
    }
}

/// The least number above `number` that shares no binary digit with `sum`, where `number` does not.
pub(crate) fn next_apart(number: u16, sum: u16) -> u32
    requires { bit_and number sum ≡ 0 }
    ensures above { number < result }
    ensures least { (v : ℕ) → number < v → v < result → bit_and v sum ≢ 0 }
{
    // The digits of `sum` carry the 1 past themselves.
    let past = u32::from(number) + u32::from(sum) + 1;
    past - (past & u32::from(sum))
}

/// The elements whose bit is set, in order.
fn chosen(alloc: Global, elements: &[Exps], bits: &BitVec) -> Result<Vec<Exps>, Memory>
    requires { length bits.now ≡ length elements.now }
    ensures { IfOk result (λ terms. AreChosen elements.now bits.now terms.items) }
{
    let mut terms = Vec::new(alloc);
    for (i, element) in elements.iter().enumerate() {
        if bits.get(i) {
            terms.push(*element)?;
        }
    }
    Ok(terms)
}

/// The degree of the products of elements of this degree with Sq(S), which is at most the basis's greatest.
pub(crate) fn degree_of_products(basis: &Basis, degree: u16, s: &Exps) -> u16
    requires { degree + degree_of s.now ≤ basis.now }
    ensures sum { result ≡ degree + degree_of s.now }
    ensures small { result ≤ 255 }
{
    let Some((right, _)) = basis.place(s) else {
        unreachable!()
    };
    degree + right
}

/// The degree of the product of Sq(R) and Sq(S), which is at most the basis's greatest.
pub(crate) fn product_degree(basis: &Basis, r: &Exps, s: &Exps) -> u16
    requires { degree_of r.now + degree_of s.now ≤ basis.now }
    ensures sum { result ≡ degree_of r.now + degree_of s.now }
    ensures small { result ≤ 255 }
{
    let Some((left, _)) = basis.place(r) else {
        unreachable!()
    };
    degree_of_products(basis, left, s)
}

/// The coefficients mod 2 of the product of Sq(R) and Sq(S): for each element of the basis of the product's degree,
/// in basis order, whether its coefficient in Milnor's formula is odd. They are made anew, and not kept.
///
/// # Errors
/// `Memory` if allocation fails.
pub(crate) fn coefficients(
    alloc: Global,
    basis: &Basis,
    r: &Exps,
    s: &Exps,
) -> Result<BitVec, Memory>
    requires { degree_of r.now + degree_of s.now ≤ basis.now }
    ensures { IfOk result (λ bits. bits ≡ product_bits r.now s.now) }
{
    let degree = product_degree(basis, r, s);
    let mut bits = BitVec::zero(alloc, basis.of_degree(degree).len())?;
    let (height, width) = (r.len(), s.len());
    fill(
        basis,
        degree,
        width,
        height,
        width,
        Left::of(r, s),
        &mut bits,
    );
    Ok(bits)
}

/// The terms of the product of Sq(R) and Sq(S) whose coefficient is odd, each once, in basis order.
///
/// # Errors
/// `Memory` if allocation fails.
pub fn terms(alloc: Global, basis: &Basis, r: &Exps, s: &Exps) -> Result<Vec<Exps>, Memory>
    requires { degree_of r.now + degree_of s.now ≤ basis.now }
    ensures { IfOk result (λ terms. terms.items ≡ product_terms r.now s.now) }
{
    let elements = basis.of_degree(product_degree(basis, r, s));
    let bits = basis.coefficients(alloc, r, s)?;
    chosen(alloc, elements, &bits)
}
