//! The terms of vectors of a free module, and the sums of their products.
ghost use Rattle.std.specs.Prelude.{◌≡◌, ◌≤◌, ◌<◌, ◌+◌, ◌++◌, ℕ, false, [], length, map, drop, slice_index, slice_index_or, All, EachIndex, IfOk, IfSome, IsNone};
ghost use Rattle.std.specs.List.{items_where_true};
ghost use Rattle.f2_vec.specs.Vectors.{bit, placed, sum_of, IsNextOne};
ghost use Rattle.f2_vec.specs.Spans.{row};
ghost use Rattle.milnor_basis.specs.Basis.{basis_of};
ghost use Rattle.milnor_basis.specs.Exponents.{degree_of};
ghost use Rattle.milnor_basis.specs.Product.{product_bits};
ghost use Rattle.free_module.specs.Columns.{IsTableOfColumns, AreAdded};
ghost use Rattle.free_module.specs.Inside.Terms.{term_at, factors_at, products_at};

use f2_vec::BitVec;
use memory::Memory;
use milnor_basis::{Basis, Exps, Multiples};
use std::alloc::Global;

/// A basis element Sq(S) on a generator, which has a 1 in a vector.
#[derive(Drop)]
pub(crate) struct Term {
    /// S.
    pub(crate) right: Exps,
    /// How many elements stand before those of the generator in the degree of the products.
    pub(crate) offset: usize,
}

/// `terms`, and behind them one with this offset for each 1 of `v` among the coordinates of these elements, which begin at
/// place `start`.
pub(crate) fn with_block(
    mut terms: Vec<Term>,
    v: &BitVec,
    start: usize,
    elements: &[Exps],
    offset: usize,
) -> Result<Vec<Term>, Memory>
    requires { start + length elements.now ≤ length v.now }
    ensures { IfOk result
        (λ all. all.items ≡ terms.items ++ map (term_at offset) (items_where_true (drop start v.now) elements.now)) }
{
    // A length fits `usize`, so the end of the block does.
    prove!(start <= v.len());
    let end = start + elements.len();
    let mut from = start;
    while let Some(i) = one_between(v, from, end) {
        let right = elements[i - start];
        terms.push(Term { right, offset })?;
        from = i + 1;
    }
    Ok(terms)
}

/// The first place at or after `from` and before `end` that holds a 1.
fn one_between(v: &BitVec, from: usize, end: usize) -> Option<usize>
    ensures none { IsNone result → (k : ℕ) → from ≤ k → k < end → bit v.now k ≡ false }
    ensures next { IfSome result (λ p. IsNextOne v.now from p) }
    ensures within { IfSome result (λ p. p < end) }
{
    match v.next_one(from) {
        Some(place) if place < end => Some(place),
        _ => None,
    }
}

/// The products of the elements of this degree with the element of each term. They are found one right after the other, so that
/// a processor that waits for one from memory is on the way to the next.
///
/// # Errors
/// `Memory` if allocation fails.
pub(crate) fn multiples_of<'a>(
    alloc: Global,
    basis: &'a Basis,
    degree: u16,
    terms: &[Term],
) -> Result<Vec<&'a Multiples>, Memory>
    requires { All (λ x. degree + degree_of x.right ≤ basis.now) terms.now }
    ensures { IfOk result (λ found. map (λ m. m.now) found.items ≡ map (factors_at degree) terms.now) }
{
    let mut found = Vec::with_capacity(alloc, terms.len())?;
    for term in terms {
        found.push(basis.multiples(alloc, degree, &term.right)?)?;
    }
    Ok(found)
}

/// Adds to each row the product with the element at its place, moved up to place `offset`.
pub(crate) fn add_products(rows: &mut [BitVec], offset: usize, multiples: &Multiples)
    requires count { length rows.old ≡ length (basis_of multiples.now.degree) }
    requires room { EachIndex rows.old
        (λ k. offset + length (basis_of (multiples.now.degree + degree_of multiples.now.right))
        ≤ length (row rows.old k)) }
    ensures { EachIndex rows.old (λ k. row rows.new k ≡ sum_of (row rows.old k) (placed (length (row rows.old k)) offset
        (product_bits (slice_index_or (basis_of multiples.now.degree) k []) multiples.now.right))) }
{
    for pair in multiples.pairs() {
        let row = &mut rows[usize::from(pair.0)];
        // The length fits `usize`, so each place does.
        let _len = row.len();
        row.flip(offset + usize::from(pair.1));
    }
}

/// Adds the product with each element, moved up to place `offset`, to the columns, from place `end` - 1 down. The table
/// has for each place the number of the column that goes with it.
pub(crate) fn add_to_columns(
    columns: &mut [BitVec],
    table: &[Option<usize>],
    end: usize,
    offset: usize,
    multiples: &Multiples,
)
    requires table { IsTableOfColumns (length columns.old) table.now }
    requires lengths { (j : ℕ) → j < length columns.old → end ≤ length (row columns.old j) }
    requires few { length (basis_of multiples.now.degree) ≤ end }
    requires room { offset + length (basis_of (multiples.now.degree + degree_of multiples.now.right))
        ≤ length table.now }
    ensures { AreAdded table.now end
        (products_at (length table.now) offset multiples.now.degree multiples.now.right) columns.old columns.new }
{
    for pair in multiples.pairs() {
        let place = offset + usize::from(pair.1);
        if let Some(column) = table[place] {
            columns[column].flip(end - 1 - usize::from(pair.0));
        }
    }
}
