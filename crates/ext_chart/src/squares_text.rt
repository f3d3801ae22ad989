//! A product of Steenrod's squares as text.
ghost use Rattle.std.specs.Prelude.{◌≡◌, ◌≤◌, length, IfOk};
ghost use Rattle.milnor_basis.specs.Basis.{basis_of};
ghost use Rattle.ext_chart.specs.Product.{monomial_text, milnor_text, admissible_text, product_text};

use f2_vec::BitVec;
use itoa::Buffer;
use memory::Memory;
use milnor_basis::{Basis, sq_text};
use sq_calc::{Mono, Sum};
use std::alloc::Global;

/// What a sum without terms is written as.
pub(crate) const ZERO: &[u8] = b"0";

/// A vector of degree `deg` as a sum of elements of Milnor's basis.
fn milnor_text(alloc: Global, basis: &Basis, deg: u16, v: &BitVec) -> Result<Vec<u8>, Memory>
    requires degree { deg ≤ basis.now }
    requires width { length v.now ≡ length (basis_of deg) }
    ensures { IfOk result (λ text. text.items ≡ milnor_text deg v.now) }
{
    let elements = basis.of_degree(deg);
    let ones = v.ones(alloc)?;
    if ones.is_empty() {
        return Ok(Vec::from_slice(alloc, ZERO)?);
    }
    let mut text = Vec::new(alloc);
    for (k, i) in ones.iter().enumerate() {
        if k > 0 {
            text.extend_from_slice(b" + ")?;
        }
        let term = sq_text(alloc, &elements[*i])?;
        text.extend_from_slice(term.as_bytes())?;
    }
    Ok(text)
}

/// A monomial, such as `Sq5 Sq1`.
fn monomial_text(alloc: Global, monomial: &Mono) -> Result<Vec<u8>, Memory>
    ensures { IfOk result (λ text. text.items ≡ monomial_text monomial.now) }
{
    let mut buffer = Buffer::new();
    let mut text = Vec::new(alloc);
    for (i, number) in monomial.numbers().iter().enumerate() {
        if i > 0 {
            text.push(b' ')?;
        }
        text.extend_from_slice(b"Sq")?;
        text.extend_from_slice(buffer.format(*number).as_bytes())?;
    }
    Ok(text)
}

/// A sum of monomials.
fn admissible_text(alloc: Global, sum: &Sum) -> Result<Vec<u8>, Memory>
    ensures { IfOk result (λ text. text.items ≡ admissible_text sum.now) }
{
    let monomials = sum.monomials();
    if monomials.is_empty() {
        return Ok(Vec::from_slice(alloc, ZERO)?);
    }
    let mut text = Vec::new(alloc);
    for (k, monomial) in monomials.iter().enumerate() {
        if k > 0 {
            text.extend_from_slice(b" + ")?;
        }
        let term = monomial_text(alloc, monomial)?;
        text.extend_from_slice(term.as_slice())?;
    }
    Ok(text)
}

/// A vector of degree `deg` as a sum of elements of Milnor's basis, in the order of the basis, and a sum of monomials in squares that
/// stands for the same: a line each, `milnor: Sq(6) + Sq(3,1)` and `admissible: Sq6 + Sq5 Sq1`, with `0` for no terms.
///
/// # Errors
/// `Memory` if allocation fails.
pub fn product(
    alloc: Global,
    basis: &Basis,
    deg: u16,
    v: &BitVec,
    admissible: &Sum,
) -> Result<Vec<u8>, Memory>
    requires degree { deg ≤ basis.now }
    requires width { length v.now ≡ length (basis_of deg) }
    ensures { IfOk result (λ text. text.items ≡ product_text deg v.now admissible.now) }
{
    let milnor = milnor_text(alloc, basis, deg, v)?;
    let admissible = admissible_text(alloc, admissible)?;
    let mut text = Vec::from_slice(alloc, b"milnor: ")?;
    text.extend_from_slice(milnor.as_slice())?;
    text.extend_from_slice(b"\nadmissible: ")?;
    text.extend_from_slice(admissible.as_slice())?;
    text.push(b'\n')?;
    Ok(text)
}
