//! Bases, places, products and texts, against lists made by hand.
ghost use Rattle.std.specs.Prelude.{◌+◌, ◌≤◌};
ghost use Rattle.milnor_basis.specs.Exponents.{degree_of};

use crate::written::sq;
use memory::Memory;
use milnor_basis::{Basis, Exps, sq_text, terms};
use std::alloc::Global;
use std::test::Fail;

#[test]
fn reads_exponents(rt: HostRuntime) {
    let milnor = sq(1, 2);
    assert!(rt; milnor.degree() == 7 && milnor.len() == 2 && milnor.exponent(1) == 2);
    assert!(rt; !milnor.is_empty());
}

#[test]
fn writes_exponents(rt: HostRuntime) -> Result<(), Fail> {
    let text = sq_text(rt.alloc(), &Exps::of([12, 0, 305, 0, 0, 0, 0, 0]))?;
    assert!(rt; text.as_str() == "Sq(12,0,305)");
    Ok(())
}

/// Whether each element of a degree is found at its place.
fn are_placed(basis: &Basis, n: u16) -> bool
    requires { n ≤ basis.now }
{
    let mut all = true;
    for (i, element) in basis.of_degree(n).iter().enumerate() {
        all = all && basis.place(element) == Some((n, i));
    }
    all
}

#[test]
fn lists_and_places(rt: HostRuntime) -> Result<(), Fail> {
    let basis = Basis::new(rt.alloc(), 40)?;
    assert!(rt; basis.of_degree(6) == [sq(6, 0), sq(3, 1), sq(0, 2)].as_slice());
    for n in 0..=basis.max() {
        assert!(rt; are_placed(&basis, n));
    }
    assert!(rt; basis.place(&sq(41, 0)).is_none());
    Ok(())
}

/// The terms of a product, by a basis through degree 3.
fn terms_of(alloc: Global, r: &Exps, s: &Exps) -> Result<Vec<Exps>, Memory>
    requires { degree_of r.now + degree_of s.now ≤ 3 }
{
    let basis = Basis::new(alloc, 3)?;
    terms(alloc, &basis, r, s)
}

// Sq(2) Sq(1) is Sq(3) and Sq(0,1).
#[test]
fn lists_terms(rt: HostRuntime) -> Result<(), Fail> {
    let (two, one) = (sq(2, 0), sq(1, 0));
    assert!(rt; two.degree() <= 2 && one.degree() <= 1);
    let product = terms_of(rt.alloc(), &two, &one)?;
    assert!(rt; product.len() == 2 && product[0] == sq(3, 0) && product[1] == sq(0, 1));
    Ok(())
}

/// Whether a place is paired with that of a term an odd number of times.
fn is_odd(pairs: &[(u16, u16)], place: u16, term: u16) -> bool {
    let mut odd = false;
    for pair in pairs {
        odd ^= pair.0 == place && pair.1 == term;
    }
    odd
}

/// Whether the products of Sq(3) and Sq(0,1) with Sq(2) are 0 and Sq(2,1), the second of Sq(5) and Sq(2,1).
fn has_products(alloc: Global, basis: &Basis) -> Result<bool, Memory> {
    let two = sq(2, 0);
    if basis.max() < 5 || two.degree() > 2 {
        return Ok(false);
    }
    let pairs = basis.multiples(alloc, 3, &two)?.pairs();
    let first = is_odd(pairs, 0, 0) || is_odd(pairs, 0, 1);
    Ok(!first && !is_odd(pairs, 1, 0) && is_odd(pairs, 1, 1))
}

// They are made the first time, and kept the second.
#[test]
fn keeps_products(rt: HostRuntime) -> Result<(), Fail> {
    let basis = Basis::new(rt.alloc(), 5)?;
    assert!(rt; has_products(rt.alloc(), &basis)?);
    assert!(rt; has_products(rt.alloc(), &basis)?);
    Ok(())
}
