//! Monomials in Milnor's basis, and back.
ghost use Rattle.std.specs.Prelude.{◌≡◌, ◌≤◌, length, IfOk};
ghost use Rattle.std.specs.List.{sum};
ghost use Rattle.milnor_basis.specs.Basis.{basis_of};
ghost use Rattle.adem_laws.specs.Adem.{square};
ghost use Rattle.adem_laws.specs.Admissible.{value, IsAdmissibleForm};
ghost use Rattle.sq_calc.specs.Inside.Unordered.{IsUnorderedForm};

use crate::leading::leading;
use crate::sum::Sum;
use f2_vec::BitVec;
use memory::Memory;
use milnor_basis::{Basis, Exps};
use milnor_product::times;
use monomial::Mono;
use std::alloc::Global;

/// The value of a monomial: the product of its squares, as coefficients on the Milnor basis of its degree, which is the sum of its
/// numbers.
///
/// # Errors
/// `Memory` if allocation fails.
pub fn to_milnor(alloc: Global, basis: &Basis, mono: &Mono) -> Result<BitVec, Memory>
    requires { sum mono.now ≤ basis.now }
    ensures { IfOk result (λ v. v ≡ value mono.now) }
{
    // A degree of the basis fits `u16`, so that of each part of the monomial does.
    let _greatest = basis.max();
    let numbers = mono.numbers();
    let mut product = BitVec::unit(alloc, 1, 0)?;
    let mut degree = 0;
    for i in (0..numbers.len()).rev() {
        product = times(alloc, basis, &square(numbers[i]), degree, &product)?;
        degree += numbers[i];
    }
    Ok(product)
}

/// Sq^n, which is the unit for n = 0.
fn square(n: u16) -> Exps
    ensures { result ≡ square n }
{
    Exps::of([n, 0, 0, 0, 0, 0, 0, 0])
}

/// The one sum of admissible monomials whose value is `v`, a sum of elements of the Milnor basis of degree `deg`. Its monomials stand in
/// lexicographic order, the greatest first.
///
/// # Errors
/// `Memory` if allocation fails.
pub fn to_admissible(alloc: Global, basis: &Basis, deg: u16, v: &BitVec) -> Result<Sum, Memory>
    requires degree { deg ≤ basis.now }
    requires width { length v.now ≡ length (basis_of deg) }
    ensures { IfOk result (λ monomials. IsAdmissibleForm deg v.now monomials) }
{
    let mut monomials = leading_monomials(alloc, basis, deg, v)?;
    monomials.sort()?;
    monomials.reverse();
    Ok(Sum::of(monomials))
}

/// The monomials of that sum, in the order in which they are found: the last basis element of what is left is the leading term of one
/// admissible monomial, whose value is taken off. They are found in the right lexicographic order of their leading terms, in
/// which the system is triangular, and not in their own order: in degree 12 Sq8 Sq4 is found before Sq9 Sq2 Sq1. Each value
/// is made once.
fn leading_monomials(
    alloc: Global,
    basis: &Basis,
    deg: u16,
    v: &BitVec,
) -> Result<Vec<Mono>, Memory>
    requires degree { deg ≤ basis.now }
    requires width { length v.now ≡ length (basis_of deg) }
    ensures { IfOk result (λ monomials. IsUnorderedForm deg v.now monomials.items) }
{
    let elements = basis.of_degree(deg);
    let mut rest = v.try_copy(alloc)?;
    let mut monomials = Vec::new(alloc);
    for i in (0..elements.len()).rev() {
        if rest.get(i) {
            let mono = leading(alloc, &elements[i])?;
            rest.xor_with(&to_milnor(alloc, basis, &mono)?);
            monomials.push(mono)?;
        }
    }
    Ok(monomials)
}
