//! Products of basis elements, and multiples of sums of them, as vectors.
ghost use Rattle.std.specs.Prelude.{◌≡◌, ◌≤◌, ◌+◌, pos, ◌≤ℤ◌, length, IfOk};
ghost use Rattle.milnor_basis.specs.Basis.{basis_of};
ghost use Rattle.milnor_basis.specs.Exponents.{degree_of};
ghost use Rattle.milnor_basis.specs.Product.{product_bits};
ghost use Rattle.milnor_product.specs.Times.{basis_at, times_at};

use f2_vec::BitVec;
use memory::Memory;
use milnor_basis::{Basis, Exps};
use std::alloc::Global;

/// The Milnor basis of degree `n`, in right lexicographic order; none where that is negative.
pub fn elements_at(basis: &Basis, n: i64) -> &[Exps]
    requires { n ≤ℤ pos basis.now }
    ensures { result.now ≡ basis_at n }
{
    // A degree of the basis fits `u16`, so `n` does where it is not negative.
    prove!(n <= i64::from(basis.max()));
    match u16::try_from(n) {
        Ok(n) => basis.of_degree(n),
        Err(_) => &[],
    }
}

/// The degree of a product of Sq(R) and an element of degree `n`, which is at most the basis's greatest.
fn degree_above(basis: &Basis, r: &Exps, n: u16) -> u16
    requires { degree_of r.now + n ≤ basis.now }
    ensures { result ≡ degree_of r.now + n }
{
    // A degree of the basis fits `u16`, so the sum does.
    let greatest = u32::from(basis.max());
    let degree = r.degree() + u32::from(n);
    prove!(degree <= greatest);
    degree as u16
}

/// The product of Sq(R) and Sq(S), as its coefficients on the basis of its degree.
///
/// # Errors
/// `Memory` if allocation fails.
pub fn product(alloc: Global, basis: &Basis, r: &Exps, s: &Exps) -> Result<BitVec, Memory>
    requires { degree_of r.now + degree_of s.now ≤ basis.now }
    ensures { IfOk result (λ v. v ≡ product_bits r.now s.now) }
{
    basis.coefficients(alloc, r, s)
}

/// Sq(R) times `v`, a sum of basis elements of degree `deg`. Both vectors are coefficients on the bases of their
/// degrees.
///
/// # Errors
/// `Memory` if allocation fails.
pub fn times(alloc: Global, basis: &Basis, r: &Exps, deg: u16, v: &BitVec) -> Result<BitVec, Memory>
    requires reach { degree_of r.now + deg ≤ basis.now }
    requires width { length v.now ≡ length (basis_of deg) }
    ensures { IfOk result (λ w. w ≡ times_at r.now (pos deg) v.now) }
{
    let width = basis.of_degree(degree_above(basis, r, deg)).len();
    let mut sum = BitVec::zero(alloc, width)?;
    for (i, s) in basis.of_degree(deg).iter().enumerate() {
        if v.get(i) {
            sum.xor_with(&product(alloc, basis, r, s)?);
        }
    }
    Ok(sum)
}
