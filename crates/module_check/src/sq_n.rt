//! Sq^n on a generator: as the file lists it, or by an Adem relation.
ghost use Rattle.std.specs.Prelude.{◌≡◌, ◌<◌, ◌+◌, ◌^◌, pos, ◌+ℤ◌, length, IfOk};
ghost use Rattle.milnor_basis.specs.Product.{choose, is_odd};
ghost use Rattle.module_spec.specs.Spec.{degree_at};
ghost use Rattle.finite_module.specs.Module.{width};
ghost use Rattle.finite_module.specs.DerivedAction.{listed_sum, power_below, twice, by_adem, square_value};

use f2_vec::BitVec;
use finite_module::{Operators, sq};
use memory::Memory;
use module_spec::Spec;
use std::alloc::Global;

/// The value of Sq^n on generator `i`: as the file lists it where n is a power of two, and else by an Adem relation.
pub(crate) fn square_value(
    alloc: Global,
    spec: &Spec,
    operators: &Operators,
    n: u16,
    i: usize,
) -> Result<BitVec, Memory>
    requires generators { operators.now.generators ≡ spec.now.generators }
    requires generator { i < length operators.now.generators }
    requires number { 0 < n }
    ensures { IfOk result (λ v. v ≡ square_value spec.now operators.now.operators n i) }
{
    if n.is_power_of_two() {
        let generators = operators.generators();
        let t = i64::from(generators.degree(i)) + i64::from(n);
        return generators.sum(alloc, listed(spec, n, i), t);
    }
    let power = power_below(n);
    by_adem(alloc, operators, n - power, power, i)
}

/// The generators of the sum that is listed for Sq^n on generator `i`, none where no sum is listed.
fn listed(spec: &Spec, n: u16, i: usize) -> &[usize]
    ensures { result.now ≡ listed_sum spec.now.entries n i }
{
    for k in 0..spec.entries() {
        let (number, generator, sum) = spec.entry(k);
        if number == u32::from(n) && generator == i {
            return sum;
        }
    }
    &[]
}

/// The greatest power of two below `n`.
fn power_below(n: u16) -> u16
    requires { 1 < n }
    ensures power { result ≡ power_below n }
    ensures positive { 0 < result }
    ensures below { result < n }
{
    let mut power = 1;
    while power < n - power {
        power *= 2;
    }
    power
}

/// Sq^n on generator `i` by the Adem relation for Sq^a Sq^b, where n is the sum of a and b.
fn by_adem(alloc: Global, operators: &Operators, a: u16, b: u16, i: usize) -> Result<BitVec, Memory>
    requires generator { i < length operators.now.generators }
    requires first { 0 < a }
    requires second { 0 < b }
    requires small { a + b < 2 ^ 16 }
    ensures { IfOk result (λ v. v ≡ by_adem operators.now.generators operators.now.operators a b i) }
{
    let mut sum = twice(alloc, operators, a, b, i)?;
    for c in 1..a / 2 + 1 {
        if is_odd_choice(b.saturating_sub(c).saturating_sub(1), a - 2 * c) {
            let term = twice(alloc, operators, a + b - c, c, i)?;
            sum.xor_with(&term);
        }
    }
    Ok(sum)
}

/// Sq^p on Sq^q on generator `i`.
fn twice(alloc: Global, operators: &Operators, p: u16, q: u16, i: usize) -> Result<BitVec, Memory>
    requires generator { i < length operators.now.generators }
    requires first { 0 < p }
    requires second { 0 < q }
    ensures value { IfOk result (λ v. v ≡ twice operators.now.generators operators.now.operators p q i) }
    ensures width { IfOk result
        (λ v. length v ≡ width operators.now.generators (degree_at operators.now.generators i +ℤ pos (p + q))) }
{
    let value = operators.value(alloc, &sq(q), i)?;
    let t = i64::from(operators.generators().degree(i)) + i64::from(q);
    operators.act_on(alloc, &sq(p), t, &value)
}

/// Whether there is an odd number of ways to choose k of n: where k is not above n, and shares no binary digit with n - k.
fn is_odd_choice(n: u16, k: u16) -> bool
    ensures { result ≡ is_odd (choose n k) }
{
    k <= n && k & (n - k) == 0
}
