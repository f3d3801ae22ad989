//! The coefficients of Sq(R) on the basis of a module, and of those of modules made of others.
ghost use Rattle.std.specs.Prelude.{◌≡◌, ◌<◌, ◌+◌, ◌*◌, ℕ, pos, ◌+ℤ◌, length, map, IfOk, EachIndex, slice_index_or};
ghost use Rattle.std.specs.List.{range_with_len};
ghost use Rattle.module_spec.specs.Spec.{degree_at};
ghost use Rattle.finite_module.specs.Module.{generators_in};
ghost use Rattle.built_laws.specs.Built.{action_of};
ghost use Rattle.module_build.specs.Inside.Splittings.{sum_over};
ghost use Rattle.module_build.specs.Inside.Construction.{blocks_at, pairs_at, entry_of, width_of, number_at};

use crate::order::Placed;
use crate::splittings::Splitting;
use f2_vec::BitVec;
use finite_module::{Generators, Operator, Operators};
use memory::Memory;
use milnor_basis::Exps;
use std::alloc::Global;

/// The coefficients of Sq(R) on a numbered basis.
#[derive(Drop)]
pub(crate) enum Coefficients<'a> {
    /// The coefficients of a module.
    Same {
        operators: &'a Operators,
        r: Exps,
    },
    /// The coefficients of a module, turned round.
    Turned {
        operators: &'a Operators,
        r: Exps,
    },
    /// The coefficients of two modules, and zero between them.
    Blocks {
        left: &'a Operators,
        right: &'a Operators,
        r: Exps,
    },
    /// The sums over the splittings of R of those of two modules.
    Pairs {
        left: &'a Operators,
        right: &'a Operators,
        splittings: Vec<Splitting>,
    },
}

impl Coefficients<'_> {
    /// The coefficient of basis element `y` in Sq(R) on basis element `x`.
    fn at(&self, x: usize, y: usize) -> bool
        requires from { x < width_of self.now }
        requires to { y < width_of self.now }
        ensures { result ≡ entry_of self.now x y }
    {
        match self {
            Coefficients::Same { operators, r } => coefficient(operators, r, x, y),
            Coefficients::Turned { operators, r } => coefficient(operators, r, y, x),
            Coefficients::Blocks { left, right, r } => coefficient_in_sum(left, right, r, x, y),
            Coefficients::Pairs {
                left,
                right,
                splittings,
            } => coefficient_in_tensor(left, right, splittings.as_slice(), x, y),
        }
    }

    /// Sq(R), of degree `n`, on the basis in this order.
    pub(crate) fn operator(
        &self,
        alloc: Global,
        generators: &Generators,
        order: &[Placed],
        n: u32,
    ) -> Result<Operator, Memory>
        requires count { length order.now ≡ length generators.now }
        requires numbers { EachIndex order.now (λ i. number_at order.now i < width_of self.now) }
        ensures { IfOk result (λ operator. operator ≡ map
            (λ i. map (λ j. entry_of self.now (number_at order.now i) (number_at order.now j))
            (generators_in generators.now (degree_at generators.now i +ℤ pos n)))
            (range_with_len 0 (length generators.now))) }
    {
        let count = generators.count();
        let mut values = Vec::with_capacity(alloc, count)?;
        for i in 0..count {
            values.push(self.value(alloc, generators, order, n, i)?)?;
        }
        Ok(Operator::of(values))
    }

    /// Its value on generator `i`.
    fn value(
        &self,
        alloc: Global,
        generators: &Generators,
        order: &[Placed],
        n: u32,
        i: usize,
    ) -> Result<BitVec, Memory>
        requires count { length order.now ≡ length generators.now }
        requires numbers { EachIndex order.now (λ i. number_at order.now i < width_of self.now) }
        requires generator { i < length generators.now }
        ensures { IfOk result
            (λ value. value ≡ map (λ j. entry_of self.now (number_at order.now i) (number_at order.now j))
            (generators_in generators.now (degree_at generators.now i +ℤ pos n))) }
    {
        let t = i64::from(generators.degree(i)) + i64::from(n);
        let range = generators.within(t);
        let mut value = BitVec::zero(alloc, 0)?;
        for j in range.start..range.end {
            value.push(self.at(order[i].number, order[j].number))?;
        }
        Ok(value)
    }
}

/// Whether Sq(R) takes generator `x` to a sum with generator `y`.
pub(crate) fn coefficient(operators: &Operators, r: &Exps, x: usize, y: usize) -> bool
    requires from { x < length operators.now.generators }
    requires to { y < length operators.now.generators }
    ensures { result ≡ (action_of operators.now).coefficient r.now x y }
{
    let generators = operators.generators();
    let t = i64::from(generators.degree(x)) + i64::from(r.degree());
    if i64::from(generators.degree(y)) != t {
        return false;
    }
    match operators.value_ref(r, x) {
        Some(value) => value.get(y - generators.within(t).start),
        None => false,
    }
}

/// The coefficient of Sq(R) between two generators of the sum of two modules, whose generators are numbered one part after the other.
pub(crate) fn coefficient_in_sum(
    left: &Operators,
    right: &Operators,
    r: &Exps,
    x: usize,
    y: usize,
) -> bool
    requires from { x < length left.now.generators + length right.now.generators }
    requires to { y < length left.now.generators + length right.now.generators }
    ensures { result ≡ blocks_at left.now right.now r.now x y }
{
    let count = left.generators().count();
    match (x < count, y < count) {
        (true, true) => coefficient(left, r, x, y),
        (false, false) => coefficient(right, r, x - count, y - count),
        _ => false,
    }
}

/// The coefficient of Sq(R) between two basis elements of the tensor product of two modules, for the splittings of R. The basis elements are numbered row by row, a row
/// for each generator on the left.
pub(crate) fn coefficient_in_tensor(
    left: &Operators,
    right: &Operators,
    splittings: &[Splitting],
    x: usize,
    y: usize,
) -> bool
    requires from { x < length left.now.generators * length right.now.generators }
    requires to { y < length left.now.generators * length right.now.generators }
    ensures { result ≡ sum_over (pairs_at left.now right.now x y) splittings.now }
{
    let mut odd = false;
    for splitting in splittings {
        let here = coefficient_of_splitting(left, right, splitting, x, y);
        odd = odd != here;
    }
    odd
}

/// What one splitting of R gives to it.
fn coefficient_of_splitting(
    left: &Operators,
    right: &Operators,
    splitting: &Splitting,
    x: usize,
    y: usize,
) -> bool
    requires from { x < length left.now.generators * length right.now.generators }
    requires to { y < length left.now.generators * length right.now.generators }
    ensures { result ≡ pairs_at left.now right.now x y (splitting.now.left, splitting.now.right) }
{
    let count = right.generators().count();
    coefficient(left, &splitting.left, x / count, y / count)
        && coefficient(right, &splitting.right, x % count, y % count)
}
