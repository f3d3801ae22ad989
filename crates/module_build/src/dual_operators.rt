//! The operators of a dual.
ghost use Rattle.std.specs.Prelude.{◌≡◌, ◌<◌, ◌+◌, ℕ, All, length, map, pos, ◌+ℤ◌, IfOk};
ghost use Rattle.f2_vec.specs.Vectors.{sum_of};
ghost use Rattle.milnor_basis.specs.Exponents.{degree_of};
ghost use Rattle.module_spec.specs.Spec.{degree_at};
ghost use Rattle.finite_module.specs.Module.{generators_in, width, value};
ghost use Rattle.finite_module.specs.DerivedAction.{span};
ghost use Rattle.built_laws.specs.Built.{operator_on, values_on};
ghost use Rattle.module_build.specs.Inside.Construction.{dual_by, dual_term, IsDualOrder, HasValuesBelow};
ghost use Rattle.module_build.specs.Inside.Splittings.{AreSplittings, IsSplitting};

use crate::coefficients::coefficient;
use crate::order::Placed;
use crate::splittings::{Splitting, splittings_from};
use f2_vec::BitVec;
use finite_module::{Module, Operator, Operators};
use memory::Memory;
use milnor_basis::Exps;
use std::alloc::Global;

/// Sq(R), of positive degree, on the generators of the dual of a module, by the operators of lower degrees.
///
/// Sq(R) on f is f after the conjugate of Sq(R), which is the sum over the splittings of R, A not (), of Sq(A) after the conjugate of
/// Sq(B). So Sq(R) on f is the sum of Sq(B) on f after Sq(A).
pub(crate) fn dual_operator(
    alloc: Global,
    given: &Module,
    before: &Operators,
    order: &[Placed],
    r: &Exps,
) -> Result<Operator, Memory>
    requires order { IsDualOrder given.now.plain before.now.generators order.now }
    requires positive { 0 < degree_of r.now }
    requires before { HasValuesBelow (degree_of r.now) (dual_by given.now.plain order.now) before.now }
    ensures { IfOk result
        (λ operator. operator ≡ operator_on before.now.generators (dual_by given.now.plain order.now) r.now) }
{
    let splittings = splittings_from(alloc, given.operators().basis(), r, 0)?;
    let count = before.generators().count();
    let mut values = Vec::with_capacity(alloc, count)?;
    for i in 0..count {
        let value = dual_value(alloc, given, before, order, splittings.as_slice(), r, i)?;
        values.push(value)?;
    }
    Ok(Operator::of(values))
}

/// Sq(R) on generator `i` of the dual.
fn dual_value(
    alloc: Global,
    given: &Module,
    before: &Operators,
    order: &[Placed],
    splittings: &[Splitting],
    r: &Exps,
    i: usize,
) -> Result<BitVec, Memory>
    requires order { IsDualOrder given.now.plain before.now.generators order.now }
    requires positive { 0 < degree_of r.now }
    requires before { HasValuesBelow (degree_of r.now) (dual_by given.now.plain order.now) before.now }
    requires sums { AreSplittings 0 (span given.now.plain.generators) r.now splittings.now }
    requires each { All (IsSplitting r.now) splittings.now }
    requires generator { i < length before.now.generators }
    ensures { IfOk result (λ v. v ≡ values_on before.now.generators (dual_by given.now.plain order.now) r.now i) }
{
    let generators = before.generators();
    let t = i64::from(generators.degree(i)) + i64::from(r.degree());
    let width = generators.dim_in(t);
    let mut value = BitVec::zero(alloc, width)?;
    if width == 0 {
        return Ok(value);
    }
    for splitting in splittings {
        if !splitting.left.is_empty() {
            add_splitting(&mut value, given, before, order, splitting, i);
        }
    }
    Ok(value)
}

/// Adds Sq(B) on the sum of the generators of the dual that Sq(A) of the module takes to the one that is dual to generator
/// `i`. Only generators of the degree that is met are looked at.
fn add_splitting(
    sum: &mut BitVec,
    given: &Module,
    before: &Operators,
    order: &[Placed],
    splitting: &Splitting,
    i: usize,
)
    requires order { IsDualOrder given.now.plain before.now.generators order.now }
    requires before { (k : ℕ) → k < length before.now.generators →
        value before.now.generators before.now.operators splitting.now.right k
        ≡ values_on before.now.generators (dual_by given.now.plain order.now) splitting.now.right k }
    requires generator { i < length before.now.generators }
    requires width { length sum.old ≡ width before.now.generators
        (degree_at before.now.generators i +ℤ pos (degree_of splitting.now.left + degree_of splitting.now.right)) }
    ensures { sum.new
        ≡ sum_of sum.old (map (λ j. dual_term given.now.plain order.now i j (splitting.now.left, splitting.now.right))
        (generators_in before.now.generators (degree_at before.now.generators i
        +ℤ pos (degree_of splitting.now.left + degree_of splitting.now.right)))) }
{
    let generators = before.generators();
    let t = i64::from(generators.degree(i)) + i64::from(splitting.left.degree());
    let range = generators.within(t);
    for k in range.start..range.end {
        if coefficient(
            given.operators(),
            &splitting.left,
            order[k].number,
            order[i].number,
        ) {
            before.add_value(sum, &splitting.right, k);
        }
    }
}
