//! The action that a module file gives: each Sq(R) on each generator.
ghost use Rattle.std.specs.Prelude.{◌≡◌, ◌<◌, ◌≤◌, ◌+◌, ◌++◌, pos, ◌+ℤ◌, ◌∷◌, [], drop, length, map, take, slice_index_or, EachIndex, IfOk, OnOk};
ghost use Rattle.std.specs.List.{range_with_len};
ghost use Rattle.milnor_basis.specs.Exponents.{degree_of, entry};
ghost use Rattle.milnor_basis.specs.Basis.{basis_of};
ghost use Rattle.module_spec.specs.Spec.{degree_at};
ghost use Rattle.module_spec.specs.declared.limits.TheConstants.{MAX_SPAN};
ghost use Rattle.finite_module.specs.Module.{width, unit};
ghost use Rattle.milnor_basis.specs.Front.{front};
ghost use Rattle.finite_module.specs.DerivedAction.{square_value, other_terms, by_product, derived_operator, derived_from, elements, span, derived_module};

use crate::exponents::{front, rest};
use crate::sq_n::square_value;
use f2_vec::BitVec;
use finite_module::{Generators, Operator, Operators, sq};
use memory::Memory;
use milnor_basis::{Basis, Exps, terms};
use module_spec::Spec;
use std::alloc::Global;

/// The generators of a module file with the action that it gives.
pub(crate) fn derive(alloc: Global, spec: &Spec) -> Result<Operators, Memory>
    ensures { IfOk result (λ m. m ≡ derived_module spec.now) }
{
    let generators = Generators::of(alloc, spec)?;
    let span = generators.span();
    let mut operators = Operators::new(alloc, generators)?;
    for n in 0..span + 1 {
        derive_degree(alloc, spec, &mut operators, n)?;
    }
    Ok(operators)
}

/// Puts the operators of degree `n` behind those of lower degrees.
fn derive_degree(
    alloc: Global,
    spec: &Spec,
    operators: &mut Operators,
    n: u16,
) -> Result<(), Memory>
    requires generators { operators.old.generators ≡ spec.now.generators }
    requires degree { n ≤ span spec.now.generators }
    requires small { n ≤ MAX_SPAN }
    requires before { operators.old.operators ≡ derived_from spec.now [] (elements n) }
    ensures generators { operators.new.generators ≡ spec.now.generators }
    ensures after { OnOk result (operators.new.operators ≡ derived_from spec.now [] (elements (n + 1))) }
{
    for k in 0..operators.basis().of_degree(n).len() {
        let r = operators.basis().of_degree(n)[k];
        let operator = derived_operator(alloc, spec, operators, &r)?;
        operators.push(&r, operator)?;
    }
    Ok(())
}

/// The operator of Sq(R), from those before it.
fn derived_operator(
    alloc: Global,
    spec: &Spec,
    operators: &Operators,
    r: &Exps,
) -> Result<Operator, Memory>
    requires generators { operators.now.generators ≡ spec.now.generators }
    requires degree { degree_of r.now ≤ span spec.now.generators }
    requires small { degree_of r.now ≤ MAX_SPAN }
    ensures operator { IfOk result (λ operator. operator ≡ derived_operator spec.now operators.now.operators r.now) }
    ensures widths { IfOk result (λ operator. EachIndex operator (λ i. length (slice_index_or operator i [])
        ≡ width spec.now.generators (degree_at spec.now.generators i +ℤ pos (degree_of r.now)))) }
{
    let generators = operators.generators();
    match r.len() {
        0 => units(alloc, generators),
        1 => squares(alloc, spec, operators, r.exponent(0)),
        _ => products(alloc, operators, r),
    }
}

/// The identity: each generator.
fn units(alloc: Global, generators: &Generators) -> Result<Operator, Memory>
    ensures { IfOk result
        (λ operator. operator ≡ map (unit generators.now) (range_with_len 0 (length generators.now))) }
{
    let mut values = Vec::with_capacity(alloc, generators.count())?;
    for i in 0..generators.count() {
        values.push(generators.unit(alloc, i)?)?;
    }
    Ok(Operator::of(values))
}

/// The values of Sq^n.
fn squares(alloc: Global, spec: &Spec, operators: &Operators, n: u16) -> Result<Operator, Memory>
    requires generators { operators.now.generators ≡ spec.now.generators }
    requires number { 0 < n }
    ensures { IfOk result (λ operator. operator
        ≡ map (square_value spec.now operators.now.operators n) (range_with_len 0 (length spec.now.generators))) }
{
    let count = operators.generators().count();
    let mut values = Vec::with_capacity(alloc, count)?;
    for i in 0..count {
        values.push(square_value(alloc, spec, operators, n, i)?)?;
    }
    Ok(Operator::of(values))
}

/// The values of Sq(R) with two exponents or more.
fn products(alloc: Global, operators: &Operators, r: &Exps) -> Result<Operator, Memory>
    requires long { 1 < length r.now }
    requires degree { degree_of r.now ≤ span operators.now.generators }
    requires small { degree_of r.now ≤ MAX_SPAN }
    ensures { IfOk result (λ operator. operator
        ≡ map (by_product operators.now.generators operators.now.operators (entry r.now 0) (drop 1 r.now))
        (range_with_len 0 (length operators.now.generators))) }
{
    let count = operators.generators().count();
    let split = Split::of(alloc, operators.basis(), r)?;
    let mut values = Vec::with_capacity(alloc, count)?;
    for i in 0..count {
        values.push(split.value(alloc, operators, i)?)?;
    }
    Ok(Operator::of(values))
}

/// Sq(R) as one term of the product of Sq^n and Sq(S), where S are the exponents of R behind the first and n is the
/// front of R, and the other terms.
#[derive(Drop)]
struct Split {
    /// The first exponent of R.
    exponent: u16,
    /// Sq^n.
    square: Exps,
    /// Sq(S).
    rest: Exps,
    /// The degree of Sq(R).
    degree: u32,
    others: Vec<Exps>,
    ghost square_is: { square ≡ front (exponent ∷ rest) ∷ [] },
    ghost degree_is: { degree ≡ degree_of (exponent ∷ rest) },
    ghost others_are: { others.items ≡ other_terms exponent rest },
}

impl Split {
    /// The product that Sq(R) is a term of.
    fn of(alloc: Global, basis: &Basis, r: &Exps) -> Result<Self, Memory>
        requires long { 1 < length r.now }
        requires degree { degree_of r.now ≤ basis.now }
        requires small { degree_of r.now ≤ MAX_SPAN }
        ensures exponent { IfOk result (λ split. split.exponent ≡ entry r.now 0) }
        ensures rest { IfOk result (λ split. split.rest ≡ drop 1 r.now) }
    {
        let square = sq(front(r));
        let rest = rest(r);
        let mut others = terms(alloc, basis, &square, &rest)?;
        others.retain(|term| term != r);
        Ok(Split {
            exponent: r.exponent(0),
            square,
            rest,
            degree: r.degree(),
            others,
        })
    }

    /// Sq(R) on generator `i`.
    fn value(&self, alloc: Global, operators: &Operators, i: usize) -> Result<BitVec, Memory>
        requires { i < length operators.now.generators }
        ensures { IfOk result
            (λ v. v ≡ by_product operators.now.generators operators.now.operators self.now.exponent self.now.rest i) }
    {
        let value = operators.value(alloc, &self.rest, i)?;
        let t = i64::from(operators.generators().degree(i)) + i64::from(self.rest.degree());
        let mut sum = operators.act_on(alloc, &self.square, t, &value)?;
        let others = operators.sum_on(alloc, self.others.as_slice(), self.degree, i)?;
        sum.xor_with(&others);
        Ok(sum)
    }
}
