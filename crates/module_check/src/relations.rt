//! The relations of a module: Sq(R) on Sq(S) is their product.
ghost use Rattle.std.specs.Prelude.{◌≡◌, ◌≢◌, ◌+◌, ◌-◌, ◌<◌, ◌≤◌, pos, ◌+ℤ◌, neg_ℤ, ◌≤ℤ◌, Some, None, length, map, All, IfOk, IfErr, OnOk};
ghost use Rattle.std.specs.Option.{ForSome};
ghost use Rattle.f2_vec.specs.Vectors.{sum_of};
ghost use Rattle.milnor_basis.specs.Exponents.{degree_of};
ghost use Rattle.milnor_basis.specs.Basis.{basis_of};
ghost use Rattle.milnor_basis.specs.Product.{product_terms};
ghost use Rattle.module_spec.specs.Spec.{degree_at};
ghost use Rattle.module_spec.specs.declared.limits.TheConstants.{MAX_DEGREE};
ghost use Rattle.finite_module.specs.Module.{width, place_of};
ghost use Rattle.finite_module.specs.DerivedAction.{span};
ghost use Rattle.finite_module.specs.Axioms.{one_by_one, by_their_product};
ghost use Rattle.module_spec.specs.WellFormed.{NeverFall};
ghost use Rattle.generator_laws.specs.Powers.{HasIdentity, PowersHold, PowersHoldAt};
ghost use Rattle.module_check.specs.Acceptance.{first_in, relation_on, relation_of, relation_in_degrees, relation_in_degree, first_relation};
ghost use Rattle.finite_module.specs.Operators.{HaveWidths};
ghost use Rattle.finite_module.specs.Operators.{value_at};
ghost use Rattle.module_check.specs.Inside.Relations.{reaches, reaching, added};

use crate::fault::CheckFault;
use f2_vec::BitVec;
use finite_module::{Generators, Operators, sq};
use memory::Memory;
use milnor_basis::{Exps, terms};
use std::alloc::Global;

/// Two elements of Milnor's bases, and where the operators have the second and the terms of the product.
#[derive(Drop)]
struct Pair {
    r: Exps,
    s: Exps,
    second: usize,
    terms: Vec<usize>,
    ghost second_at: { place_of s ≡ Some second },
    ghost terms_at: { map place_of (product_terms r s) ≡ map Some terms.items },
}

impl Pair {
    /// Sq(R) and Sq(S), whose product is of a degree within the span.
    fn of(alloc: Global, operators: &Operators, r: &Exps, s: &Exps) -> Result<Self, Memory>
        requires { degree_of r.now + degree_of s.now ≤ span operators.now.generators }
        ensures first { IfOk result (λ pair. pair.r ≡ r.now) }
        ensures second { IfOk result (λ pair. pair.s ≡ s.now) }
        ensures widths { OnOk result (HaveWidths operators.now.generators operators.now.operators) }
    {
        let _ = operators.generators();
        let terms = terms(alloc, operators.basis(), r, s)?;
        let terms = places(alloc, operators, terms.as_slice())?;
        let second = operators.place(s).unwrap();
        Ok(Pair {
            r: *r,
            s: *s,
            second,
            terms,
        })
    }

    /// The internal degree to which the product takes generator `i`.
    fn degree_above(&self, generators: &Generators, i: usize) -> i64
        requires { i < length generators.now }
        ensures { result ≡ (degree_at generators.now i +ℤ pos (degree_of self.now.r + degree_of self.now.s)) }
    {
        degree_above(generators, i, self.s.degree()) + i64::from(self.r.degree())
    }

    /// The product on generator `i`.
    fn product(&self, alloc: Global, operators: &Operators, i: usize) -> Result<BitVec, Memory>
        requires { i < length operators.now.generators }
        ensures width { IfOk result (λ v. length v ≡ width operators.now.generators
            (degree_at operators.now.generators i +ℤ pos (degree_of self.now.r + degree_of self.now.s))) }
        ensures value { IfOk result (λ v. v ≡ by_their_product operators.now self.now.r self.now.s i) }
    {
        let generators = operators.generators();
        let width = generators.dim_in(self.degree_above(generators, i));
        let mut sum = BitVec::zero(alloc, width)?;
        for place in self.terms.iter() {
            add_at(operators, *place, i, &mut sum);
        }
        Ok(sum)
    }

    /// Adds the first element on the second on generator `i` to a vector of its degree.
    fn add_one_by_one(
        &self,
        alloc: Global,
        operators: &Operators,
        i: usize,
        sum: &mut BitVec,
    ) -> Result<(), Memory>
        requires generator { i < length operators.now.generators }
        requires width { length sum.old ≡ width operators.now.generators
            (degree_at operators.now.generators i +ℤ pos (degree_of self.now.r + degree_of self.now.s)) }
        ensures width { OnOk result (length sum.old ≡ length (one_by_one operators.now self.now.r self.now.s i)) }
        ensures sum { OnOk result (sum.new ≡ sum_of sum.old (one_by_one operators.now self.now.r self.now.s i)) }
    {
        let t = degree_above(operators.generators(), i, self.s.degree());
        let Some(value) = operators.at(self.second, i) else {
            return Ok(());
        };
        if value.is_zero() {
            return Ok(());
        }
        let image = operators.act_on(alloc, &self.r, t, value)?;
        sum.xor_with(&image);
        Ok(())
    }

    /// Whether the first on the second is their product, on generator `i`.
    fn check_on(&self, alloc: Global, operators: &Operators, i: usize) -> Result<(), CheckFault>
        requires { i < length operators.now.generators }
        ensures holds { OnOk result (relation_on operators.now self.now.r self.now.s i ≡ None) }
        ensures fails { IfErr result (λ e. e ≢ CheckFault.Memory →
            relation_on operators.now self.now.r self.now.s i ≡ Some e) }
    {
        let mut sum = self.product(alloc, operators, i)?;
        self.add_one_by_one(alloc, operators, i, &mut sum)?;
        if !sum.is_zero() {
            return Err(CheckFault::Relation {
                r: self.r,
                s: self.s,
                generator: i,
            });
        }
        Ok(())
    }
}

/// Adds what the operator at a place has on generator `i`.
fn add_at(operators: &Operators, place: usize, i: usize, sum: &mut BitVec)
    requires { ForSome (value_at operators.now.operators i place) (λ v. length sum.old ≡ length v) }
    ensures { sum.new ≡ added sum.old (value_at operators.now.operators i place) }
{
    if let Some(value) = operators.at(place, i) {
        sum.xor_with(value);
    }
}

/// The places of these elements among the operators.
fn places(alloc: Global, operators: &Operators, elements: &[Exps]) -> Result<Vec<usize>, Memory>
    requires { All (λ r. degree_of r ≤ span operators.now.generators) elements.now }
    ensures { IfOk result (λ places. map place_of elements.now ≡ map Some places.items) }
{
    let mut places = Vec::with_capacity(alloc, elements.len())?;
    for r in elements {
        places.push(operators.place(r).unwrap())?;
    }
    Ok(places)
}

/// The internal degree that is `n` above that of generator `i`.
pub(crate) fn degree_above(generators: &Generators, i: usize, n: u32) -> i64
    requires { i < length generators.now }
    ensures degree { result ≡ (degree_at generators.now i +ℤ pos n) }
    ensures lowest { neg_ℤ MAX_DEGREE ≤ℤ result }
    ensures highest { result ≤ℤ (MAX_DEGREE +ℤ pos n) }
{
    i64::from(generators.degree(i)) + i64::from(n)
}

/// Whether there are generators `n` degrees above generator `i`.
fn reaches(generators: &Generators, i: usize, n: u16) -> bool
    requires { i < length generators.now }
    ensures { result ≡ reaches generators.now n i }
{
    generators.dim_in(degree_above(generators, i, u32::from(n))) > 0
}

/// The numbers of the generators that have others `n` degrees above them.
fn reaching(alloc: Global, generators: &Generators, n: u16) -> Result<Vec<usize>, Memory>
    ensures { IfOk result (λ numbers. numbers.items ≡ reaching generators.now n) }
{
    let mut numbers = Vec::new(alloc);
    for i in 0..generators.count() {
        if reaches(generators, i, n) {
            numbers.push(i)?;
        }
    }
    Ok(numbers)
}

/// Whether Sq(R) on Sq(S) is their product, on the generators that have others as far above them.
fn check_pair(
    alloc: Global,
    operators: &Operators,
    numbers: &[usize],
    r: &Exps,
    s: &Exps,
) -> Result<(), CheckFault>
    requires degree { degree_of r.now + degree_of s.now ≤ span operators.now.generators }
    requires numbers { numbers.now ≡ reaching operators.now.generators (degree_of r.now + degree_of s.now) }
    ensures holds { OnOk result (relation_of operators.now r.now s.now ≡ None) }
    ensures fails { IfErr result (λ e. e ≢ CheckFault.Memory → relation_of operators.now r.now s.now ≡ Some e) }
{
    let pair = Pair::of(alloc, operators, r, s)?;
    for i in numbers {
        pair.check_on(alloc, operators, *i)?;
    }
    Ok(())
}

/// Whether Sq(R) on each of the elements of degree `d` is their product.
fn check_left(
    alloc: Global,
    operators: &Operators,
    numbers: &[usize],
    r: &Exps,
    d: u16,
) -> Result<(), CheckFault>
    requires degree { degree_of r.now + d ≤ span operators.now.generators }
    requires numbers { numbers.now ≡ reaching operators.now.generators (degree_of r.now + d) }
    ensures holds { OnOk result (first_in (relation_of operators.now r.now) (basis_of d) ≡ None) }
    ensures fails { IfErr result (λ e. e ≢ CheckFault.Memory →
        first_in (relation_of operators.now r.now) (basis_of d) ≡ Some e) }
{
    for s in operators.basis().of_degree(d) {
        check_pair(alloc, operators, numbers, r, s)?;
    }
    Ok(())
}

/// Whether each element of degree `d`, on each of those that make up degree `n` with it, is their product.
fn check_degrees(
    alloc: Global,
    operators: &Operators,
    numbers: &[usize],
    n: u16,
    d: u16,
) -> Result<(), CheckFault>
    requires left { d ≤ n }
    requires degree { n ≤ span operators.now.generators }
    requires numbers { numbers.now ≡ reaching operators.now.generators n }
    ensures holds { OnOk result (relation_in_degrees operators.now n d ≡ None) }
    ensures fails { IfErr result (λ e. e ≢ CheckFault.Memory → relation_in_degrees operators.now n d ≡ Some e) }
{
    for r in operators.basis().of_degree(d) {
        check_left(alloc, operators, numbers, r, n - d)?;
    }
    Ok(())
}

/// Whether each product of degree `n` is its elements one by one.
fn check_degree(alloc: Global, operators: &Operators, n: u16) -> Result<(), CheckFault>
    requires { n ≤ span operators.now.generators }
    ensures holds { OnOk result (relation_in_degree operators.now n ≡ None) }
    ensures fails { IfErr result (λ e. e ≢ CheckFault.Memory → relation_in_degree operators.now n ≡ Some e) }
{
    let numbers = reaching(alloc, operators.generators(), n)?;
    if numbers.is_empty() {
        return Ok(());
    }
    for d in 1..n {
        check_degrees(alloc, operators, numbers.as_slice(), n, d)?;
    }
    Ok(())
}

/// Whether each product of degree `n` with Sq^k on the left is its elements one by one, k a power of two.
fn check_powers_in(alloc: Global, operators: &Operators, n: u16) -> Result<(), CheckFault>
    requires { n ≤ span operators.now.generators }
    ensures { OnOk result (PowersHoldAt operators.now n) }
{
    let numbers = reaching(alloc, operators.generators(), n)?;
    if numbers.is_empty() {
        return Ok(());
    }
    for k in 1..n {
        if k.is_power_of_two() {
            check_left(alloc, operators, numbers.as_slice(), &sq(k), n - k)?;
        }
    }
    Ok(())
}

/// Whether the relations with Sq^k on the left hold, k a power of two.
fn check_powers(alloc: Global, operators: &Operators) -> Result<(), CheckFault>
    ensures { OnOk result (PowersHold operators.now) }
{
    for n in 2..=operators.basis().max() {
        check_powers_in(alloc, operators, n)?;
    }
    Ok(())
}

/// Whether each relation holds. The first that fails, by the degree of the product, the degree of R, R, S and the
/// generator, is the fault. Generators that have no others as far above them are passed over: there both sides are vectors
/// without a coordinate.
fn check_all(alloc: Global, operators: &Operators) -> Result<(), CheckFault>
    ensures holds { OnOk result (first_relation operators.now ≡ None) }
    ensures fails { IfErr result (λ e. e ≢ CheckFault.Memory → first_relation operators.now ≡ Some e) }
{
    for n in 2..=operators.basis().max() {
        check_degree(alloc, operators, n)?;
    }
    Ok(())
}

/// Whether each relation holds, where the first operator is the identity. The first that fails, in the order of
/// `check_all`, is the fault. The squares Sq^k, k a power of two, generate the algebra: where each relation with one of
/// them on the left holds, all do, and no other is looked at.
pub(crate) fn check_relations(alloc: Global, operators: &Operators) -> Result<(), CheckFault>
    requires order { NeverFall operators.now.generators }
    requires identity { HasIdentity operators.now }
    ensures holds { OnOk result (first_relation operators.now ≡ None) }
    ensures fails { IfErr result (λ e. e ≢ CheckFault.Memory → first_relation operators.now ≡ Some e) }
{
    // The call makes the widths of the operators known to the proof.
    let _ = operators.generators();
    match check_powers(alloc, operators) {
        Ok(()) => Ok(()),
        Err(CheckFault::Memory) => Err(CheckFault::Memory),
        Err(_) => check_all(alloc, operators),
    }
}
