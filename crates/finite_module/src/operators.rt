//! The value of each Sq(R) on each generator, and on vectors.
ghost use Rattle.std.specs.Prelude.{◌≡◌, ◌+◌, ◌^◌, ◌<◌, ◌≤◌, ◌↔◌, ℕ, pos, ◌+ℤ◌, [], ◌∷◌, ◌++◌, Some, length, map, slice_get, slice_index_or, All, EachIndex, IfOk, IfSome, IfNone, IsNone, OnOk, OnErr, option_copied};
ghost use Rattle.std.specs.List.{range_with_len};
ghost use Rattle.f2_vec.specs.Vectors.{sum_of, zeros};
ghost use Rattle.milnor_basis.specs.Exponents.{degree_of};
ghost use Rattle.milnor_basis.specs.Basis.{basis_of};
ghost use Rattle.module_spec.specs.Spec.{degree_at};
ghost use Rattle.finite_module.specs.Module.{width, value, act_on, total, place_of, elements_below};
ghost use Rattle.finite_module.specs.DerivedAction.{elements, span};
ghost use Rattle.finite_module.specs.Operators.{HaveWidths};
ghost use Rattle.finite_module.specs.Operators.{value_at};

use crate::generators::Generators;
use f2_vec::BitVec;
use memory::Memory;
use milnor_basis::{Basis, Exps};
use std::alloc::Global;
use std::marker::Model;

/// The values of one Sq(R) on the generators, in their order.
#[derive(Debug, Drop)]
pub struct Operator {
    values: Vec<BitVec>,
}

impl Model for Operator {
    ghost use Rattle.std.specs.Prelude.{Bool, List};

    ghost Value = { List (List Bool) };

    ghost view = { λ o. o.values.items };
}

impl Operator {
    /// The operator with these values.
    pub fn of(values: Vec<BitVec>) -> Self
        ensures { result ≡ values.items }
    {
        Operator { values }
    }

    /// The value on generator `i`.
    fn get(&self, i: usize) -> Option<&BitVec>
        ensures some { IfSome result (λ v. slice_get self.now i ≡ Some v.now) }
        ensures none { IfNone result (length self.now ≤ i) }
    {
        self.values.get(i)
    }
}

/// The generators of a module and the operators of the first elements of Milnor's bases, of all of them up to the span
/// once the module is made.
#[derive(Debug, Drop)]
pub struct Operators {
    generators: Generators,
    basis: Basis,
    below: Vec<usize>,
    list: Vec<Operator>,
}

impl Model for Operators {
    ghost use Rattle.finite_module.specs.Module.{Module};
    ghost use Rattle.finite_module.specs.Operators.{AreOperators};

    ghost Value = { Module };

    ghost view = { λ o. record { generators = o.generators; operators = o.list.items } };

    ghost invariant = { λ o. AreOperators o.basis o.below.items (record {
      generators = o.generators;
      operators = o.list.items;
    }) };
}

impl Operators {
    /// The generators, with no operator so far.
    ///
    /// # Errors
    /// `Memory` if allocation fails.
    pub fn new(alloc: Global, generators: Generators) -> Result<Self, Memory>
        ensures { IfOk result (λ m. m ≡ record { generators = generators; operators = [] }) }
    {
        let basis = Basis::new(alloc, generators.span())?;
        let below = counts(alloc, &basis)?;
        let list = Vec::new(alloc);
        Ok(Operators {
            generators,
            basis,
            below,
            list,
        })
    }

    /// The generators.
    pub fn generators(&self) -> &Generators
        ensures generators { result.now ≡ self.now.generators }
        ensures widths { HaveWidths self.now.generators self.now.operators }
    {
        &self.generators
    }

    /// Milnor's bases up to the span.
    pub fn basis(&self) -> &Basis
        ensures { result.now ≡ span self.now.generators }
    {
        &self.basis
    }

    /// The place of Sq(R) among the operators, none where its degree is above the span.
    pub fn place(&self, r: &Exps) -> Option<usize>
        ensures some { IfSome result (λ p. place_of r.now ≡ Some p) }
        ensures none { IsNone result ↔ (span self.now.generators < degree_of r.now) }
        ensures beyond { IfNone result ((p : ℕ) → place_of r.now ≡ Some p → length self.now.operators ≤ p) }
    {
        let (degree, place) = self.basis.place(r)?;
        Some(self.below[usize::from(degree)] + place)
    }

    /// The operator at a place.
    fn operator(&self, place: usize) -> Option<&Operator>
        ensures some { IfSome result (λ o. slice_get self.now.operators place ≡ Some o.now) }
        ensures none { IfNone result (length self.now.operators ≤ place) }
    {
        self.list.get(place)
    }

    /// What the operator at a place has on generator `i`, none where there is no such operator or generator.
    pub fn at(&self, place: usize, i: usize) -> Option<&BitVec>
        ensures { option_copied result ≡ value_at self.now.operators i place }
    {
        let operator = self.operator(place)?;
        operator.get(i)
    }

    /// The value of Sq(R) on generator `i`. `None` if Sq(R) is beyond the last operator; its value is then zero.
    pub fn value_ref(&self, r: &Exps, i: usize) -> Option<&BitVec>
        ensures some { IfSome result (λ v. v.now ≡ value self.now.generators self.now.operators r.now i) }
        ensures none { IfNone result (value self.now.generators self.now.operators r.now i
            ≡ zeros (width self.now.generators (degree_at self.now.generators i +ℤ pos (degree_of r.now)))) }
        ensures width { length (value self.now.generators self.now.operators r.now i)
            ≡ width self.now.generators (degree_at self.now.generators i +ℤ pos (degree_of r.now)) }
    {
        let _ = &self.list;
        let place = self.place(r)?;
        self.at(place, i)
    }

    /// The value of Sq(R) on generator `i`.
    ///
    /// # Errors
    /// `Memory` if allocation fails.
    pub fn value(&self, alloc: Global, r: &Exps, i: usize) -> Result<BitVec, Memory>
        requires { i < length self.now.generators }
        ensures { IfOk result (λ v. v ≡ value self.now.generators self.now.operators r.now i) }
    {
        match self.value_ref(r, i) {
            Some(value) => value.try_copy(alloc),
            None => {
                let degree = i64::from(self.generators.degree(i));
                BitVec::zero(alloc, self.generators.dim_above(degree, r))
            }
        }
    }

    /// The value of Sq(R) on the vector `v` of degree `t`.
    ///
    /// # Errors
    /// `Memory` if allocation fails.
    pub fn act_on(&self, alloc: Global, r: &Exps, t: i64, v: &BitVec) -> Result<BitVec, Memory>
        requires { length v.now ≡ width self.now.generators t }
        ensures { IfOk result (λ w. w ≡ act_on self.now.generators self.now.operators r.now t v.now) }
    {
        let mut sum = BitVec::zero(alloc, self.generators.dim_above(t, r))?;
        let start = self.generators.within(t).start;
        for k in 0..v.len() {
            if v.get(k) {
                self.add_value(&mut sum, r, start + k);
            }
        }
        Ok(sum)
    }

    /// The sum of the values of these Sq(R), which are of degree `n`, on generator `i`.
    ///
    /// # Errors
    /// `Memory` if allocation fails.
    pub fn sum_on(
        &self,
        alloc: Global,
        elements: &[Exps],
        n: u32,
        i: usize,
    ) -> Result<BitVec, Memory>
        requires generator { i < length self.now.generators }
        requires degrees { All (λ r. degree_of r ≡ n) elements.now }
        ensures { IfOk result (λ v. v ≡ total (width self.now.generators (degree_at self.now.generators i +ℤ pos n))
            (map (λ r. value self.now.generators self.now.operators r i) elements.now)) }
    {
        let degree = i64::from(self.generators.degree(i)) + i64::from(n);
        let mut sum = BitVec::zero(alloc, self.generators.dim_in(degree))?;
        for r in elements {
            self.add_value(&mut sum, r, i);
        }
        Ok(sum)
    }

    /// Adds the value of Sq(R) on generator `i` to a vector of its degree.
    pub fn add_value(&self, sum: &mut BitVec, r: &Exps, i: usize)
        requires { length sum.old
            ≡ width self.now.generators (degree_at self.now.generators i +ℤ pos (degree_of r.now)) }
        ensures sum { sum.new ≡ sum_of sum.old (value self.now.generators self.now.operators r.now i) }
        ensures width { length sum.new ≡ length sum.old }
    {
        match self.value_ref(r, i) {
            Some(value) => sum.xor_with(value),
            None => {}
        }
    }

    /// Puts the operator of Sq(R), the next element of Milnor's bases, behind the others.
    ///
    /// # Errors
    /// `Memory` if allocation fails.
    pub fn push(&mut self, r: &Exps, operator: Operator) -> Result<(), Memory>
        requires next { slice_get (elements (span self.old.generators + 1)) (length self.old.operators) ≡ Some r.now }
        requires widths { EachIndex operator (λ i. length (slice_index_or operator i [])
            ≡ width self.old.generators (degree_at self.old.generators i +ℤ pos (degree_of r.now))) }
        ensures generators { self.new.generators ≡ self.old.generators }
        ensures ok { OnOk result (self.new.operators ≡ self.old.operators ++ operator ∷ []) }
        ensures err { OnErr result (self.new ≡ self.old) }
    {
        let _ = r;
        self.list.push(operator)?;
        Ok(())
    }
}

/// How many elements stand before those of each degree in Milnor's bases.
fn counts(alloc: Global, basis: &Basis) -> Result<Vec<usize>, Memory>
    ensures counts { IfOk result (λ counts. counts.items ≡ map elements_below (range_with_len 0 (basis.now + 1))) }
    ensures fits { OnOk result (elements_below (basis.now + 1) < 2 ^ 64) }
{
    let mut counts = Vec::new(alloc);
    let mut count: usize = 0;
    for n in 0..=basis.max() {
        counts.push(count)?;
        let Some(more) = count.checked_add(basis.of_degree(n).len()) else {
            // No memory holds that many elements.
            return Err(Memory);
        };
        count = more;
    }
    Ok(counts)
}
