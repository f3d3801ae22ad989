//! Finite modules over the mod 2 Steenrod algebra.
ghost use Rattle.std.specs.Prelude.{◌≡◌, ◌<◌, ◌≤◌, ℕ, ℤ, pos, neg_ℤ, ◌≤ℤ◌, ◌<ℤ◌, length, List, [], ◌∷◌, true, IfOk};
ghost use Rattle.module_spec.specs.Spec.{degree_at};
ghost use Rattle.module_spec.specs.declared.limits.TheConstants.{MAX_GENERATORS, MAX_DEGREE};
ghost use Rattle.finite_module.specs.Module.{width, bottom};
ghost use Rattle.finite_module.specs.DerivedAction.{derived_module, top};
ghost use Rattle.finite_module.specs.Axioms.{IsModule, value_of};
ghost use Rattle.module_spec.specs.WellFormed.{AreByDegree};
ghost use Rattle.finite_module.specs.Checked.{sphere_file};
ghost use Rattle.finite_module.specs.Text.{name_at, sum_text, canonical_text};

use crate::generators::Generators;
use crate::operators::{Operator, Operators};
use crate::text::{canonical_text, sum_text};
use f2_vec::BitVec;
use memory::Memory;
use milnor_basis::Exps;
use std::alloc::Global;
use std::marker::Model;

/// A finite module over the mod 2 Steenrod algebra: a basis of generators, and each Sq(R) on them.
#[derive(Debug, Drop)]
pub struct Module {
    operators: Operators,
    ghost by_degree: { AreByDegree operators.generators },
    ghost is_module: { IsModule operators },
}

impl Model for Module {
    ghost use Rattle.finite_module.specs.Checked.{Checked};

    ghost Value = { Checked };

    ghost view = { λ m. record { plain = m.operators; by_degree = m.by_degree; is_module = m.is_module } };
}

impl Module {
    /// The module of these operators.
    pub fn new(operators: Operators) -> Self
        requires { IsModule operators }
        ensures { result.plain ≡ operators }
    {
        Module { operators }
    }

    /// The operators.
    pub fn operators(&self) -> &Operators
        ensures { result.now ≡ self.now.plain }
    {
        &self.operators
    }

    /// The module with one generator `x0`, in degree 0, on which each Sq(R) of positive degree is zero.
    ///
    /// # Errors
    /// `Memory` if allocation fails.
    pub fn sphere(alloc: Global) -> Result<Self, Memory>
        ensures { IfOk result (λ m. m.plain ≡ derived_module sphere_file) }
    {
        let generators = Generators::one(alloc, "x0", 0)?;
        let mut operators = Operators::new(alloc, generators)?;
        operators.push(&Exps::of([0; 8]), identity_on_one(alloc)?)?;
        Ok(Module::new(operators))
    }

    /// How many generators there are.
    pub fn count(&self) -> usize
        ensures count { result ≡ length self.now.plain.generators }
        ensures few { result ≤ MAX_GENERATORS }
    {
        self.operators.generators().count()
    }

    /// The name of generator `i`.
    pub fn name(&self, i: usize) -> &str
        requires { i < length self.now.plain.generators }
        ensures { result.now ≡ name_at self.now.plain.generators i }
    {
        self.operators.generators().name(i)
    }

    /// The internal degree of generator `i`.
    pub fn degree(&self, i: usize) -> i32
        requires { i < length self.now.plain.generators }
        ensures degree { result ≡ degree_at self.now.plain.generators i }
        ensures lowest { neg_ℤ MAX_DEGREE ≤ℤ result }
        ensures highest { result ≤ℤ MAX_DEGREE }
    {
        self.operators.generators().degree(i)
    }

    /// The least degree of a generator, and 0 where there is none.
    pub fn bottom(&self) -> i32
        ensures bottom { result ≡ bottom self.now.plain.generators }
        ensures lowest { neg_ℤ MAX_DEGREE ≤ℤ result }
        ensures highest { result ≤ℤ MAX_DEGREE }
        ensures none_below { (t : ℤ) → t <ℤ result → width self.now.plain.generators t ≡ 0 }
    {
        self.operators.generators().bottom()
    }

    /// The greatest degree of a generator, which is that of the last one, and 0 where there is none.
    pub fn top(&self) -> i32
        ensures top { result ≡ top self.now.plain.generators }
        ensures lowest { neg_ℤ MAX_DEGREE ≤ℤ result }
        ensures highest { result ≤ℤ MAX_DEGREE }
    {
        self.operators.generators().top()
    }

    /// The dimension in degree `t`.
    pub fn dim_in(&self, t: i32) -> usize
        ensures { result ≡ width self.now.plain.generators t }
    {
        self.operators.generators().dim_in(i64::from(t))
    }

    /// The value of Sq(R) on generator `i`, a vector of that generator's degree and R's.
    ///
    /// # Errors
    /// `Memory` if allocation fails.
    pub fn act(&self, alloc: Global, r: &Exps, i: usize) -> Result<BitVec, Memory>
        requires { i < length self.now.plain.generators }
        ensures { IfOk result (λ v. v ≡ value_of self.now.plain r.now i) }
    {
        self.operators.value(alloc, r, i)
    }

    /// A vector of degree `t` as text: the names of its generators, in order, with ` + ` between each two.
    ///
    /// # Errors
    /// `Memory` if allocation fails.
    pub fn sum_text(&self, alloc: Global, t: i32, v: &BitVec) -> Result<Vec<u8>, Memory>
        requires { length v.now ≡ width self.now.plain.generators t }
        ensures { IfOk result (λ text. text.items ≡ sum_text self.now.plain.generators t v.now) }
    {
        sum_text(alloc, self.operators.generators(), i64::from(t), v)
    }

    /// The module as text: a line for each generator, and one for each Sq^n of a generator, n a power of two, that is
    /// not zero.
    ///
    /// # Errors
    /// `Memory` if allocation fails.
    pub fn canonical_text(&self, alloc: Global) -> Result<Vec<u8>, Memory>
        ensures { IfOk result (λ text. text.items ≡ canonical_text self.now.plain) }
    {
        canonical_text(alloc, &self.operators)
    }
}

/// The operator that takes the one generator to itself.
fn identity_on_one(alloc: Global) -> Result<Operator, Memory>
    ensures { IfOk result (λ operator. operator ≡ (true ∷ []) ∷ []) }
{
    let mut value = BitVec::zero(alloc, 0)?;
    value.push(true)?;
    let mut values = Vec::new(alloc);
    values.push(value)?;
    Ok(Operator::of(values))
}
