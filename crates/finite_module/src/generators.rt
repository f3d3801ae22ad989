//! The generators of a module, and those of one degree.
ghost use Rattle.std.specs.Prelude.{◌≡◌, ℕ, ◌-◌, ◌<◌, ◌≤◌, pos, ◌+ℤ◌, neg_ℤ, ◌≤ℤ◌, int_lt, int_le, nat_eq, [], ◌∷◌, length, IfOk, string_bytes};
ghost use Rattle.std.specs.List.{count_by, list_any, range_with_len};
ghost use Rattle.milnor_basis.specs.Exponents.{degree_of};
ghost use Rattle.module_spec.specs.Spec.{degree_at, by_degree, number_of};
ghost use Rattle.module_spec.specs.WellFormed.{AreByDegree};
ghost use Rattle.module_spec.specs.declared.limits.TheConstants.{MAX_GENERATORS, MAX_DEGREE, MAX_SPAN};
ghost use Rattle.finite_module.specs.Module.{generators_in, width, unit, bottom};
ghost use Rattle.finite_module.specs.DerivedAction.{sum_vector, top, span};
ghost use Rattle.finite_module.specs.Text.{name_at};

use f2_vec::BitVec;
use memory::Memory;
use milnor_basis::Exps;
use module_spec::Spec;
use std::alloc::Global;
use std::marker::Model;
use std::ops::Range;

/// A generator of a module. Contracts see it as the definition `Generator` of module files.
#[derive(Debug, Drop)]
pub struct Generator {
    name: String,
    degree: i32,
}

impl Model for Generator {
    ghost use Rattle.std.specs.Prelude.{string_bytes};
    ghost use Rattle.module_spec.specs.Spec.{Generator as Named};

    ghost Value = { Named };

    ghost view = { λ g. record { name = string_bytes g.name; degree = g.degree } };
}

impl Generator {
    /// The generator with this name and degree.
    pub fn new(name: String, degree: i32) -> Self
        ensures { result ≡ record { name = string_bytes name; degree = degree } }
    {
        Generator { name, degree }
    }
}

/// The generators of a module, by degree and in one degree by name. Each degree is an internal degree.
#[derive(Debug, Drop)]
pub struct Generators {
    list: Vec<Generator>,
}

impl Model for Generators {
    ghost use Rattle.std.specs.Prelude.{List};
    ghost use Rattle.module_spec.specs.Spec.{Generator as Named};

    ghost Value = { List Named };

    ghost use Rattle.module_spec.specs.WellFormed.{AreByDegree};

    ghost view = { λ g. g.list.items };

    ghost invariant = { λ g. AreByDegree g.list.items };
}

impl Generators {
    /// The generators of a module file.
    ///
    /// # Errors
    /// `Memory` if allocation fails.
    pub fn of(alloc: Global, spec: &Spec) -> Result<Self, Memory>
        ensures { IfOk result (λ generators. generators ≡ spec.now.generators) }
    {
        let count = spec.count();
        let mut list = Vec::with_capacity(alloc, count)?;
        for i in 0..count {
            let name = String::from_str(alloc, spec.name(i))?;
            let degree = spec.degree(i);
            list.push(Generator { name, degree })?;
        }
        Ok(Generators { list })
    }

    /// One generator.
    pub(crate) fn one(alloc: Global, name: &str, degree: i32) -> Result<Self, Memory>
        requires lowest { neg_ℤ MAX_DEGREE ≤ℤ degree }
        requires highest { degree ≤ℤ MAX_DEGREE }
        ensures { IfOk result (λ generators. generators ≡ record { name = name.now; degree = degree } ∷ []) }
    {
        let name = String::from_str(alloc, name)?;
        let mut list = Vec::new(alloc);
        list.push(Generator { name, degree })?;
        Ok(Generators { list })
    }

    /// These generators by degree; those of one degree keep their order.
    ///
    /// # Errors
    /// `Memory` if allocation fails.
    pub fn by_degree(mut list: Vec<Generator>) -> Result<Self, Memory>
        requires { AreByDegree (by_degree list.items) }
        ensures { IfOk result (λ generators. generators ≡ by_degree list.items) }
    {
        list.sort_by_key(|generator| generator.degree)?;
        Ok(Generators { list })
    }

    /// The number of the generator with a name.
    pub(crate) fn number_of(&self, name: &[u8]) -> Option<usize>
        ensures { result ≡ number_of self.now name.now }
    {
        self.list
            .iter()
            .position(|generator| generator.name.as_bytes() == name)
    }

    /// How many generators there are.
    pub fn count(&self) -> usize
        ensures count { result ≡ length self.now }
        ensures few { result ≤ MAX_GENERATORS }
    {
        self.list.len()
    }

    /// The name of generator `i`.
    pub(crate) fn name(&self, i: usize) -> &str
        requires { i < length self.now }
        ensures { result.now ≡ name_at self.now i }
    {
        let generator = &self.list[i];
        generator.name.as_str()
    }

    /// The degree of generator `i`.
    pub fn degree(&self, i: usize) -> i32
        requires { i < length self.now }
        ensures degree { result ≡ degree_at self.now i }
        ensures lowest { neg_ℤ MAX_DEGREE ≤ℤ result }
        ensures highest { result ≤ℤ MAX_DEGREE }
    {
        let generator = &self.list[i];
        generator.degree
    }

    /// The least degree, and 0 where there is no generator.
    pub(crate) fn bottom(&self) -> i32
        ensures { result ≡ bottom self.now }
    {
        match self.list.first() {
            Some(generator) => generator.degree,
            None => 0,
        }
    }

    /// The greatest degree, and 0 where there is no generator.
    #[tactic(auto, using(crate::proofs::Degrees::top_last))]
    pub(crate) fn top(&self) -> i32
        ensures top { result ≡ top self.now }
        ensures lowest { neg_ℤ MAX_DEGREE ≤ℤ result }
        ensures highest { result ≤ℤ MAX_DEGREE }
    {
        match self.count().checked_sub(1) {
            Some(last) => self.degree(last),
            None => 0,
        }
    }

    /// How far apart the least and the greatest degree are.
    pub fn span(&self) -> u16
        ensures span { result ≡ span self.now }
        ensures small { result ≤ MAX_SPAN }
    {
        // The invariant is known where a field is read.
        let _ = &self.list;
        (self.top() - self.bottom()) as u16
    }

    /// How many generators are of a degree below `t`. The degrees do not fall, so it is searched by halves.
    fn count_below(&self, t: i64) -> usize
        ensures { result ≡ count_by (λ g. int_lt g.degree t) self.now }
    {
        self.list.partition_point(|g| i64::from(g.degree) < t)
    }

    /// How many generators are of a degree of at most `t`.
    fn count_upto(&self, t: i64) -> usize
        ensures { result ≡ count_by (λ g. int_le g.degree t) self.now }
    {
        self.list.partition_point(|g| i64::from(g.degree) <= t)
    }

    /// How many generators are of degree `t`.
    pub fn dim_in(&self, t: i64) -> usize
        ensures { result ≡ width self.now t }
    {
        let here = self.within(t);
        here.end - here.start
    }

    /// The numbers of the generators of degree `t`.
    pub fn within(&self, t: i64) -> Range<usize>
        ensures generators { generators_in self.now t ≡ range_with_len result.start (result.end - result.start) }
        ensures start { result.start ≤ result.end }
        ensures end { result.end ≤ length self.now }
    {
        let _ = &self.list;
        self.count_below(t)..self.count_upto(t)
    }

    /// How many generators are of the degree to which Sq(R) takes degree `t`.
    pub(crate) fn dim_above(&self, t: i64, r: &Exps) -> usize
        ensures { result ≡ width self.now (t +ℤ pos (degree_of r.now)) }
    {
        match t.checked_add(i64::from(r.degree())) {
            Some(above) => self.dim_in(above),
            None => {
                let _ = &self.list;
                0
            }
        }
    }

    /// Generator `i` as a vector of its degree.
    ///
    /// # Errors
    /// `Memory` if allocation fails.
    pub fn unit(&self, alloc: Global, i: usize) -> Result<BitVec, Memory>
        requires { i < length self.now }
        ensures { IfOk result (λ v. v ≡ unit self.now i) }
    {
        let here = self.within(i64::from(self.degree(i)));
        BitVec::unit(alloc, here.end - here.start, i - here.start)
    }

    /// The sum of these generators as a vector of degree `t`.
    ///
    /// # Errors
    /// `Memory` if allocation fails.
    pub fn sum(&self, alloc: Global, numbers: &[usize], t: i64) -> Result<BitVec, Memory>
        ensures { IfOk result (λ v. v ≡ sum_vector self.now numbers.now t) }
    {
        let range = self.within(t);
        let mut vector = BitVec::zero(alloc, 0)?;
        for j in range.start..range.end {
            vector.push(holds(numbers, j))?;
        }
        Ok(vector)
    }
}

/// Whether `j` is among these numbers.
fn holds(numbers: &[usize], j: usize) -> bool
    ensures { result ≡ list_any (nat_eq j) numbers.now }
{
    numbers.iter().any(|number| j == *number)
}
