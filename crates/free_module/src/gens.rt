//! The generators of a free module, and the module on them.
ghost use Rattle.std.specs.Prelude.{◌≡◌, ◌≤◌, ◌<◌, ◌+◌, ◌^◌, ℕ, ℤ, pos, ◌+ℤ◌, ◌-ℤ◌, ◌≤ℤ◌, List, [], ◌∷◌, ◌++◌, Bool, length, map, take, drop, replicate, IfOk, OnOk, OnErr, Some, slice_get};
ghost use Rattle.f2_vec.specs.Spans.{row};
ghost use Rattle.milnor_basis.specs.Basis.{basis_of};
ghost use Rattle.milnor_basis.specs.Exponents.{degree_of};
ghost use Rattle.milnor_product.specs.Times.{basis_at};
ghost use Rattle.free_module.specs.Columns.{IsTableOfColumns, AreAdded};
ghost use Rattle.free_module.specs.Inside.Terms.{AreTerms};
ghost use Rattle.free_module.specs.Inside.FreeLaws.{free_HasUnit, free_KeepsWidths};
ghost use Rattle.free_module.specs.FreeModule.{IsWithinReach, degree_at, free_action, free_basis, free_width};
ghost use Rattle.free_module.specs.Graded.{free_graded};

use crate::target::Target;
use crate::terms::{Term, add_products, add_to_columns, multiples_of, with_block};
use f2_vec::BitVec;
use memory::Memory;
use milnor_basis::{Basis, Exps};
use milnor_product::{elements_at, product};
use std::alloc::Global;
use std::marker::Model;

/// The generators of a free module, seen as the list of their degrees, which never fall.
#[derive(Debug, Drop)]
pub struct Gens {
    degrees: Vec<i32>,
}

impl Model for Gens {
    ghost use Rattle.std.specs.Prelude.{List, ℤ};
    ghost use Rattle.free_module.specs.FreeModule.{NeverFall};

    ghost Value = { List ℤ };

    ghost view = { λ g. g.degrees.items };

    ghost invariant = { λ g. NeverFall g.degrees.items };
}

impl Gens {
    /// No generators.
    pub fn new(alloc: Global) -> Self
        ensures { result ≡ [] }
    {
        Gens {
            degrees: Vec::new(alloc),
        }
    }

    /// Puts one more generator at the end, of this degree.
    ///
    /// # Errors
    /// `Memory` if allocation fails; the generators are then as before.
    pub fn push(&mut self, degree: i32) -> Result<(), Memory>
        requires not_below { (g : ℕ) → g < length self.old → degree_at self.old g ≤ℤ degree }
        ensures ok { OnOk result (self.new ≡ self.old ++ degree ∷ []) }
        ensures err { OnErr result (self.new ≡ self.old) }
    {
        self.degrees.push(degree)?;
        Ok(())
    }

    /// Puts `count` more generators of this degree at the end.
    ///
    /// # Errors
    /// `Memory` if allocation fails; the generators are then as before.
    pub fn push_many(&mut self, count: usize, degree: i32) -> Result<(), Memory>
        requires not_below { (g : ℕ) → g < length self.old → degree_at self.old g ≤ℤ degree }
        ensures ok { OnOk result (self.new ≡ self.old ++ replicate count degree) }
        ensures err { OnErr result (self.new ≡ self.old) }
    {
        self.degrees.reserve(count)?;
        for _ in 0..count {
            self.degrees.push_reserved(degree);
        }
        Ok(())
    }

    /// The generators' degrees.
    pub fn degrees(&self) -> &[i32]
        ensures { result.now ≡ self.now }
    {
        self.degrees.as_slice()
    }

    /// The place, in the basis of degree `t`, of Sq(R) on the generator with this number. Places and numbers are
    /// counted from 0.
    pub fn place(&self, basis: &Basis, t: i32, generator: usize, r: &Exps) -> usize
        requires there { generator < length self.now }
        requires degree { (degree_at self.now generator +ℤ pos (degree_of r.now)) ≡ t }
        requires reach { IsWithinReach basis.now self.now t }
        requires fits { free_width self.now t < 2 ^ 64 }
        ensures { slice_get (free_basis self.now t) result ≡ Some (generator, r.now) }
    {
        match basis.place(r) {
            Some((_, place)) => self.block_start(basis, t, generator) + place,
            None => unreachable!(),
        }
    }

    /// The number of a generator and the R of an Sq(R), which on that generator is element `i` of the basis of
    /// degree `t`.
    pub fn at(&self, basis: &Basis, t: i32, i: usize) -> (usize, Exps)
        requires within { i < free_width self.now t }
        requires reach { IsWithinReach basis.now self.now t }
        ensures element { slice_get (free_basis self.now t) i ≡ Some (result.0, result.1) }
        ensures there { result.0 < length self.now }
        ensures degree { (degree_at self.now result.0 +ℤ pos (degree_of result.1)) ≡ t }
    {
        let mut left = i;
        for generator in 0..self.degrees.len() {
            let elements = self.block(basis, t, generator);
            if left < elements.len() {
                return (generator, elements[left]);
            }
            left -= elements.len();
        }
        unreachable!()
    }

    /// The elements Sq(R) that go with a generator in degree `t`.
    fn block<'a>(&self, basis: &'a Basis, t: i32, generator: usize) -> &'a [Exps]
        requires there { generator < length self.now }
        requires reach { IsWithinReach basis.now self.now t }
        ensures { result.now ≡ basis_at (t -ℤ degree_at self.now generator) }
    {
        elements_at(basis, i64::from(t) - i64::from(self.degrees[generator]))
    }

    /// How many elements of degree `t` stand before those of a generator.
    fn block_start(&self, basis: &Basis, t: i32, generator: usize) -> usize
        requires there { generator < length self.now }
        requires reach { IsWithinReach basis.now self.now t }
        requires fits { free_width self.now t < 2 ^ 64 }
        ensures { result ≡ free_width (take generator self.now) t }
    {
        let mut start = 0;
        for g in 0..generator {
            start += self.block(basis, t, g).len();
        }
        start
    }

    /// The dimension in degree `t`.
    fn dim_in(&self, basis: &Basis, t: i64) -> u128
        requires reach { IsWithinReach basis.now self.now t }
        requires small { t ≤ℤ pos (2 ^ 33) }
        requires large { pos 0 ≤ℤ (t +ℤ pos (2 ^ 33)) }
        ensures { result ≡ free_width self.now t }
    {
        let mut dim = 0;
        for degree in self.degrees() {
            dim += elements_at(basis, t - i64::from(*degree)).len() as u128;
        }
        dim
    }

    /// The dimension in the degree that is `above` degrees above `t`, where it fits `usize`.
    fn width_above(&self, basis: &Basis, t: i32, above: u32) -> Result<usize, Memory>
        requires { IsWithinReach basis.now self.now (t +ℤ pos above) }
        ensures { IfOk result (λ width. width ≡ free_width self.now (t +ℤ pos above)) }
    {
        match usize::try_from(self.dim_in(basis, i64::from(t) + i64::from(above))) {
            Ok(width) => Ok(width),
            // No memory holds a vector of that length.
            Err(_) => Err(Memory),
        }
    }

    /// The terms of `v`, a vector of degree `t`, for products with elements of degree `above`.
    fn terms(
        &self,
        alloc: Global,
        basis: &Basis,
        above: u32,
        t: i32,
        v: &BitVec,
    ) -> Result<Vec<Term>, Memory>
        requires width { length v.now ≡ free_width self.now t }
        requires reach { IsWithinReach basis.now self.now (t +ℤ pos above) }
        requires fits { free_width self.now (t +ℤ pos above) < 2 ^ 64 }
        ensures { IfOk result (λ terms. AreTerms basis.now self.now above t v.now (length v.now) terms.items) }
    {
        let _len = v.len();
        let mut terms = Vec::new(alloc);
        let mut start = 0;
        let mut offset = 0;
        for degree in self.degrees() {
            let n = i64::from(t) - i64::from(*degree);
            let elements = elements_at(basis, n);
            terms = with_block(terms, v, start, elements, offset)?;
            start += elements.len();
            offset += elements_at(basis, n + i64::from(above)).len();
        }
        Ok(terms)
    }

    /// Adds Sq(R) on `v`, a vector of degree `t`, for each R of the basis of this degree, to the columns, from place
    /// `end` - 1 down: what it has at a place goes to the column whose number the table has there. What goes with no
    /// column is not made.
    ///
    /// # Errors
    /// `Memory` if allocation fails; the columns are then of no use.
    pub fn add_to_columns(
        &self,
        alloc: Global,
        basis: &Basis,
        degree: u16,
        t: i32,
        v: &BitVec,
        table: &[Option<usize>],
        end: usize,
        columns: &mut [BitVec],
    ) -> Result<(), Memory>
        requires width { length v.now ≡ free_width self.now t }
        requires reach { IsWithinReach basis.now self.now (t +ℤ pos degree) }
        requires places { length table.now ≡ free_width self.now (t +ℤ pos degree) }
        requires table { IsTableOfColumns (length columns.old) table.now }
        requires lengths { (j : ℕ) → j < length columns.old → end ≤ length (row columns.old j) }
        requires few { length (basis_of degree) ≤ end }
        ensures { OnOk result (AreAdded table.now end
            (map (λ r. free_action self.now r t v.now) (basis_of degree)) columns.old columns.new) }
    {
        // A length fits `usize`, so the dimension does.
        prove!(table.len() <= usize::MAX);
        let terms = self.terms(alloc, basis, u32::from(degree), t, v)?;
        let found = multiples_of(alloc, basis, degree, terms.as_slice())?;
        for i in 0..terms.len() {
            add_to_columns(columns, table, end, terms[i].offset, found[i]);
        }
        Ok(())
    }
}

impl Target for Gens {
    ghost graded = { λ gens. free_graded gens };

    ghost reaches = { λ gens max t. IsWithinReach max gens t };

    fn dim(&self, basis: &Basis, t: i32) -> u128 {
        self.dim_in(basis, i64::from(t))
    }

    fn act(
        &self,
        alloc: Global,
        basis: &Basis,
        r: &Exps,
        t: i32,
        v: &BitVec,
    ) -> Result<BitVec, Memory> {
        let width = self.width_above(basis, t, r.degree())?;
        let mut image = BitVec::zero(alloc, width)?;
        for term in &self.terms(alloc, basis, r.degree(), t, v)? {
            image.xor_at(term.offset, &product(alloc, basis, r, &term.right)?);
        }
        Ok(image)
    }

    fn act_all(
        &self,
        alloc: Global,
        basis: &Basis,
        degree: u16,
        t: i32,
        v: &BitVec,
    ) -> Result<Vec<BitVec>, Memory> {
        let width = self.width_above(basis, t, u32::from(degree))?;
        let mut rows = BitVec::zero_rows(alloc, basis.of_degree(degree).len(), width)?;
        let terms = self.terms(alloc, basis, u32::from(degree), t, v)?;
        let found = multiples_of(alloc, basis, degree, terms.as_slice())?;
        for i in 0..terms.len() {
            add_products(rows.as_mut_slice(), terms[i].offset, found[i]);
        }
        Ok(rows)
    }

    ghost has_unit = { λ gens. free_HasUnit gens };

    ghost keeps_widths = { λ gens. free_KeepsWidths gens };
}
