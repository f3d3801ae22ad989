//! The target of a linear map.
ghost use Rattle.std.specs.Prelude.{◌≡◌, ◌≤◌, ℕ, ℤ, pos, ◌+ℤ◌, Bool, length, map, IfOk};
ghost use Rattle.milnor_basis.specs.Exponents.{degree_of};
ghost use Rattle.milnor_basis.specs.Basis.{basis_of};
ghost use Rattle.free_module.specs.Graded.{GradedModule, HasUnit, KeepsWidths};

use f2_vec::BitVec;
use memory::Memory;
use milnor_basis::{Basis, Exps};
use std::alloc::Global;

/// The target of a linear map: a graded module, with Milnor's basis elements acting on it.
pub trait Target {
    /// The module.
    ghost graded: { Self → GradedModule };

    /// The degrees above a generator are at most `max` in degree t.
    ghost reaches: { Self → ℕ → ℤ → Type 0 };

    /// The dimension in degree `t`.
    fn dim(&self, basis: &Basis, t: i32) -> u128
        requires { reaches self.now basis.now t }
        ensures { result ≡ (graded self.now).width t };

    /// Sq(R) on the vector `v` of degree `t`, a vector of that degree and R's.
    fn act(
        &self,
        alloc: Global,
        basis: &Basis,
        r: &Exps,
        t: i32,
        v: &BitVec,
    ) -> Result<BitVec, Memory>
        requires width { length v.now ≡ (graded self.now).width t }
        requires reach { reaches self.now basis.now (t +ℤ pos (degree_of r.now)) }
        ensures { IfOk result (λ w. w ≡ (graded self.now).action r.now t v.now) };

    /// Sq(R) on the vector `v` of degree `t`, for each R of the basis of this degree, in order. The rows are vectors of
    /// the two degrees together.
    ///
    /// # Errors
    /// `Memory` if allocation fails.
    fn act_all(
        &self,
        alloc: Global,
        basis: &Basis,
        degree: u16,
        t: i32,
        v: &BitVec,
    ) -> Result<Vec<BitVec>, Memory>
        requires width { length v.now ≡ (graded self.now).width t }
        requires reach { reaches self.now basis.now (t +ℤ pos degree) }
        requires basis { degree ≤ basis.now }
        ensures { IfOk result (λ rows. rows.items ≡ map (λ r. (graded self.now).action r t v.now) (basis_of degree)) }
    {
        let mut rows = Vec::new(alloc);
        for r in basis.of_degree(degree) {
            rows.push(self.act(alloc, basis, r, t, v)?)?;
        }
        Ok(rows)
    }

    /// Sq() acts as the identity.
    ghost has_unit: { (m : Self) → HasUnit (graded m) };

    /// Sq(R) takes a vector of degree t to one of degree t and R's.
    ghost keeps_widths: { (m : Self) → KeepsWidths (graded m) };
}
