//! A module as the target of linear maps.
ghost use Rattle.std.specs.Prelude.{ℕ, ℤ};
ghost use Rattle.finite_module.specs.Graded.{module_graded};
ghost use Rattle.finite_module.specs.ModuleLaws.{module_HasUnit, module_KeepsWidths};

use crate::finite_module::Module;
use f2_vec::BitVec;
use free_module::Target;
use memory::Memory;
use milnor_basis::{Basis, Exps};
use std::alloc::Global;

// A module holds its own basis of the algebra, and reaches each degree.
impl Target for Module {
    ghost graded = { λ m. module_graded m.plain };

    ghost reaches = { λ m max t. Unit {0} };

    fn dim(&self, _basis: &Basis, t: i32) -> u128 {
        self.dim_in(t) as u128
    }

    fn act(
        &self,
        alloc: Global,
        _basis: &Basis,
        r: &Exps,
        t: i32,
        v: &BitVec,
    ) -> Result<BitVec, Memory> {
        self.operators().act_on(alloc, r, i64::from(t), v)
    }

    ghost has_unit = { λ m. module_HasUnit m.plain m.is_module };

    ghost keeps_widths = { λ m. module_KeepsWidths m.plain m.is_module };
}
