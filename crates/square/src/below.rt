//! The target of the linear map d_s.
ghost use Rattle.square.specs.Below.{graded_of, reaches_of, below_HasUnit, below_KeepsWidths};

use f2_vec::BitVec;
use finite_module::Module;
use free_module::{Gens, Target};
use memory::Memory;
use milnor_basis::{Basis, Exps};
use std::alloc::Global;

/// The target of d_s: the module for row 0, and for a row above it the free module on generators of the row below.
#[derive(Drop)]
pub enum Below<'a> {
    Module(&'a Module),
    Row(Gens),
}

impl<'a> Target for Below<'a> {
    ghost graded = { graded_of };

    ghost reaches = { reaches_of };

    fn dim(&self, basis: &Basis, t: i32) -> u128 {
        match self {
            Below::Module(module) => module.dim(basis, t),
            Below::Row(gens) => gens.dim(basis, t),
        }
    }

    fn act(
        &self,
        alloc: Global,
        basis: &Basis,
        r: &Exps,
        t: i32,
        v: &BitVec,
    ) -> Result<BitVec, Memory> {
        match self {
            Below::Module(module) => <Module as Target>::act(module, alloc, basis, r, t, v),
            Below::Row(gens) => gens.act(alloc, basis, r, t, v),
        }
    }

    fn act_all(
        &self,
        alloc: Global,
        basis: &Basis,
        degree: u16,
        t: i32,
        v: &BitVec,
    ) -> Result<Vec<BitVec>, Memory> {
        match self {
            Below::Module(module) => {
                <Module as Target>::act_all(module, alloc, basis, degree, t, v)
            }
            Below::Row(gens) => gens.act_all(alloc, basis, degree, t, v),
        }
    }

    ghost has_unit = { below_HasUnit };

    ghost keeps_widths = { below_KeepsWidths };
}
