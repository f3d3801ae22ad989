//! The target of d_s, whose vectors are written as sums.
ghost use Rattle.std.specs.Prelude.{◌≡◌, length, IfOk};
ghost use Rattle.ext_chart.specs.Inside.Targets.{IsNamed, IsTargetOf, text_over, width_over};

use crate::row_gens::{RowGens, row_gens};
use crate::shown::Shown;
use crate::terms::free_sum_text;
use f2_vec::BitVec;
use finite_module::Module;
use memory::Memory;
use milnor_basis::Basis;
use std::alloc::Global;

/// The target of d_s with names for its basis: for row 0 the module, whose generators have names, and for a row above it
/// the free module on the generators of the row below, which are named by their places.
#[derive(Drop)]
pub(crate) enum NamedTarget<'a> {
    Module(&'a Module),
    Row(RowGens),
}

impl<'a> NamedTarget<'a> {
    /// The target of d_s over the squares of a table.
    pub(crate) fn of<R: Shown>(
        alloc: Global,
        table: &'a R,
        s: u16,
    ) -> Result<NamedTarget<'a>, Memory>
        ensures { IfOk result
            (λ target. IsTargetOf (R.seen table.now).resolved.plain.generators (R.seen table.now).rows s target) }
    {
        if s == 0 {
            return Ok(NamedTarget::Module(table.module()));
        }
        Ok(NamedTarget::Row(row_gens(alloc, table, s - 1)?))
    }

    /// The vector `v` of degree `t` as a sum of basis elements.
    pub(crate) fn sum_text(
        &self,
        alloc: Global,
        basis: &Basis,
        t: i32,
        v: &BitVec,
    ) -> Result<Vec<u8>, Memory>
        requires named { IsNamed self.now basis.now t }
        requires width { length v.now ≡ width_over self.now t }
        ensures { IfOk result (λ text. text.items ≡ text_over self.now t v.now) }
    {
        match self {
            NamedTarget::Module(module) => module.sum_text(alloc, t, v),
            NamedTarget::Row(row) => {
                free_sum_text(alloc, basis, &row.gens, row.places.as_slice(), t, v)
            }
        }
    }
}
