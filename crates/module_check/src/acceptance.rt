//! The check that a module file describes a module over the Steenrod algebra.
ghost use Rattle.std.specs.Prelude.{◌≡◌, ◌≢◌, ◌^◌, ◌<◌, Some, None, length, IfOk, IfErr, OnOk};
ghost use Rattle.module_spec.specs.WellFormed.{IsWellFormed};
ghost use Rattle.finite_module.specs.DerivedAction.{derived_module};
ghost use Rattle.module_check.specs.Acceptance.{is_as_derived, listed_from, refusal_of};

use crate::derive::derive;
use crate::fault::CheckFault;
use crate::relations::{check_relations, degree_above};
use finite_module::{Module, Operators, sq};
use memory::Memory;
use module_spec::Spec;
use std::alloc::Global;

/// The module that a file describes, with each Sq(R) derived from the squares that the file lists.
///
/// # Errors
/// The first reason why it describes none: `Listed` for an entry that differs from its derived value, or else `Relation` for a
/// relation that fails. `Memory` if allocation fails.
pub fn check(alloc: Global, spec: &Spec) -> Result<Module, CheckFault>
    ensures module { IfOk result (λ m. m.plain ≡ derived_module spec.now) }
    ensures accepted { OnOk result (refusal_of spec.now ≡ None) }
    ensures refused { IfErr result (λ e. e ≢ CheckFault.Memory → refusal_of spec.now ≡ Some e) }
{
    // The call makes the invariant of the file known to the proof.
    let _ = spec.count();
    let operators = derive(alloc, spec)?;
    check_entries(alloc, spec, &operators)?;
    check_relations(alloc, &operators)?;
    Ok(Module::new(operators))
}

/// Whether each entry is as derived. The first that differs is the fault.
fn check_entries(alloc: Global, spec: &Spec, operators: &Operators) -> Result<(), CheckFault>
    requires well_formed { IsWellFormed spec.now }
    requires generators { operators.now.generators ≡ spec.now.generators }
    ensures holds { OnOk result (listed_from operators.now 0 spec.now.entries ≡ None) }
    ensures fails { IfErr result (λ e. e ≢ CheckFault.Memory → listed_from operators.now 0 spec.now.entries ≡ Some e) }
{
    for index in 0..spec.entries() {
        let (n, i, sum) = spec.entry(index);
        let same = is_as_derived(alloc, operators, n, i, sum)?;
        if !same {
            return Err(CheckFault::Listed { index });
        }
    }
    Ok(())
}

/// Whether n is a power of two, or this sum the value of Sq^n on generator `i`.
fn is_as_derived(
    alloc: Global,
    operators: &Operators,
    n: u32,
    i: usize,
    sum: &[usize],
) -> Result<bool, Memory>
    requires least { 0 < n }
    requires most { n < 2 ^ 16 }
    requires generator { i < length operators.now.generators }
    ensures { IfOk result
        (λ same. same ≡ is_as_derived operators.now (record { n = n; generator = i; sum = sum.now })) }
{
    if n.is_power_of_two() {
        return Ok(true);
    }
    let generators = operators.generators();
    let t = degree_above(generators, i, n);
    let mut difference = generators.sum(alloc, sum, t)?;
    operators.add_value(&mut difference, &sq(n as u16), i);
    Ok(difference.is_zero())
}
