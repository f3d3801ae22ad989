//! Modules made of others.
ghost use Rattle.std.specs.Prelude.{◌≡◌, ◌≢◌, ◌≤◌, ◌+◌, None, Some, IfOk, IfErr, OnOk};
ghost use Rattle.finite_module.specs.Axioms.{IsModule};
ghost use Rattle.finite_module.specs.DerivedAction.{span};
ghost use Rattle.built_laws.specs.Constructed.{shift_module, sum_module, tensor_module, dual_module};
ghost use Rattle.module_build.specs.Names.{numbered_name};
ghost use Rattle.module_build.specs.Limits.{limit_passed};
ghost use Rattle.module_build.specs.Inside.Construction.{order_of, generators_of, operators_below, made};

use crate::construction::Construction;
use crate::fault::BuildFault;
use crate::generators::generators;
use crate::limits::limit_passed;
use crate::order::{Placed, in_order};
use finite_module::{Generators, Module, Operators};
use memory::Memory;
use std::alloc::Global;

/// The module with all degrees raised by `n`.
///
/// # Errors
/// `Limit` with the first limit that the module would pass: generators, a degree, or the span of degrees. `Memory` if
/// allocation fails.
pub fn shift(alloc: Global, given: &Module, n: i32) -> Result<Module, BuildFault>
    ensures module { IfOk result (λ made. made.plain ≡ shift_module numbered_name n given.now.plain) }
    ensures within { OnOk result (limit_passed (shift_module numbered_name n given.now.plain).generators ≡ None) }
    ensures refused { IfErr result (λ e. e ≢ BuildFault.Memory →
        limit_passed (shift_module numbered_name n given.now.plain).generators ≡ Some e) }
{
    make(alloc, &Construction::Shift { given, by: n })
}

/// The sum of two modules.
///
/// # Errors
/// `Limit` with the first limit that the module would pass: generators, a degree, or the span of degrees. `Memory` if
/// allocation fails.
pub fn sum(alloc: Global, left: &Module, right: &Module) -> Result<Module, BuildFault>
    ensures module { IfOk result (λ made. made.plain ≡ sum_module numbered_name left.now.plain right.now.plain) }
    ensures within { OnOk result
        (limit_passed (sum_module numbered_name left.now.plain right.now.plain).generators ≡ None) }
    ensures refused { IfErr result (λ e. e ≢ BuildFault.Memory →
        limit_passed (sum_module numbered_name left.now.plain right.now.plain).generators ≡ Some e) }
{
    make(alloc, &Construction::Sum { left, right })
}

/// The tensor product of two modules.
///
/// # Errors
/// `Limit` with the first limit that the module would pass: generators, a degree, or the span of degrees. `Memory` if
/// allocation fails.
pub fn tensor(alloc: Global, left: &Module, right: &Module) -> Result<Module, BuildFault>
    ensures module { IfOk result (λ made. made.plain ≡ tensor_module numbered_name left.now.plain right.now.plain) }
    ensures within { OnOk result
        (limit_passed (tensor_module numbered_name left.now.plain right.now.plain).generators ≡ None) }
    ensures refused { IfErr result (λ e. e ≢ BuildFault.Memory →
        limit_passed (tensor_module numbered_name left.now.plain right.now.plain).generators ≡ Some e) }
{
    make(alloc, &Construction::Tensor { left, right })
}

/// The dual of a module.
///
/// # Errors
/// `Limit` with the first limit that the module would pass: generators, a degree, or the span of degrees. `Memory` if
/// allocation fails.
pub fn dual(alloc: Global, given: &Module) -> Result<Module, BuildFault>
    ensures module { IfOk result (λ made. made.plain ≡ dual_module numbered_name given.now.plain) }
    ensures within { OnOk result (limit_passed (dual_module numbered_name given.now.plain).generators ≡ None) }
    ensures refused { IfErr result (λ e. e ≢ BuildFault.Memory →
        limit_passed (dual_module numbered_name given.now.plain).generators ≡ Some e) }
{
    make(alloc, &Construction::Dual { given })
}

/// The module of a construction.
fn make(alloc: Global, construction: &Construction) -> Result<Module, BuildFault>
    requires { IsModule (made construction.now) }
    ensures module { IfOk result (λ m. m.plain ≡ made construction.now) }
    ensures within { OnOk result (limit_passed (made construction.now).generators ≡ None) }
    ensures refused { IfErr result (λ e. e ≢ BuildFault.Memory →
        limit_passed (made construction.now).generators ≡ Some e) }
{
    let order = in_order(alloc, construction)?;
    if let Some(fault) = limit_passed(order.as_slice()) {
        return Err(fault);
    }
    let generators = generators(alloc, order.as_slice())?;
    let operators = operators(alloc, construction, order.as_slice(), generators)?;
    Ok(Module::new(operators))
}

/// The operators of a construction, through the span of its generators.
fn operators(
    alloc: Global,
    construction: &Construction,
    order: &[Placed],
    generators: Generators,
) -> Result<Operators, Memory>
    requires order { order.now ≡ order_of construction.now }
    requires generators { generators ≡ generators_of (order_of construction.now) }
    ensures { IfOk result (λ operators. operators ≡ made construction.now) }
{
    let span = generators.span();
    let mut operators = Operators::new(alloc, generators)?;
    for n in 0..span + 1 {
        add_degree(alloc, construction, order, &mut operators, n)?;
    }
    Ok(operators)
}

/// Puts the operators of degree `n` behind those of lower degrees.
fn add_degree(
    alloc: Global,
    construction: &Construction,
    order: &[Placed],
    operators: &mut Operators,
    n: u16,
) -> Result<(), Memory>
    requires order { order.now ≡ order_of construction.now }
    requires generators { operators.old.generators ≡ generators_of (order_of construction.now) }
    requires degree { n ≤ span (generators_of (order_of construction.now)) }
    requires before { operators.old.operators ≡ operators_below n construction.now }
    ensures generators { operators.new.generators ≡ generators_of (order_of construction.now) }
    ensures after { OnOk result (operators.new.operators ≡ operators_below (n + 1) construction.now) }
{
    for k in 0..operators.basis().of_degree(n).len() {
        let r = operators.basis().of_degree(n)[k];
        let operator = construction.operator(alloc, operators, order, &r)?;
        operators.push(&r, operator)?;
    }
    Ok(())
}
