//! What a module is made of, and how.
ghost use Rattle.std.specs.Prelude.{◌≡◌, ◌<◌, ◌+◌, length, IfOk};
ghost use Rattle.milnor_basis.specs.Exponents.{degree_of};
ghost use Rattle.built_laws.specs.Built.{operator_on};
ghost use Rattle.module_build.specs.Inside.Construction.{size_of, degree_in, degree_in_sum, coefficient_by, order_of, generators_of, HasValuesBelow};

use crate::coefficients::Coefficients;
use crate::dual_operators::dual_operator;
use crate::order::Placed;
use crate::splittings::splittings;
use finite_module::{Module, Operator, Operators};
use memory::Memory;
use milnor_basis::Exps;
use std::alloc::Global;

/// The degree of the unit, Sq().
const UNIT_DEGREE: u32 = 0;

/// What a module is made of, and how. Its basis is numbered: that of a sum part by part, and that of a tensor product row by
/// row, a row for each generator of the left factor.
#[derive(Clone, Copy)]
pub(crate) enum Construction<'a> {
    Shift { given: &'a Module, by: i32 },
    Sum { left: &'a Module, right: &'a Module },
    Tensor { left: &'a Module, right: &'a Module },
    Dual { given: &'a Module },
}

impl Construction<'_> {
    /// How many basis elements there are.
    pub(crate) fn size(&self) -> usize
        ensures { result ≡ size_of self.now }
    {
        match self {
            Construction::Shift { given, .. } | Construction::Dual { given } => given.count(),
            Construction::Sum { left, right } => left.count() + right.count(),
            Construction::Tensor { left, right } => left.count() * right.count(),
        }
    }

    /// The degree of basis element `x`.
    pub(crate) fn degree(&self, x: usize) -> i64
        requires { x < size_of self.now }
        ensures { result ≡ degree_in self.now x }
    {
        match self {
            Construction::Shift { given, by } => i64::from(given.degree(x)) + i64::from(*by),
            Construction::Sum { left, right } => degree_in_sum(left, right, x),
            Construction::Tensor { left, right } => {
                let count = right.count();
                i64::from(left.degree(x / count)) + i64::from(right.degree(x % count))
            }
            Construction::Dual { given } => -i64::from(given.degree(x)),
        }
    }

    /// Sq(R) on the generators, by the operators before it.
    pub(crate) fn operator(
        &self,
        alloc: Global,
        before: &Operators,
        order: &[Placed],
        r: &Exps,
    ) -> Result<Operator, Memory>
        requires order { order.now ≡ order_of self.now }
        requires generators { before.now.generators ≡ generators_of (order_of self.now) }
        requires before { HasValuesBelow (degree_of r.now) (coefficient_by self.now) before.now }
        ensures { IfOk result
            (λ operator. operator ≡ operator_on (generators_of (order_of self.now)) (coefficient_by self.now) r.now) }
    {
        match self {
            Construction::Shift { given, .. } => {
                let coefficients = Coefficients::Same {
                    operators: given.operators(),
                    r: *r,
                };
                coefficients.operator(alloc, before.generators(), order, r.degree())
            }
            Construction::Sum { left, right } => {
                let coefficients = Coefficients::Blocks {
                    left: left.operators(),
                    right: right.operators(),
                    r: *r,
                };
                coefficients.operator(alloc, before.generators(), order, r.degree())
            }
            Construction::Tensor { left, right } => {
                let coefficients = Coefficients::Pairs {
                    left: left.operators(),
                    right: right.operators(),
                    splittings: splittings(
                        alloc,
                        left.operators().basis(),
                        right.operators().basis(),
                        r,
                    )?,
                };
                coefficients.operator(alloc, before.generators(), order, r.degree())
            }
            Construction::Dual { given } => {
                if r.degree() > UNIT_DEGREE {
                    return dual_operator(alloc, given, before, order, r);
                }
                let coefficients = Coefficients::Turned {
                    operators: given.operators(),
                    r: *r,
                };
                coefficients.operator(alloc, before.generators(), order, r.degree())
            }
        }
    }
}

/// The degree of basis element `x` of a sum.
fn degree_in_sum(left: &Module, right: &Module, x: usize) -> i64
    requires { x < length left.now.plain.generators + length right.now.plain.generators }
    ensures { result ≡ degree_in_sum left.now.plain right.now.plain x }
{
    let count = left.count();
    if x < count {
        i64::from(left.degree(x))
    } else {
        i64::from(right.degree(x - count))
    }
}
