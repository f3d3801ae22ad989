//! The admissible monomial of a leading term.
ghost use Rattle.std.specs.Prelude.{◌≡◌, ◌<◌, ◌^◌, IfOk};
ghost use Rattle.milnor_basis.specs.Exponents.{degree_of};
ghost use Rattle.adem_laws.specs.Admissible.{monomial_of};

use memory::Memory;
use milnor_basis::Exps;
use monomial::Mono;
use std::alloc::Global;

/// The admissible monomial whose last term in Milnor's basis is Sq(R). Its numbers are r1 + 2 r2 + 4 r3 + .., then
/// r2 + 2 r3 + .., and so on.
pub(crate) fn leading(alloc: Global, r: &Exps) -> Result<Mono, Memory>
    requires { degree_of r.now < 2 ^ 16 }
    ensures { IfOk result (λ m. m ≡ monomial_of r.now) }
{
    let mut numbers = Vec::with_capacity(alloc, r.len())?;
    let mut front = 0;
    for i in (0..r.len()).rev() {
        front = r.exponent(i) + 2 * front;
        numbers.push(front)?;
    }
    numbers.reverse();
    Ok(Mono::of(numbers))
}
