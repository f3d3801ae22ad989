//! The first number of an exponent list and those behind it.
ghost use Rattle.std.specs.Prelude.{◌≡◌, ◌<◌, ◌^◌, length, drop};
ghost use Rattle.milnor_basis.specs.Exponents.{degree_of};
ghost use Rattle.milnor_basis.specs.Front.{front};

use milnor_basis::Exps;

/// The n for which Sq(R) is a term of the product of Sq^n and Sq(r2, r3, ..): r1 + 2 r2 + 4 r3 + ..
pub(crate) fn front(r: &Exps) -> u16
    requires { degree_of r.now < 2 ^ 16 }
    ensures front { result ≡ front r.now }
    ensures positive { 0 < length r.now → 0 < result }
{
    let mut front = 0;
    for i in (0..r.len()).rev() {
        front = r.exponent(i) + 2 * front;
    }
    front
}

/// The exponents behind the first.
pub(crate) fn rest(r: &Exps) -> Exps
    ensures { result ≡ drop 1 r.now }
{
    let mut numbers = [0; 8];
    for i in 1..r.len() {
        numbers[i - 1] = r.exponent(i);
    }
    Exps::of(numbers)
}
