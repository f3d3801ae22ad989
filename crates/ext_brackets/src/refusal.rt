//! Why there is no bracket, told of the classes that were asked for.
ghost use Rattle.std.specs.Prelude.{◌≡◌, ℕ, suc, Bool, List};
ghost use Rattle.massey.specs.declared.fault.MasseyFault.TheVariants.{Nonzero as NotZero};
ghost use Rattle.ext_brackets.specs.Brackets.{absent, past, not_zero};
ghost use Rattle.ext_brackets.specs.Inside.{fault_of, HasSquare};

use bidegree::Class;
use ext_products::{ClassesFault, Named, Pair, Refusal, Target};
use f2_vec::BitVec;
use massey::MasseyFault;

/// What a fault of the bracket <a, b, c> says of the classes.
pub(crate) fn fault_of(fault: MasseyFault, a: Class, b: Class, c: Class) -> ClassesFault
    requires ab { (product : List Bool) → fault ≡ NotZero 0 product → HasSquare a b }
    requires bc { (n : ℕ) (product : List Bool) → fault ≡ NotZero (suc n) product → HasSquare b c }
    ensures { result ≡ fault_of a b c fault }
{
    let refusal = match fault {
        MasseyFault::NoClass { which, count } => no_class(which, count, a, b, c),
        MasseyFault::OutOfRange { which, s, t } => out_of_range(which, s, t),
        MasseyFault::Nonzero { which, product } => match which {
            0 => nonzero(Pair::Ab, a, b, product),
            _ => nonzero(Pair::Bc, b, c, product),
        },
        MasseyFault::Memory => return ClassesFault::Memory,
    };
    ClassesFault::Refused(refusal)
}

/// That there is no class with this number, 0 for a, 1 for b and 2 for c.
fn no_class(which: u8, count: usize, a: Class, b: Class, c: Class) -> Refusal
    ensures { result ≡ absent a b c which count }
{
    let (named, class) = match which {
        0 => (Named::A, a),
        1 => (Named::B, b),
        _ => (Named::C, c),
    };
    Refusal::NoClass {
        named,
        class,
        count,
    }
}

/// That the square (s, t) is past the range, by the number of the target: 0 for ab, 1 for bc and 2 for the bracket.
fn out_of_range(which: u8, s: i32, t: i32) -> Refusal
    ensures { result ≡ past which s t }
{
    let target = match which {
        0 => Target::Product(Pair::Ab),
        1 => Target::Product(Pair::Bc),
        _ => Target::Bracket,
    };
    Refusal::OutOfRange { target, s, t }
}

/// That the product of the classes `a` and `x` is not zero.
fn nonzero(pair: Pair, a: Class, x: Class, product: BitVec) -> Refusal
    requires square { HasSquare a x }
    ensures { result ≡ not_zero pair a x product }
{
    Refusal::Nonzero {
        pair,
        s: (a.s + x.s) as i32,
        t: a.t + x.t,
        product,
    }
}
