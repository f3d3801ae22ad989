//! The action of the Steenrod algebra on the powers of a class of degree 1, as the contract of a function that does nothing.
#![tactic(auto)]

ghost use Rattle.projective_laws.specs.Powers.{BinomialsHavePeriod, BinomialsOfNegatives, PowersAct};

/// The powers of a class x of degree 1 are a module: Sq(R) takes x^n to x^(n + the degree of R) or to 0, by a multinomial mod 2. The
/// binomials by which the squares act have a period, so the powers below 0 act too.
pub fn powers_are_a_module()
    ensures products { PowersAct }
    ensures period { BinomialsHavePeriod }
    ensures negatives { BinomialsOfNegatives }
{}
