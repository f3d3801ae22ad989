//! The exponent list of a square.
ghost use Rattle.std.specs.Prelude.{◌≡◌, ◌<◌, [], ◌∷◌};

use milnor_basis::Exps;

/// Sq^n.
#[tactic(auto, using(crate::proofs::TextSteps::trimmed_square))]
pub fn sq(n: u16) -> Exps
    requires { 0 < n }
    ensures { result ≡ n ∷ [] }
{
    Exps::of([n, 0, 0, 0, 0, 0, 0, 0])
}
