//! Sums of monomials in Steenrod's squares.
ghost use Rattle.std.specs.Prelude.{◌≡◌};

use monomial::Mono;
use std::marker::Model;

/// A sum of monomials, seen as the list of them.
#[derive(Debug, Drop)]
pub struct Sum {
    monomials: Vec<Mono>,
}

impl Model for Sum {
    ghost use Rattle.std.specs.Prelude.{List, ℕ};

    ghost Value = { List (List ℕ) };

    ghost view = { λ s. s.monomials.items };
}

impl Sum {
    /// The sum of these monomials.
    pub fn of(monomials: Vec<Mono>) -> Self
        ensures { result ≡ monomials.items }
    {
        Sum { monomials }
    }

    /// The monomials, in order.
    pub fn monomials(&self) -> &[Mono]
        ensures { result.now ≡ self.now }
    {
        self.monomials.as_slice()
    }

    /// The monomials, as the vector that holds them.
    pub fn into_monomials(self) -> Vec<Mono>
        ensures { result.items ≡ self }
    {
        self.monomials
    }
}
