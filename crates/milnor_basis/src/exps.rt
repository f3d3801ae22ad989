//! Exponent lists.
ghost use Rattle.std.specs.Prelude.{◌≡◌, ◌≤◌, ◌<◌, ◌^◌, ◌↔◌, ℕ, List, [], length, IsTrue, nat_eq};
ghost use Rattle.std.specs.Cmp.{partial_equiv_from_equiv};
ghost use Rattle.std.specs.Cmp.Lexicographic.{pointwise, nat_list_eq_equiv};
ghost use Rattle.milnor_basis.specs.Exponents.{degree_of, trimmed, entry, IsTrimmed};

use std::marker::Model;

/// How many exponents an `Exps` has room for. No element of a degree below 511 has more.
pub const MAX_EXPONENTS: usize = 8;

/// The exponents of Sq(R), seen as the list R without zeros at its end.
#[derive(Clone, Copy, Debug)]
pub struct Exps {
    numbers: [u16; 8],
}

impl Model for Exps {
    ghost use Rattle.std.specs.Prelude.{◌≡◌, ◌<◌, ◌^◌, List, ℕ, length};
    ghost use Rattle.milnor_basis.specs.Exponents.{entry, trimmed};
    ghost use Rattle.milnor_basis.specs.Inside.Padding.{padded, padded-trimmed};
    ghost use Rattle.std.proofs.Common.{ap};

    ghost Value = { List ℕ };

    ghost view = { λ e. trimmed e.numbers };

    ghost invariant = { λ e. (length e.numbers ≡ 8) × ((j : ℕ) → entry e.numbers j < 2 ^ 16) };

    ghost inverse = { λ r. record { numbers = padded 8 r } };

    ghost inverse_ok = { λ e h. ap (λ ns. record { numbers = ns }) (padded-trimmed 8 e.numbers h.0) };
}

impl Exps {
    /// Sq(R) for the list R of these numbers.
    pub fn of(numbers: [u16; 8]) -> Self
        ensures { result ≡ trimmed numbers }
    {
        Exps { numbers }
    }

    /// The degree of Sq(R).
    pub fn degree(&self) -> u32
        ensures degree { result ≡ degree_of self.now }
        ensures trimmed { IsTrimmed self.now }
    {
        let mut degree = 0;
        for (i, number) in self.numbers.iter().enumerate() {
            degree += u32::from(*number) * ((1 << (i + 1)) - 1);
        }
        degree
    }

    /// The exponent at place `i`, counted from 0, and 0 past the end.
    pub fn exponent(&self, i: usize) -> u16
        ensures { result ≡ entry self.now i }
    {
        if i < MAX_EXPONENTS {
            self.numbers[i]
        } else {
            0
        }
    }

    /// How many exponents there are, up to the last above 0.
    pub fn len(&self) -> usize
        ensures length { result ≡ length self.now }
        ensures short { length self.now ≤ 8 }
        ensures trimmed { IsTrimmed self.now }
        ensures small { (j : ℕ) → entry self.now j < 2 ^ 16 }
    {
        let mut len = MAX_EXPONENTS;
        while len > 0 && self.numbers[len - 1] == 0 {
            len -= 1;
        }
        len
    }

    /// Whether this is Sq(), the unit.
    pub fn is_empty(&self) -> bool
        ensures { IsTrue result ↔ (self.now ≡ []) }
    {
        self.len() == 0
    }
}

impl PartialEq for Exps {
    ghost eq = { pointwise nat_eq };

    ghost laws = { partial_equiv_from_equiv nat_list_eq_equiv };

    fn eq(&self, other: &Exps) -> bool {
        self.numbers == other.numbers
    }
}

impl Eq for Exps {
    ghost laws = { nat_list_eq_equiv };
}
