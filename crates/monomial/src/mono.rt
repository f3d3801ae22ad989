//! Monomials in Steenrod's squares.
ghost use Rattle.std.specs.Prelude.{◌≡◌, ◌≤◌, ◌^◌, ◌↔◌, Some, nat_eq, refl, IfSome, IsNone};
ghost use Rattle.std.specs.Cmp.{partial_equiv_from_equiv};
ghost use Rattle.std.specs.Cmp.Lexicographic.{pointwise, slice_cmp, nat_list_eq_equiv, nat_list_cmp_total, texts_po, texts_ties};
ghost use Rattle.std.specs.List.{sum};
ghost use Rattle.std.specs.Ordering.{nat_cmp};

use std::cmp::Ordering;
use std::marker::Model;

/// A product of squares Sq^i1 Sq^i2 .., seen as the list of the numbers i1, i2, .. in that order. The empty one is the unit.
/// Monomials are ordered as lists: the first number that differs decides, and a list comes before those that it begins. A
/// number may be 0, since Sq0 is the unit, so each product of squares is a monomial and has a value; an admissible one has
/// no 0.
#[derive(Debug, Drop)]
pub struct Mono {
    numbers: Vec<u16>,
}

impl Model for Mono {
    ghost use Rattle.std.specs.Prelude.{List, ℕ};

    ghost Value = { List ℕ };

    ghost view = { λ m. m.numbers.items };
}

impl Mono {
    /// The monomial with these numbers.
    pub fn of(numbers: Vec<u16>) -> Self
        ensures { result ≡ numbers.items }
    {
        Mono { numbers }
    }

    /// The numbers, that of the first square first.
    pub fn numbers(&self) -> &[u16]
        ensures { result.now ≡ self.now }
    {
        self.numbers.as_slice()
    }

    /// The numbers, as the vector that holds them.
    pub fn into_numbers(self) -> Vec<u16>
        ensures { result.items ≡ self }
    {
        self.numbers
    }

    /// The degree, which is the sum of the numbers; none where that is above the greatest number of its type.
    pub fn degree(&self) -> Option<u16>
        ensures degree { IfSome result (λ degree. degree ≡ sum self.now) }
        ensures past { IsNone result ↔ (2 ^ 16 ≤ sum self.now) }
    {
        let mut degree: u16 = 0;
        for number in self.numbers.iter() {
            degree = degree.checked_add(*number)?;
        }
        Some(degree)
    }
}

impl PartialEq for Mono {
    ghost eq = { pointwise nat_eq };

    ghost laws = { partial_equiv_from_equiv nat_list_eq_equiv };

    fn eq(&self, other: &Mono) -> bool {
        self.numbers == other.numbers
    }
}

impl Eq for Mono {
    ghost laws = { nat_list_eq_equiv };
}

impl PartialOrd for Mono {
    ghost partial_cmp = { λ a b. Some (slice_cmp nat_cmp a b) };

    ghost laws = { texts_po };

    fn partial_cmp(&self, other: &Mono) -> Option<Ordering> {
        Some(self.cmp(other))
    }
}

impl Ord for Mono {
    ghost cmp = { slice_cmp nat_cmp };

    ghost total = { nat_list_cmp_total };

    ghost matches_partial_cmp = { λ a b. refl };

    ghost matches_eq = { texts_ties };

    fn cmp(&self, other: &Mono) -> Ordering {
        self.numbers.cmp(&other.numbers)
    }
}
