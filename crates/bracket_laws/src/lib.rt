//! Massey products of three classes, over every choice of lifts and null homotopies, as contracts of functions that do nothing.
#![tactic(auto)]

ghost use Rattle.bracket_laws.specs.Brackets.{BracketHasMember, BracketIsCoset, UnitsHaveNoZeroProducts};

/// A bracket whose bc is zero has members, for each lift of c and of b.
pub fn bracket_has_member()
    ensures { BracketHasMember }
{
    resolution_laws::canonical_table_is_minimal_resolution();
}

/// The members of a bracket are one of them and the span of the indeterminacy.
pub fn bracket_is_coset()
    ensures { BracketIsCoset }
{
    resolution_laws::canonical_table_is_minimal_resolution();
}

/// A class whose product with another is zero is in a row above 0, as the classes a and b of a bracket are: row 0 of the sphere has the
/// unit alone.
pub fn units_have_no_zero_products()
    ensures { UnitsHaveNoZeroProducts }
{
    resolution_laws::canonical_table_is_minimal_resolution();
}
