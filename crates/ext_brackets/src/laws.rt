//! Laws over the definitions, as contracts of functions that do nothing.
ghost use Rattle.bidegree.specs.declared.range.Range.{Range};
ghost use Rattle.bidegree.specs.declared.class.Class.{Class};
ghost use Rattle.ext_products.specs.Products.{HasAnswer, HasOneAnswer};
ghost use Rattle.ext_brackets.specs.Brackets.{IsBracketAnswer};

/// The canonical resolutions of a module and of the sphere have an answer for any three classes.
pub fn bracket_answer_exists()
    ensures { (range : Range) (a b c : Class) → HasAnswer (IsBracketAnswer range a b c) range }
{
    lift_laws::each_class_lifts();
    lift_laws::lifts_give_one_product();
    bracket_laws::bracket_has_member();
    bracket_laws::bracket_is_coset();
    bracket_laws::units_have_no_zero_products();
    f2_matrix::row_basis_exists();
}

/// Two resolutions have at most one answer.
pub fn bracket_answer_is_unique()
    ensures { (range : Range) (a b c : Class) → HasOneAnswer (IsBracketAnswer range a b c) }
{
    f2_matrix::row_basis_is_unique();
}
