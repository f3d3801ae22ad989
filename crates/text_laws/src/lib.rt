//! What is printed of products and of a bracket does not depend on the range, as contracts of functions that do nothing.
#![tactic(auto)]

ghost use Rattle.text_laws.specs.Texts.{BracketIsSameInEachRange, ProductsInShapeAreOfRange, ProductsOfSmallerRange};

/// The products with a class through a range are just those lines of the products through a larger one that are in it.
pub fn products_of_smaller_range()
    ensures { ProductsOfSmallerRange }
{
    range_laws::squares_are_same_in_each_range();
    range_laws::products_are_same_in_each_range();
    yoneda_laws::products_of_classes_are_of_elements();
}

/// The products with a class in the stems of a range are just those lines of the products through all of it that are in them.
pub fn products_in_shape_are_of_range()
    ensures { ProductsInShapeAreOfRange }
{}

/// A bracket of three classes is one text through all ranges in which it is told.
pub fn bracket_is_same_in_each_range()
    ensures { BracketIsSameInEachRange }
{
    f2_matrix::row_basis_is_unique();
    bracket_laws::units_have_no_zero_products();
    range_laws::squares_are_same_in_each_range();
    range_laws::brackets_are_same_in_each_range();
}
