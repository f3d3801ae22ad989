//! What a class, a product and a bracket are does not depend on the range, as contracts of functions that do nothing.
#![tactic(auto)]

ghost use Rattle.range_laws.specs.Extended.{BracketMembersExtend};
ghost use Rattle.range_laws.specs.Ranges.{
  BracketsAreSameInEachRange,
  ProductsAreSameInEachRange,
  SmallerTableIsPart,
  SquaresAreSameInEachRange,
};

/// The canonical table of a smaller range is the part of that of a larger one.
pub fn smaller_table_is_part()
    ensures { SmallerTableIsPart }
{
    f2_matrix::kernel_basis_is_unique();
}

/// A square is the same in all canonical tables that have it, and so are its classes and their numbers.
pub fn squares_are_same_in_each_range()
    ensures { SquaresAreSameInEachRange }
{
    f2_matrix::kernel_basis_is_unique();
}

/// The product of two elements is the same in all ranges that have it.
pub fn products_are_same_in_each_range()
    ensures { ProductsAreSameInEachRange }
{
    f2_matrix::kernel_basis_is_unique();
    yoneda_laws::elements_have_one_product();
}

/// A bracket has the same values in all ranges that have it.
pub fn brackets_are_same_in_each_range()
    ensures { BracketsAreSameInEachRange }
{
    f2_matrix::kernel_basis_is_unique();
}

/// A bracket has the same values by lifts and homotopies through its degree and by such through a greater one, as through the range.
pub fn bracket_members_extend()
    ensures { BracketMembersExtend }
{
    lift_laws::each_class_lifts();
    lift_laws::lifts_give_one_product();
    bracket_laws::bracket_has_member();
    bracket_laws::bracket_is_coset();
}
