//! What the classes h_v of the sphere do to the classes of a module, as contracts of functions that do nothing.
#![tactic(auto)]

ghost use Rattle.h_laws.specs.Products.{
  ClassesWithHAreReadOffImages,
  ProductsWithHAreReadOffImages,
  RowOneHasSquares,
  RowOneIsPowers,
};

/// Row 1 of the sphere's canonical resolution has one generator in each degree 2^v, and its image has the term Sq(2^v).
pub fn row_one_has_squares()
    ensures { RowOneHasSquares }
{
    resolution_laws::canonical_table_is_minimal_resolution();
}

/// It has no generator in a degree that is no power of two.
pub fn row_one_is_powers()
    ensures { RowOneIsPowers }
{
    resolution_laws::canonical_table_is_minimal_resolution();
}

/// The product of h_v with a cocycle, by any lift of it, has the generators in whose image Sq(2^v) stands on the cocycle.
pub fn products_with_h_are_read_off_images()
    ensures { ProductsWithHAreReadOffImages }
{
    resolution_laws::canonical_table_is_minimal_resolution();
}

/// That with a class has the generators in whose image Sq(2^v) stands on the class's own generator.
pub fn classes_with_h_are_read_off_images()
    ensures { ClassesWithHAreReadOffImages }
{
    resolution_laws::canonical_table_is_minimal_resolution();
}
