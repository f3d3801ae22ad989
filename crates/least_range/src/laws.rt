//! Laws over the definitions, as contracts of functions that do nothing.
ghost use Rattle.least_range.specs.Least.{ProductRangeIsLeast, BracketRangeIsLeast};

/// Where a range has the squares of two classes and of their product, `product_range` is the least that has them.
pub fn product_range_is_least()
    ensures { ProductRangeIsLeast }
{}

/// Where a range has the squares of a bracket, `bracket_range` is the least that has them.
pub fn bracket_range_is_least()
    ensures { BracketRangeIsLeast }
{}
