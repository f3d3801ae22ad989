//! Laws over the definitions, as contracts of functions that do nothing.
ghost use Rattle.milnor_basis.specs.Basis.{BasisIsMilnors};
ghost use Rattle.milnor_basis.specs.Product.{ProductIsHomogeneous};

/// The lists that `Basis` gives are the exponent lists of each degree, each once, in right lexicographic order.
pub fn basis_is_milnors()
    ensures { BasisIsMilnors }
{}

/// Each term of a product is of the degree of the product.
pub fn product_is_homogeneous()
    ensures { ProductIsHomogeneous }
{}
