//! Laws of Milnor's product, and of the modules and linear maps over it, as contracts of functions that do nothing.
#![tactic(auto)]

ghost use Rattle.free_module.specs.Graded.{FreeModulesAreModules};
ghost use Rattle.free_module.specs.LinearMap.{MapsCommute};
ghost use Rattle.milnor_laws.specs.Laws.{ProductActs, ProductHasUnit, ProductIsAssociative, ProductIsAssociativeInVectors};

/// The product is associative: (Sq(R) Sq(S)) Sq(Q) and Sq(R) (Sq(S) Sq(Q)) have the same terms.
pub fn associativity()
    ensures terms { ProductIsAssociative }
    ensures vectors { ProductIsAssociativeInVectors }
    ensures action { ProductActs }
{}

/// Sq() is the unit of the product, on the left and on the right.
pub fn unit()
    ensures { ProductHasUnit }
{}

/// A free module is a module over the Steenrod algebra: each Sq(R) is linear, raises degrees by its own, and acts on Sq(S)
/// as their product; Sq() acts as the identity. A linear map from a free module to a module, given by the images of the
/// generators, commutes with each Sq(R).
pub fn linear_maps()
    ensures free { FreeModulesAreModules }
    ensures commute { MapsCommute }
{}
