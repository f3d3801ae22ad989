//! A law over the definitions, as the contract of a function that does nothing.
ghost use Rattle.finite_module.specs.Graded.{ModulesAreSteenrodModules};

/// A module, with the vectors of each degree and each Sq(R) on them, is a module over the Steenrod algebra: Sq() acts as
/// the identity, each Sq(R) is linear and raises degrees by its own, and acts on Sq(S) as their product.
pub fn modules_are_graded_modules()
    ensures { ModulesAreSteenrodModules }
{}
