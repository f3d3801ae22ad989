//! Modules of generators and operators, made from coefficients, as contracts of functions that do nothing.
//!
//! On a basis of pairs, or of elements of two kinds, an action is a function of two basis elements. The definitions here
//! number such a basis by degree, and make the operators.
#![tactic(auto)]

ghost use Rattle.built_laws.specs.Built.{BuiltHasCoefficients, BuiltIsModule, ModulesAreActions};
ghost use Rattle.built_laws.specs.Constructed.{DualMakesModule, DualTwiceIsModule, ShiftBackIsModule, ShiftMakesModule, SumMakesModule, TensorMakesModule};

/// Generators with coefficients that act as they should make a module, whose coefficients are those. The coefficients of
/// each module act as they should.
pub fn built_modules()
    ensures made { BuiltIsModule }
    ensures coefficients { BuiltHasCoefficients }
    ensures actions { ModulesAreActions }
{}

/// The shift, the sum, the tensor product and the dual of modules are modules.
pub fn made_modules()
    ensures shift { ShiftMakesModule }
    ensures sum { SumMakesModule }
    ensures tensor { TensorMakesModule }
    ensures dual { DualMakesModule }
{}

/// The dual of the dual of a module, and its shift by n and back, are the module with its generators renamed.
pub fn ways_back()
    ensures dual_twice { DualTwiceIsModule }
    ensures shift_back { ShiftBackIsModule }
{}
