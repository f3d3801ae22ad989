//! The module files of real projective spaces describe modules, as the contract of a function that does nothing.
//!
//! The crate stands above `module_check`, since it speaks of its refusals.
#![tactic(auto)]

ghost use Rattle.space_laws.specs.Spaces.{SpaceFilesAreModules, SpaceValuesAreModules, SpacesAreModules};

/// Each real projective space whose cells are within the limits of a module file is a module, so the check refuses none: no list of cells,
/// no value and no bytes of this type.
pub fn spaces_are_modules()
    ensures cells { SpacesAreModules }
    ensures values { SpaceValuesAreModules }
    ensures files { SpaceFilesAreModules }
{}
