//! What a module file says of an action determines it, as the contract of a function that does nothing.
//!
//! The crate stands above `module_check`, since it speaks of its refusals.
#![tactic(auto)]

ghost use Rattle.derived_laws.specs.Unique.{DerivedActionIsUnique, RefusedHasNoModule};

/// A module on the generators of a file whose squares Sq^n act as the file lists, where n is a power of two, has the action that is
/// derived from the file, if those that it does not list are zero. So if the file is refused, by an entry or by a relation, there is no
/// module that agrees with all its entries in which these are zero; with a further action there may be one.
pub fn derived_action_is_unique()
    ensures unique { DerivedActionIsUnique }
    ensures refused { RefusedHasNoModule }
{}
