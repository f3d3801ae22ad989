//! The law that relations with squares Sq^n on the left, n a power of two, decide whether generators and operators are a
//! module, as the contract of a function that does nothing.
#![tactic(auto)]

ghost use Rattle.generator_laws.specs.Powers.{PowersGiveModule};

/// Operators make their generators a module if Sq() is the identity, each Sq(R) raises degrees by its own, and the
/// relations hold that have Sq^n with n a power of two on the left and are of a degree within the span.
pub fn powers_give_module()
    ensures { PowersGiveModule }
{}
