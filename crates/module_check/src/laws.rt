//! A law over the definitions, as the contract of a function that does nothing.
ghost use Rattle.module_check.specs.Acceptance.{AcceptedIsModule};

/// A file whose generators stand by degree, and that is not refused, describes a module: each relation holds, also
/// those of a degree above the span, that no check looks at.
pub fn accepted_is_module()
    ensures { AcceptedIsModule }
{}
