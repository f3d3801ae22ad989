//! The law of certificates, as the contract of a function that does nothing.
ghost use Rattle.cert_check.specs.Certified.{CanonicalTableLacksQuasisAlone};

/// The first fault of a table of the canonical resolution is that a square has kept no quasi-inverse: it is exact and minimal, and has
/// each square. So `verify` accepts it where each square of the range has kept one.
pub fn canonical_table_lacks_quasis_alone()
    ensures { CanonicalTableLacksQuasisAlone }
{
    finite_module::modules_are_graded_modules();
    resolution_laws::canonical_table_is_minimal_resolution();
}
