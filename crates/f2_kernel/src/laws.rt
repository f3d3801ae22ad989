//! What holds of the tests of rows.
ghost use Rattle.f2_kernel.specs.Tests.{RowBasisIsTested, PartsAreTested};

/// The test of the reduced echelon form without a zero row is true of just these rows.
pub fn row_basis_is_tested()
    ensures { RowBasisIsTested }
{}

/// The test of the parts of a reduction is true of just these parts.
pub fn parts_are_tested()
    ensures { PartsAreTested }
{}
