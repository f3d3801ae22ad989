//! What a canonical resolution is in stems 0 to n, without the squares of greater stems. On the edge of this range
//! images are cut by coordinates that are 0. With that, each square of the range is the step over the others.
#![tactic(auto)]

ghost use Rattle.stem_laws.specs.Stems.{
  ImagesInStemsFit,
  KernelsInStemsAreToCover,
  NewGeneratorsAreNotMet,
  RowsInStemsAreCovered,
  RowsInStemsAreWhole,
  SquaresInStemsAreSteps,
  SquaresInStemsAreThoseOfTable,
  SquaresInStemsFit,
};

/// The kernel of d_i in a degree has no coordinate at a generator of F_i of that degree, and neither have the images of
/// the generators of F_(i+1) of that degree.
pub fn new_generators_are_not_met()
    ensures { NewGeneratorsAreNotMet }
{
    resolution_laws::canonical_table_is_minimal_resolution();
}

/// Row i in stems 0 to n has n + i + 1 squares.
pub fn rows_in_stems_are_whole()
    ensures { RowsInStemsAreWhole }
{}

/// A square in stems has as many generators as that of the table, its kernel, and its images but for coordinates that
/// are 0.
pub fn squares_in_stems_are_those_of_table()
    ensures { SquaresInStemsAreThoseOfTable }
{
    resolution_laws::canonical_table_is_minimal_resolution();
}

/// The images of a square in stems are vectors of their target, the free module on the row below in stems.
pub fn squares_in_stems_fit()
    ensures { SquaresInStemsFit }
{
    resolution_laws::canonical_table_is_minimal_resolution();
}

/// So are the images of the first squares of a row.
pub fn images_in_stems_fit()
    ensures { ImagesInStemsFit }
{
    resolution_laws::canonical_table_is_minimal_resolution();
}

/// The kernel of a square in stems is the reduced basis of the kernel of its row in stems.
pub fn kernels_in_stems_are_to_cover()
    ensures { KernelsInStemsAreToCover }
{
    resolution_laws::canonical_table_is_minimal_resolution();
    milnor_laws::linear_maps();
}

/// Each square in stems, on the edge and off it, is the step over the squares in stems, and nothing else is. What it
/// has to cover is the reduced basis of the kernel of the row below in stems, whoever found it.
pub fn squares_in_stems_are_steps()
    ensures { SquaresInStemsAreSteps }
{
    resolution_laws::canonical_table_is_minimal_resolution();
    milnor_laws::linear_maps();
    f2_matrix::kernel_basis_is_unique();
}

/// Each row of the matrix of d_i on the generators before a square in stems is a sum of vectors that the square has to
/// cover.
pub fn rows_in_stems_are_covered()
    ensures { RowsInStemsAreCovered }
{
    resolution_laws::canonical_table_is_minimal_resolution();
    milnor_laws::linear_maps();
    f2_matrix::kernel_basis_is_unique();
}
