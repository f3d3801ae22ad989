//! The canonical minimal resolution of a module over the Steenrod algebra, and its laws, as contracts of functions that do
//! nothing.
#![tactic(auto)]

ghost use Rattle.resolution_laws.specs.Covered.{MadeRowsAreCovered};
ghost use Rattle.resolution_laws.specs.Exactness.{CanonicalTableIsMinimalResolution};
ghost use Rattle.resolution_laws.specs.Resolution.{CanonicalTableIsUnique};
ghost use Rattle.resolution_laws.specs.Start.{
  CanonicalStartIsCanonical,
  EmptyStartIsCanonical,
  StartTableHasShape,
  StartTableIsUnique,
};

/// A module has at most one canonical resolution through each row and degree.
pub fn canonical_table_is_unique()
    ensures { CanonicalTableIsUnique }
{
    f2_matrix::kernel_basis_is_unique();
}

/// The canonical resolution of a module over the Steenrod algebra that is zero below its bottom is a minimal resolution, as
/// far as it goes. The maps of its free modules compose to zero in every degree. In each bidegree that it holds, they are
/// exact, and its generators are needed, those of its last row too. Row s has no generator in degrees below s above the bottom.
pub fn canonical_table_is_minimal_resolution()
    ensures { CanonicalTableIsMinimalResolution }
{
    milnor_laws::linear_maps();
}

/// The table of a start has at most one content at each place.
pub fn start_table_is_unique()
    ensures { StartTableIsUnique }
{
    f2_matrix::kernel_basis_is_unique();
}

/// Each content of a start's table has the shape of a square over those that it stands on: its images are vectors of the
/// target of d_s, not more than its dimension, and its kernel rows are reduced, not zero, and of the free module's dimension.
pub fn start_table_has_shape()
    ensures { StartTableHasShape }
{
    f2_matrix::kernel_basis_is_unique();
}

/// If each square of a start is that of the canonical resolution, then so is each square of the start's table.
pub fn canonical_start_is_canonical()
    ensures { CanonicalStartIsCanonical }
{
    f2_matrix::kernel_basis_is_unique();
}

/// The table of the empty start is the canonical resolution, and there is no other.
pub fn empty_start_is_canonical()
    ensures { EmptyStartIsCanonical }
{
    f2_matrix::kernel_basis_is_unique();
}

/// In a row above row 0, where no square of the row and of the one below it was read, each row of the matrix of d_s in the
/// degree of the next square is a sum of the candidates there.
pub fn made_rows_are_covered()
    ensures { MadeRowsAreCovered }
{
    milnor_laws::linear_maps();
    f2_matrix::kernel_basis_is_unique();
}
