//! That reductions of rows exist, and that membership in a span is decidable, as contracts of functions that do nothing.
ghost use Rattle.f2_matrix.specs.Existence.{
  EchelonFormExists,
  ReductionExists,
  RowBasisExists,
  KernelBasisExists,
  SpanIsDecidable,
};

/// Rows of one width have an echelon form.
pub fn echelon_form_exists()
    ensures { EchelonFormExists }
{}

/// Rows of one width have a reduction: the parts of an echelon form of the rows with unit vectors beside them.
pub fn reduction_exists()
    ensures { ReductionExists }
{}

/// The span of rows of one width has a reduced basis.
pub fn row_basis_exists()
    ensures { RowBasisExists }
{}

/// The kernel of rows of one width has a reduced basis.
pub fn kernel_basis_exists()
    ensures { KernelBasisExists }
{}

/// A vector is in the span of rows of one width, or it is not.
pub fn span_is_decidable()
    ensures { SpanIsDecidable }
{}
