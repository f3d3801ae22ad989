//! When the rows that a table has with its squares tell that it is a minimal resolution, as contracts of functions that
//! do nothing.
#![tactic(auto)]

ghost use Rattle.certificate_laws.specs.Certificates.{
  CertifiedTableIsMinimal,
  GeneratorsStandLast,
  MinimalTableHasCanonicalCounts,
  MinimalTableIsMinimalResolution,
  RowsDecideExactness,
  RowsDecideNeed,
};

/// At one square, d_s is exact exactly where the reduced basis of its image is the reduced basis of the kernel below,
/// or for row 0 the list of unit vectors.
pub fn rows_decide_exactness()
    ensures { RowsDecideExactness }
{}

/// At one square, each generator is needed exactly where no row of the kernel's reduced basis has a coefficient at one.
pub fn rows_decide_need()
    ensures { RowsDecideNeed }
{}

/// The generators of a square stand last in the basis of its degree, and no other element there is Sq() on a generator.
pub fn generators_stand_last()
    ensures { GeneratorsStandLast }
{}

/// A table is exact, with each generator needed, if each of its squares has a certificate.
pub fn certified_table_is_minimal()
    ensures { CertifiedTableIsMinimal }
{}

/// A table of a module over the Steenrod algebra that is zero below its bottom is a minimal resolution if it is exact
/// and each of its generators is needed.
pub fn minimal_table_is_minimal_resolution()
    ensures { MinimalTableIsMinimalResolution }
{}

/// Such a table has as many generators as the canonical resolution at each square, those of its last row too.
pub fn minimal_table_has_canonical_counts()
    ensures { MinimalTableHasCanonicalCounts }
{
    resolution_laws::canonical_table_is_minimal_resolution();
}
