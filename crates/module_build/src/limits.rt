//! The limits that a module which is made must keep.
ghost use Rattle.std.specs.Prelude.{◌≡◌};
ghost use Rattle.std.specs.List.{list_all};
ghost use Rattle.module_spec.specs.Spec.{within_limit, is_near};
ghost use Rattle.module_build.specs.Limits.{limit_of};
ghost use Rattle.module_build.specs.Inside.Construction.{degrees_of};

use crate::fault::BuildFault;
use crate::order::Placed;
use module_json::What;
use module_spec::{MAX_GENERATORS, is_degree, is_near};

/// The first limit that a basis passes: how many elements it has, or else a degree, or else how far apart degrees lie. The
/// limits are looked at before any operator is made, on degrees of 64 bits.
pub(crate) fn limit_passed(basis: &[Placed]) -> Option<BuildFault>
    ensures { result ≡ limit_of (degrees_of basis.now) }
{
    if basis.len() > MAX_GENERATORS {
        return Some(BuildFault::Limit { what: What::Gens });
    }
    let within = are_within(basis);
    if !within {
        return Some(BuildFault::Limit { what: What::Degree });
    }
    let near = are_near(basis);
    if !near {
        return Some(BuildFault::Limit { what: What::Span });
    }
    None
}

/// Whether generators may have the degrees of a basis.
fn are_within(basis: &[Placed]) -> bool
    ensures { result ≡ list_all (λ p. within_limit p.degree) basis.now }
{
    basis.iter().all(|placed| is_degree(placed.degree))
}

/// Whether no degree of a basis lies more than the greatest span above another.
fn are_near(basis: &[Placed]) -> bool
    ensures { result ≡ list_all (λ p. list_all (λ q. is_near p.degree q.degree) basis.now) basis.now }
{
    basis
        .iter()
        .all(|placed| is_near_each(basis, placed.degree))
}

/// Whether a degree lies at most the greatest span above each one of a basis.
fn is_near_each(basis: &[Placed], degree: i64) -> bool
    ensures { result ≡ list_all (λ q. is_near degree q.degree) basis.now }
{
    basis.iter().all(|placed| is_near(degree, placed.degree))
}
