//! The generators of a module file, in basis order.
ghost use Rattle.std.specs.Prelude.{◌≡◌, ◌<◌, length, Some, IfSome, IfOk};
ghost use Rattle.std.specs.List.{list_all};
ghost use Rattle.std.specs.Result.{result_err};
ghost use Rattle.serde_json.specs.View.{view, members_view};
ghost use Rattle.module_json.specs.Checks.{RefusesBy};
ghost use Rattle.module_json.specs.ModuleFile.{generator_refusal, generators_refusal, degree_of, listed, basis, spans, span_refusal};
ghost use Rattle.module_spec.specs.Spec.{is_near, number_of};

use crate::checks::degree;
use crate::malformed::{Malformed, What};
use module_spec::{Generator, is_near};
use serde_json::{Map, Value};
use std::alloc::Global;

/// The generators, in basis order.
pub(crate) fn generators(
    alloc: Global,
    members: &Map<String, Value>,
) -> Result<Vec<Generator>, Malformed>
    ensures refuses { RefusesBy result (generators_refusal 0 (members_view members.now.entries)) }
    ensures basis { IfOk result (λ gs. gs.items ≡ basis (members_view members.now.entries)) }
{
    let mut generators = list(alloc, members)?;
    generators.sort_by_key(|generator| generator.degree)?;
    Ok(generators)
}

/// The generators as they are listed.
fn list(alloc: Global, members: &Map<String, Value>) -> Result<Vec<Generator>, Malformed>
    ensures refuses { RefusesBy result (generators_refusal 0 (members_view members.now.entries)) }
    ensures listed { IfOk result (λ gs. gs.items ≡ listed (members_view members.now.entries)) }
{
    let mut generators = Vec::with_capacity(alloc, members.len())?;
    for (name, value) in members {
        let next = make_generator(alloc, generators.len(), name.as_str(), value)?;
        generators.push(next)?;
    }
    Ok(generators)
}

/// The generator of a member of `gens` that `i` others stand before.
fn make_generator(
    alloc: Global,
    i: usize,
    name: &str,
    value: &Value,
) -> Result<Generator, Malformed>
    ensures refuses { RefusesBy result (generator_refusal i name.now (view value.now)) }
    ensures name { IfOk result (λ g. g.name ≡ name.now) }
    ensures degree { IfOk result (λ g. degree_of (view value.now) ≡ Some g.degree) }
{
    let degree = degree(i, name, value)?;
    let name = String::from_str(alloc, name)?;
    Ok(Generator { name, degree })
}

/// The check that no degree lies more than the greatest span above another.
pub(crate) fn check_span(gens: &[Generator]) -> Result<(), Malformed>
    ensures { result_err result ≡ span_refusal gens.now }
{
    if !are_near(gens) {
        return Err(Malformed::Limit { what: What::Span });
    }
    Ok(())
}

/// Whether no degree lies more than the greatest span above another.
fn are_near(gens: &[Generator]) -> bool
    ensures { result ≡ spans gens.now }
{
    gens.iter().all(|g| is_near_each(gens, g.degree))
}

/// Whether a degree lies at most the greatest span above each one of the generators.
fn is_near_each(gens: &[Generator], degree: i32) -> bool
    ensures { result ≡ list_all (λ h. is_near degree h.degree) gens.now }
{
    gens.iter()
        .all(|h| is_near(i64::from(degree), i64::from(h.degree)))
}

/// The number of the generator with a name.
pub(crate) fn generator_named(gens: &[Generator], name: &[u8]) -> Option<usize>
    ensures number { result ≡ number_of gens.now name.now }
    ensures bound { IfSome result (λ i. i < length gens.now) }
{
    gens.iter()
        .position(|generator| generator.name.as_bytes() == name)
}
