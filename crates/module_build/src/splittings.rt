//! The ways to write an exponent list as a sum of two.
ghost use Rattle.std.specs.Prelude.{◌≡◌, ◌≢◌, ◌≤◌, ◌-◌, ℕ, List, All, IfOk, IfSome, IfNone, OnOk};
ghost use Rattle.milnor_basis.specs.Exponents.{degree_of, IsTrimmed};
ghost use Rattle.hopf_laws.specs.Diagonal.{added};
ghost use Rattle.module_build.specs.Inside.Splittings.{AreSplittings, AddsDegree, AddsLeft, IsSplitting};

use memory::Memory;
use milnor_basis::{Basis, Exps};
use std::alloc::Global;

/// Two exponent lists whose sum, place by place, is a third.
#[derive(Clone, Copy, Drop)]
pub(crate) struct Splitting {
    pub(crate) left: Exps,
    pub(crate) right: Exps,
}

/// The list that makes R with A, none where A passes R at a place.
fn difference(r: &Exps, a: &Exps) -> Option<Exps>
    ensures some { IfSome result (λ b. added a.now b ≡ r.now) }
    ensures none { IfNone result ((b : List ℕ) → added a.now b ≢ r.now) }
    ensures trimmed { IfSome result (λ b. IsTrimmed b) }
    ensures whole { IsTrimmed r.now }
    ensures part { IsTrimmed a.now }
{
    if a.len() > r.len() {
        return None;
    }
    let mut numbers = [0; 8];
    for i in 0..r.len() {
        numbers[i] = r.exponent(i).checked_sub(a.exponent(i))?;
    }
    Some(Exps::of(numbers))
}

/// The splittings of R whose parts are of degrees of these bases. For a tensor product no others are needed: each of them is
/// zero on one of the factors.
pub(crate) fn splittings(
    alloc: Global,
    left: &Basis,
    right: &Basis,
    r: &Exps,
) -> Result<Vec<Splitting>, Memory>
    ensures { IfOk result (λ splittings. AreSplittings (degree_of r.now - right.now) left.now r.now splittings.items) }
{
    let first = r.degree().saturating_sub(u32::from(right.max()));
    splittings_from(alloc, left, r, first)
}

/// The splittings of R whose left part is of a degree of the basis, `first` or above.
pub(crate) fn splittings_from(
    alloc: Global,
    basis: &Basis,
    r: &Exps,
    first: u32,
) -> Result<Vec<Splitting>, Memory>
    ensures sums { IfOk result (λ splittings. AreSplittings first basis.now r.now splittings.items) }
    ensures each { IfOk result (λ splittings. All (IsSplitting r.now) splittings.items) }
{
    let last = r.degree().min(u32::from(basis.max()));
    let mut splittings = Vec::new(alloc);
    if last < first {
        return Ok(splittings);
    }
    for n in first..last + 1 {
        add_degree(&mut splittings, basis, r, n as u16)?;
    }
    Ok(splittings)
}

/// Puts the splittings of R whose left part is of degree `n` behind others.
fn add_degree(
    splittings: &mut Vec<Splitting>,
    basis: &Basis,
    r: &Exps,
    n: u16,
) -> Result<(), Memory>
    requires { n ≤ basis.now }
    ensures sums { OnOk result (AddsDegree n r.now splittings.old.items splittings.new.items) }
    ensures each { OnOk result (All (IsSplitting r.now) splittings.old.items →
        All (IsSplitting r.now) splittings.new.items) }
{
    for left in basis.of_degree(n) {
        add_left(splittings, r, left)?;
    }
    Ok(())
}

/// Puts the splitting of R with this left part behind others, where there is one.
fn add_left(splittings: &mut Vec<Splitting>, r: &Exps, left: &Exps) -> Result<(), Memory>
    ensures sums { OnOk result (AddsLeft left.now r.now splittings.old.items splittings.new.items) }
    ensures each { OnOk result (All (IsSplitting r.now) splittings.old.items →
        All (IsSplitting r.now) splittings.new.items) }
{
    match difference(r, left) {
        None => Ok(()),
        Some(right) => {
            splittings.push(Splitting { left: *left, right })?;
            Ok(())
        }
    }
}
