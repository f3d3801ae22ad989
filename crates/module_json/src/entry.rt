//! The entries of a module file: its actions, with generators by number.
ghost use Rattle.std.specs.Prelude.{◌≡◌, ◌≢◌, ◌<◌, ◌&&◌, ◌==◌, [], length, map, position, Some, Ok, Err, IfOk, IfErr, IfSome, option_map, All, AllPairs};
ghost use Rattle.std.specs.Ordering.{int_eq};
ghost use Rattle.serde_json.specs.View.{view, items_view};
ghost use Rattle.module_json.specs.Checks.{Answers};
ghost use Rattle.module_json.specs.ModuleFile.{written as written_in, numbers_of, are_in, is_odd_in, sum_of, differs, numbered_entry, entry_of, at_index, entries_from};
ghost use Rattle.module_spec.specs.Spec.{degree_at};
ghost use Rattle.module_spec.specs.WellFormed.{IsEntryOf, Agree};

use crate::action::{ActionText, action};
use crate::generator::generator_named;
use crate::malformed::{Malformed, Why};
use memory::Memory;
use module_spec::{Entry, Generator};
use serde_json::Value;
use std::alloc::Global;

/// The action that a listed value writes, none where it writes none.
fn written(alloc: Global, value: &Value) -> Result<Option<ActionText<'_>>, Memory>
    ensures { IfOk result (λ o. o ≡ written_in (view value.now)) }
{
    match value.as_str() {
        Some(text) => action(alloc, text.as_bytes()),
        None => Ok(None),
    }
}

/// The numbers of the generators with these names, none where a name has no generator.
fn numbers(alloc: Global, gens: &[Generator], names: &[&[u8]]) -> Result<Option<Vec<usize>>, Memory>
    ensures numbers { IfOk result
        (λ o. option_map (λ v. v.items) o ≡ numbers_of gens.now (map (λ w. w.now) names.now)) }
    ensures bounds { IfOk result (λ o. IfSome o (λ v. All (λ j. j < length gens.now) v.items)) }
{
    let mut numbers = Vec::with_capacity(alloc, names.len())?;
    for name in names {
        let Some(number) = generator_named(gens, name) else {
            return Ok(None);
        };
        numbers.push(number)?;
    }
    Ok(Some(numbers))
}

/// Whether each of these generators has this degree.
fn have_degree(gens: &[Generator], degree: i64, numbers: &[usize]) -> bool
    requires { All (λ j. j < length gens.now) numbers.now }
    ensures { result ≡ are_in gens.now degree numbers.now }
{
    numbers.iter().all(|j| has_degree(gens, degree, *j))
}

/// Whether generator `j` has this degree.
fn has_degree(gens: &[Generator], degree: i64, j: usize) -> bool
    requires { j < length gens.now }
    ensures { result ≡ int_eq (degree_at gens.now j) degree }
{
    let generator = &gens[j];
    i64::from(generator.degree) == degree
}

/// Whether `j` stands an odd number of times among the numbers.
fn is_odd(numbers: &[usize], j: usize) -> bool
    ensures { result ≡ is_odd_in numbers.now j }
{
    numbers.iter().filter(|k| **k == j).count() % 2 == 1
}

/// The numbers below `count` that stand an odd number of times among the numbers, in order.
fn sum(alloc: Global, count: usize, numbers: &[usize]) -> Result<Vec<usize>, Memory>
    ensures { IfOk result (λ v. v.items ≡ sum_of count numbers.now) }
{
    let sum = (0..count).filter(|j| is_odd(numbers, *j)).collect(alloc)?;
    Ok(sum)
}

/// The index of the first entry of this square on this generator.
fn listing(entries: &[Entry], n: u32, generator: usize) -> Option<usize>
    ensures index { result ≡ position (λ f. (f.n == n) && (f.generator == generator)) entries.now }
    ensures bound { IfSome result (λ i. i < length entries.now) }
{
    entries
        .iter()
        .position(|entry| entry.n == n && entry.generator == generator)
}

/// The index of the first entry of the same square on the same generator with another sum.
fn other_sum(before: &[Entry], entry: &Entry) -> Option<usize>
    requires { AllPairs Agree before.now }
    ensures { result ≡ position (differs entry.now) before.now }
{
    let first = listing(before, entry.n, entry.generator)?;
    let listed = &before[first];
    if listed.sum.as_slice() == entry.sum.as_slice() {
        return None;
    }
    Some(first)
}

/// The refusal of the action after the entries before it.
fn refused(before: &[Entry], why: Why) -> Malformed
    ensures { result ≡ Malformed.Action (length before.now) why }
{
    Malformed::Action {
        index: before.len(),
        why,
    }
}

/// The entry of Sq^n on a generator with the sum of the generators with these numbers, after the entries before it.
fn numbered(
    alloc: Global,
    gens: &[Generator],
    before: &[Entry],
    n: u32,
    generator: usize,
    numbers: &[usize],
) -> Result<Entry, Malformed>
    requires generator { generator < length gens.now }
    requires numbers { All (λ j. j < length gens.now) numbers.now }
    requires agree { AllPairs Agree before.now }
    ensures { Answers result
        (at_index (length before.now) (numbered_entry gens.now before.now n generator numbers.now)) }
{
    let base = &gens[generator];
    let degree = i64::from(base.degree) + i64::from(n);
    if !have_degree(gens, degree, numbers) {
        return Err(refused(before, Why::WrongDegree));
    }
    let sum = sum(alloc, gens.len(), numbers)?;
    let entry = Entry { n, generator, sum };
    if let Some(first) = other_sum(before, &entry) {
        return Err(refused(before, Why::Repeated { first }));
    }
    Ok(entry)
}

/// The entry of a listed action after the entries before it.
fn next(
    alloc: Global,
    gens: &[Generator],
    before: &[Entry],
    value: &Value,
) -> Result<Entry, Malformed>
    requires { AllPairs Agree before.now }
    ensures { Answers result
        (at_index (length before.now) (entry_of gens.now before.now (written_in (view value.now)))) }
{
    let Some(action) = written(alloc, value)? else {
        return Err(refused(before, Why::Syntax));
    };
    if action.n == 0 {
        return Err(refused(before, Why::SquareZero));
    }
    let Some(generator) = generator_named(gens, action.name) else {
        return Err(refused(before, Why::Unknown));
    };
    let Some(numbers) = numbers(alloc, gens, action.sum.as_slice())? else {
        return Err(refused(before, Why::Unknown));
    };
    numbered(alloc, gens, before, action.n, generator, numbers.as_slice())
}

/// The entries of the listed actions.
pub(crate) fn entries(
    alloc: Global,
    gens: &[Generator],
    actions: &[Value],
) -> Result<Vec<Entry>, Malformed>
    ensures listed { IfOk result (λ es. entries_from gens.now [] (items_view actions.now) ≡ Ok es.items) }
    ensures refused { IfErr result (λ e. e ≢ Malformed.Memory →
        entries_from gens.now [] (items_view actions.now) ≡ Err e) }
    ensures count { IfOk result (λ es. length es.items ≡ length actions.now) }
    ensures actions { IfOk result (λ es. All (IsEntryOf gens.now) es.items) }
    ensures agree { IfOk result (λ es. AllPairs Agree es.items) }
{
    let mut entries = Vec::with_capacity(alloc, actions.len())?;
    for value in actions {
        let entry = next(alloc, gens, entries.as_slice(), value)?;
        entries.push(entry)?;
    }
    Ok(entries)
}
