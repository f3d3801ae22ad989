//! Real projective spaces, whose cells and squares a file says by the least and the greatest dimension alone.
ghost use Rattle.std.specs.Prelude.{◌≡◌, ◌+◌, ◌<◌, ◌≤◌, ◌++◌, ◌≤ℤ◌, neg_ℤ, length, pos, ◌+ℤ◌, map, Some, Ok, Err, IfOk, IfErr, OnOk, String, string_bytes};
ghost use Rattle.std.specs.List.{flat_map, range_with_len};
ghost use Rattle.std.specs.Result.{result_err};
ghost use Rattle.milnor_basis.specs.Product.{choose, is_odd};
ghost use Rattle.serde_json.specs.View.{view};
ghost use Rattle.module_json.specs.ModuleFile.{cell, cells as cells_in, is_joined, joining, squares_on, space_file, bounds_refusal, number_at, space_between, space_of};
ghost use Rattle.module_json.specs.Spaces.{binomial, count_between};

use crate::malformed::{Malformed, Place, What};
use itoa::Buffer;
use memory::Memory;
use module_spec::{Entry, Generator, MAX_DEGREE, MAX_GENERATORS, POWERS, is_degree};
use serde_json::Value;
use std::alloc::Global;

/// The cells of a space: one in each dimension, `count` of them from `min` on.
#[derive(Clone, Copy, Drop)]
pub(crate) struct CellRange {
    pub(crate) min: i32,
    pub(crate) count: usize,
}

/// The check of the least and the greatest dimension.
fn check_bounds(min: i64, max: i64) -> Result<(), Malformed>
    ensures { result_err result ≡ bounds_refusal min max }
{
    if !(is_degree(min) && is_degree(max)) {
        return Err(Malformed::Limit { what: What::Degree });
    }
    if max < min {
        return Err(Malformed::Bounds { min, max });
    }
    if max - min >= MAX_GENERATORS as i64 {
        return Err(Malformed::Limit { what: What::Gens });
    }
    Ok(())
}

/// The number under a key, none where there is none.
fn number(file: &Value, key: &str) -> Option<i64>
    ensures { result ≡ number_at key.now (view file.now) }
{
    file.get(key).and_then(Value::as_i64)
}

/// The cells from one dimension to another, which are as they should be.
fn cells_between(min: i64, max: i64) -> Result<CellRange, Malformed>
    ensures space { IfOk result (λ c. space_between (Some min) (Some max) ≡ Ok (space_file c.min c.count)) }
    ensures refused { IfErr result (λ e. space_between (Some min) (Some max) ≡ Err e) }
    ensures few { IfOk result (λ c. c.count ≤ MAX_GENERATORS) }
    ensures lowest { IfOk result (λ c. neg_ℤ MAX_DEGREE ≤ℤ c.min) }
    ensures highest { IfOk result (λ c. (c.min +ℤ pos c.count) ≤ℤ (MAX_DEGREE +ℤ pos 1)) }
{
    check_bounds(min, max)?;
    Ok(CellRange {
        min: min as i32,
        count: (max - min + 1) as usize,
    })
}

/// The cells between the dimensions that a value gives, which are as they should be.
pub(crate) fn cell_range(file: &Value) -> Result<CellRange, Malformed>
    ensures space { IfOk result (λ c. space_of (view file.now) ≡ Ok (space_file c.min c.count)) }
    ensures refused { IfErr result (λ e. space_of (view file.now) ≡ Err e) }
    ensures few { IfOk result (λ c. c.count ≤ MAX_GENERATORS) }
    ensures lowest { IfOk result (λ c. neg_ℤ MAX_DEGREE ≤ℤ c.min) }
    ensures highest { IfOk result (λ c. (c.min +ℤ pos c.count) ≤ℤ (MAX_DEGREE +ℤ pos 1)) }
{
    let Some(min) = number(file, "min") else {
        return Err(Malformed::Shape { at: Place::Min });
    };
    let Some(max) = number(file, "max") else {
        return Err(Malformed::Shape { at: Place::Max });
    };
    cells_between(min, max)
}

/// The cell of dimension `n`.
fn cell(alloc: Global, n: i32) -> Result<Generator, Memory>
    ensures { IfOk result (λ g. g ≡ cell n) }
{
    let mut buffer = Buffer::new();
    let mut name = String::from_str(alloc, "x")?;
    name.push_str(buffer.format(n))?;
    Ok(Generator { name, degree: n })
}

/// A cell in each dimension, `count` of them from `min` on.
pub(crate) fn cells(alloc: Global, min: i32, count: usize) -> Result<Vec<Generator>, Memory>
    requires lowest { neg_ℤ MAX_DEGREE ≤ℤ min }
    requires highest { (min +ℤ pos count) ≤ℤ (MAX_DEGREE +ℤ pos 1) }
    ensures { IfOk result (λ gs. gs.items ≡ cells_in min count) }
{
    let mut cells = Vec::with_capacity(alloc, count)?;
    for i in 0..count {
        let cell = cell(alloc, min + i as i32)?;
        cells.push(cell)?;
    }
    Ok(cells)
}

/// The squares on the cells, by cell and then by square.
pub(crate) fn squares(alloc: Global, min: i32, count: usize) -> Result<Vec<Entry>, Memory>
    requires few { count ≤ MAX_GENERATORS }
    requires lowest { neg_ℤ MAX_DEGREE ≤ℤ min }
    requires highest { (min +ℤ pos count) ≤ℤ (MAX_DEGREE +ℤ pos 1) }
    ensures { IfOk result (λ es. es.items ≡ flat_map (squares_on min count) (range_with_len 0 count)) }
{
    let mut entries = Vec::new(alloc);
    for i in 0..count {
        add_squares(alloc, &mut entries, min, count, i)?;
    }
    Ok(entries)
}

/// Adds the squares on cell `i` behind others.
fn add_squares(
    alloc: Global,
    entries: &mut Vec<Entry>,
    min: i32,
    count: usize,
    i: usize,
) -> Result<(), Memory>
    requires few { count ≤ MAX_GENERATORS }
    requires lowest { neg_ℤ MAX_DEGREE ≤ℤ min }
    requires highest { (min +ℤ pos count) ≤ℤ (MAX_DEGREE +ℤ pos 1) }
    requires cell { i < count }
    ensures { OnOk result (entries.new.items ≡ entries.old.items ++ squares_on min count i) }
{
    for k in POWERS {
        if is_joined(min, count, i, k) {
            let entry = joining(alloc, i, k)?;
            entries.push(entry)?;
        }
    }
    Ok(())
}

/// The action of Sq^k on cell `i`, to the one `k` dimensions above.
fn joining(alloc: Global, i: usize, k: u16) -> Result<Entry, Memory>
    requires { i ≤ MAX_GENERATORS }
    ensures { IfOk result (λ e. e ≡ joining i k) }
{
    let mut sum = Vec::new(alloc);
    sum.push(i + usize::from(k))?;
    Ok(Entry {
        n: u32::from(k),
        generator: i,
        sum,
    })
}

/// Whether Sq^k takes cell `i` to another of the `count` cells.
fn is_joined(min: i32, count: usize, i: usize, k: u16) -> bool
    requires cell { i ≤ MAX_GENERATORS }
    requires highest { (min +ℤ pos i) ≤ℤ MAX_DEGREE }
    requires lowest { neg_ℤ MAX_DEGREE ≤ℤ min }
    ensures { result ≡ is_joined min count i k }
{
    i + usize::from(k) < count && is_binomial_odd(min + i as i32, k)
}

/// The parity of the binomial of `n` over `k`.
#[tactic(auto, using(crate::proofs::Binomials::of_negative, crate::proofs::Binomials::of_natural, crate::proofs::Binomials::of_small))]
fn is_binomial_odd(n: i32, k: u16) -> bool
    requires { neg_ℤ MAX_DEGREE ≤ℤ n }
    ensures { result ≡ is_odd (binomial n k) }
{
    let k = u32::from(k);
    let size = n.unsigned_abs();
    if n < 0 {
        return is_choice_odd(k, size - 1);
    }
    k <= size && is_choice_odd(k, size - k)
}

/// The parity of the binomial of a + b over a, which is odd exactly where no binary digit is 1 in both (Kummer).
fn is_choice_odd(a: u32, b: u32) -> bool
    ensures { result ≡ is_odd (choose (a + b) a) }
{
    a & b == 0
}
