//! A module as a file describes it.
ghost use Rattle.std.specs.Prelude.{◌≡◌, ◌≢◌, ◌<◌, length, Some, Ok, Err, IfOk, IfErr, option_map, slice_get};
ghost use Rattle.serde_json.specs.View.{view, items_view};
ghost use Rattle.module_json.specs.ModuleFile.{listed_of, space_of, file_of, IsFileOf};
ghost use Rattle.module_json.specs.Parts.{files_of, modules_of, ArePartsOf};
ghost use Rattle.module_spec.specs.WellFormed.{IsWellFormed};

use crate::checks::{actions, check_header, gens, is_space, parts, read_value};
use crate::entry::entries;
use crate::generator::{check_span, generators};
use crate::malformed::Malformed;
use crate::space::{CellRange, cell_range, cells, squares};
use module_spec::Spec;
use serde_json::Value;
use std::alloc::Global;

/// The module that a value describes behind its header if it lists generators and actions, or the first thing wrong there.
fn describe_listed(alloc: Global, file: &Value) -> Result<Spec, Malformed>
    ensures module { IfOk result (λ s. listed_of (view file.now) ≡ Ok s) }
    ensures refused { IfErr result (λ e. e ≢ Malformed.Memory → listed_of (view file.now) ≡ Err e) }
{
    let members = gens(file)?;
    let generators = generators(alloc, members)?;
    check_span(generators.as_slice())?;
    let actions = actions(file)?;
    let entries = entries(alloc, generators.as_slice(), actions)?;
    Ok(Spec::new(generators, entries))
}

/// The module that a value describes behind its header if it is a real projective space, or the first thing wrong there.
fn describe_space(alloc: Global, file: &Value) -> Result<Spec, Malformed>
    ensures module { IfOk result (λ s. space_of (view file.now) ≡ Ok s) }
    ensures refused { IfErr result (λ e. e ≢ Malformed.Memory → space_of (view file.now) ≡ Err e) }
{
    let CellRange { min, count } = cell_range(file)?;
    let generators = cells(alloc, min, count)?;
    let entries = squares(alloc, min, count)?;
    Ok(Spec::new(generators, entries))
}

/// The module that a value describes, or the first thing wrong with it.
fn describe(alloc: Global, file: &Value) -> Result<Spec, Malformed>
    ensures module { IfOk result (λ s. file_of (view file.now) ≡ Ok s) }
    ensures refused { IfErr result (λ e. e ≢ Malformed.Memory → file_of (view file.now) ≡ Err e) }
{
    check_header(file)?;
    if is_space(file) {
        return describe_space(alloc, file);
    }
    describe_listed(alloc, file)
}

/// The module that a file describes, or the first thing wrong with it.
///
/// The file is a JSON object of at most 2^20 bytes, whose `"p"` is 2 or left out. If its `"type"` is
/// `"finite dimensional module"`, `"gens"` has the degree of each generator under its name, and `"actions"`, which may be
/// left out, lists texts such as `Sq2 x0 = x2 + y2`, whose right side is `0` for none. If it is `"real projective space"`,
/// there is a cell in each dimension from `"min"` to `"max"`, named as `x3` and `x-1`, and Sq^k takes the one of dimension n
/// to binom(n, k) times the one of dimension n + k (Steenrod). The keys `"cofiber"`, `"shift"`, `"profile"`,
/// `"adem_actions"` and `"milnor_actions"` are refused, and others are passed over. A repeated key has its last value.
///
/// # Errors
/// The first check that fails, in this order: bytes, JSON, `"type"`, the refused keys as listed above, `"p"`; then
/// `"gens"`, each generator in the order of the names' bytes, the span of the degrees, `"actions"`, each action; or
/// `"min"`, `"max"`, that both are degrees, that `"max"` is not below `"min"`, that the cells are at most
/// [`MAX_GENERATORS`](crate::MAX_GENERATORS).
/// `Memory` may come at any time.
pub fn read(alloc: Global, bytes: &[u8]) -> Result<Spec, Malformed>
    ensures module { IfOk result (λ s. IsFileOf bytes.now (Ok s)) }
    ensures refused { IfErr result (λ e. e ≢ Malformed.Memory → IsFileOf bytes.now (Err e)) }
{
    let file = read_value(alloc, bytes)?;
    describe(alloc, &file)
}

/// The modules that values describe, or the first thing wrong with one, from the first value on.
fn describe_each(alloc: Global, parts: &[Value]) -> Result<Vec<Spec>, Malformed>
    ensures modules { IfOk result (λ specs. files_of (items_view parts.now) ≡ Ok specs.items) }
    ensures refused { IfErr result (λ e. e ≢ Malformed.Memory → files_of (items_view parts.now) ≡ Err e) }
{
    let mut specs = Vec::with_capacity(alloc, parts.len())?;
    for part in parts {
        let spec = describe(alloc, part)?;
        specs.push(spec)?;
    }
    Ok(specs)
}

/// The modules that a value describes, which is an array of `want` of them, or the first thing wrong with it.
fn describe_parts(alloc: Global, file: &Value, want: usize) -> Result<Vec<Spec>, Malformed>
    ensures modules { IfOk result (λ specs. modules_of want (view file.now) ≡ Ok specs.items) }
    ensures refused { IfErr result (λ e. e ≢ Malformed.Memory → modules_of want (view file.now) ≡ Err e) }
{
    let parts = parts(file, want)?;
    describe_each(alloc, parts)
}

/// The modules that a file of `want` modules describes, or the first thing wrong with it.
///
/// The file is a JSON array of at most 2^20 bytes. Its items are `want` modules, each as in a file that [`read`] takes.
///
/// # Errors
/// The first check that fails, in this order: bytes, JSON, that it is an array, how many items it has, each item by the
/// checks of [`read`] from the one on that it is an object. It does not tell which item it is of. `Memory` may come at any
/// time.
pub fn read_parts(alloc: Global, bytes: &[u8], want: usize) -> Result<Vec<Spec>, Malformed>
    ensures modules { IfOk result (λ specs. ArePartsOf want bytes.now (Ok specs.items)) }
    ensures refused { IfErr result (λ e. e ≢ Malformed.Memory → ArePartsOf want bytes.now (Err e)) }
{
    let file = read_value(alloc, bytes)?;
    describe_parts(alloc, &file, want)
}
