//! The checks of a module file before its actions.
ghost use Rattle.std.specs.Prelude.{◌≡◌, ◌≢◌, ◌≤◌, length, Some, Ok, Err, IfOk, IfErr};
ghost use Rattle.std.specs.Result.{result_err};
ghost use Rattle.std.specs.String.{string_cmp};
ghost use Rattle.std.specs.BTreeMap.{IsOrdered};
ghost use Rattle.serde_json.specs.Data.{Data};
ghost use Rattle.serde_json.specs.View.{view, members_view, items_view};
ghost use Rattle.module_json.specs.Checks.{IsJson, IsValueOf, size_refusal, whole_refusal, kind_refusal, absent_refusal, keys_refusal, prime_refusal, header_refusal, is_space, gens_refusal, actions_refusal};
ghost use Rattle.module_json.specs.Parts.{parts_refusal, parts_of};
ghost use Rattle.module_json.specs.ModuleFile.{gens_of, actions_of, degree_of, generator_refusal};

use crate::action::names;
use crate::malformed::{Malformed, Place, What};
use module_spec::{MAX_ACTIONS, MAX_FILE_BYTES, MAX_GENERATORS, is_degree};
use serde_json::{Map, Value};
use std::alloc::Global;

/// The type of a file that lists generators and actions.
const LISTED: &str = "finite dimensional module";

/// The type of a file that gives the least and the greatest dimension of cells.
const SPACE: &str = "real projective space";

/// The check of the size of a file.
fn check_size(bytes: &[u8]) -> Result<(), Malformed>
    ensures { result_err result ≡ size_refusal bytes.now }
{
    if bytes.len() > MAX_FILE_BYTES {
        return Err(Malformed::Limit { what: What::Bytes });
    }
    Ok(())
}

/// The JSON value of bytes.
fn parse(alloc: Global, bytes: &[u8]) -> Result<Value, Malformed>
    ensures value { IfOk result (λ v. IsJson bytes.now (view v)) }
    ensures only { IfErr result (λ e. e ≢ Malformed.Memory → e ≡ Malformed.Json) }
    ensures refuses { IfErr result (λ e. e ≢ Malformed.Memory → (d : Data) → ¬ IsJson bytes.now d) }
{
    match Value::from_slice(alloc, bytes) {
        Ok(value) => Ok(value),
        Err(fault) => {
            if fault.is_memory() {
                return Err(Malformed::Memory);
            }
            Err(Malformed::Json)
        }
    }
}

/// The JSON value of a file.
pub(crate) fn read_value(alloc: Global, bytes: &[u8]) -> Result<Value, Malformed>
    ensures value { IfOk result (λ v. IsValueOf bytes.now (Ok (view v))) }
    ensures refused { IfErr result (λ e. e ≢ Malformed.Memory → IsValueOf bytes.now (Err e)) }
{
    check_size(bytes)?;
    parse(alloc, bytes)
}

/// The parts of a file, which is a JSON array of `want` of them.
#[tactic(auto, using(crate::proofs::Counts::items_counted))]
pub(crate) fn parts(file: &Value, want: usize) -> Result<&[Value], Malformed>
    ensures refuses { result_err result ≡ parts_refusal want (view file.now) }
    ensures value { IfOk result (λ a. items_view a.now ≡ parts_of (view file.now)) }
{
    let Some(parts) = file.as_array() else {
        return Err(Malformed::Shape { at: Place::Whole });
    };
    let given = parts.len();
    if given != want {
        return Err(Malformed::Parts { want, given });
    }
    Ok(parts.as_slice())
}

/// The check that a file is a JSON object.
fn check_whole(file: &Value) -> Result<(), Malformed>
    ensures { result_err result ≡ whole_refusal (view file.now) }
{
    if !file.is_object() {
        return Err(Malformed::Shape { at: Place::Whole });
    }
    Ok(())
}

/// The check of `"type"`.
fn check_kind(file: &Value) -> Result<(), Malformed>
    ensures { result_err result ≡ kind_refusal (view file.now) }
{
    match file.get("type").and_then(Value::as_str) {
        None => Err(Malformed::Shape { at: Place::Kind }),
        Some(kind) if kind == LISTED || kind == SPACE => Ok(()),
        Some(_) => Err(Malformed::Kind),
    }
}

/// Whether the type is that of a real projective space.
pub(crate) fn is_space(file: &Value) -> bool
    ensures { result ≡ is_space (view file.now) }
{
    match file.get("type").and_then(Value::as_str) {
        None => false,
        Some(kind) => kind == SPACE,
    }
}

/// The check that there is no such key.
fn check_absent(file: &Value, key: &str, at: Place) -> Result<(), Malformed>
    ensures { result_err result ≡ absent_refusal key.now at (view file.now) }
{
    match file.get(key) {
        None => Ok(()),
        Some(_) => Err(Malformed::Shape { at }),
    }
}

/// The checks that there is no key by which another module is meant.
fn check_keys(file: &Value) -> Result<(), Malformed>
    ensures { result_err result ≡ keys_refusal (view file.now) }
{
    check_absent(file, "cofiber", Place::Cofiber)?;
    check_absent(file, "shift", Place::Shift)?;
    check_absent(file, "profile", Place::Profile)?;
    check_absent(file, "adem_actions", Place::AdemActions)?;
    check_absent(file, "milnor_actions", Place::MilnorActions)
}

/// The check that `"p"` is 2, or left out.
fn check_prime(file: &Value) -> Result<(), Malformed>
    ensures { result_err result ≡ prime_refusal (view file.now) }
{
    let Some(prime) = file.get("p") else {
        return Ok(());
    };
    match prime.as_u64() {
        None => Err(Malformed::Shape { at: Place::Prime }),
        Some(2) => Ok(()),
        Some(given) => Err(Malformed::Prime { given }),
    }
}

/// The checks of a value's header, which are those of every type of module file.
pub(crate) fn check_header(file: &Value) -> Result<(), Malformed>
    ensures { result_err result ≡ header_refusal (view file.now) }
{
    check_whole(file)?;
    check_kind(file)?;
    check_keys(file)?;
    check_prime(file)
}

/// The generators with their degrees, in the order of the bytes of their names.
#[tactic(auto, using(crate::proofs::Counts::members_counted))]
pub(crate) fn gens(file: &Value) -> Result<&Map<String, Value>, Malformed>
    ensures refuses { result_err result ≡ gens_refusal (view file.now) }
    ensures value { IfOk result (λ m. members_view m.now.entries ≡ gens_of (view file.now)) }
    ensures few { IfOk result (λ m. length m.now.entries ≤ MAX_GENERATORS) }
    ensures ordered { IfOk result (λ m. IsOrdered string_cmp m.now) }
{
    let Some(gens) = file.get("gens").and_then(Value::as_object) else {
        return Err(Malformed::Shape { at: Place::Gens });
    };
    if gens.len() > MAX_GENERATORS {
        return Err(Malformed::Limit { what: What::Gens });
    }
    Ok(gens)
}

/// The actions, as they are listed.
#[tactic(auto, using(crate::proofs::Counts::items_counted))]
pub(crate) fn actions(file: &Value) -> Result<&[Value], Malformed>
    ensures refuses { result_err result ≡ actions_refusal (view file.now) }
    ensures value { IfOk result (λ a. items_view a.now ≡ actions_of (view file.now)) }
    ensures few { IfOk result (λ a. length a.now ≤ MAX_ACTIONS) }
{
    let Some(value) = file.get("actions") else {
        return Ok(&[]);
    };
    let Some(actions) = value.as_array() else {
        return Err(Malformed::Shape { at: Place::Actions });
    };
    if actions.len() > MAX_ACTIONS {
        return Err(Malformed::Limit {
            what: What::Actions,
        });
    }
    Ok(actions.as_slice())
}

/// The degree of generator `i`, whose name and degree are as they should be.
pub(crate) fn degree(i: usize, name: &str, value: &Value) -> Result<i32, Malformed>
    ensures refuses { result_err result ≡ generator_refusal i name.now (view value.now) }
    ensures value { IfOk result (λ z. degree_of (view value.now) ≡ Some z) }
{
    if !names(name.as_bytes()) {
        return Err(Malformed::Name { generator: i });
    }
    let Some(degree) = value.as_i64() else {
        return Err(Malformed::Degree { generator: i });
    };
    if !is_degree(degree) {
        return Err(Malformed::Limit { what: What::Degree });
    }
    Ok(degree as i32)
}
