//! The module file of a module.
ghost use Rattle.std.specs.Prelude.{◌≡◌, ◌<◌, ◌≤◌, ◌++◌, ◌∷◌, [], length, map, codes, decimal, IfOk, OnOk};
ghost use Rattle.std.specs.List.{flat_map, range_with_len};
ghost use Rattle.module_spec.specs.Spec.{powers};
ghost use Rattle.module_build.specs.FileText.{escaped, quoted, member, action_text, action_of_square, actions, file_text};
ghost use Rattle.module_build.specs.Inside.Written.{after_comma, written_after};

use finite_module::{Module, sq};
use itoa::Buffer;
use memory::Memory;
use module_spec::POWERS;
use std::alloc::Global;

/// The module file that describes a module: its generators, and the squares Sq^n, n a power of two, that are not zero, in one line.
///
/// # Errors
/// `Memory` if allocation fails.
pub fn file_text(alloc: Global, given: &Module) -> Result<Vec<u8>, Memory>
    ensures { IfOk result (λ text. text.items ≡ file_text given.now.plain) }
{
    let members = members(alloc, given)?;
    let actions = actions(alloc, given)?;
    let mut text = Vec::from_slice(
        alloc,
        b"{\"type\":\"finite dimensional module\",\"p\":2,\"gens\":{",
    )?;
    text.extend_from_slice(members.as_slice())?;
    text.extend_from_slice(b"},\"actions\":[")?;
    text.extend_from_slice(actions.as_slice())?;
    text.extend_from_slice(b"]}\n")?;
    Ok(text)
}

/// The generators with their degrees, with commas between them.
fn members(alloc: Global, given: &Module) -> Result<Vec<u8>, Memory>
    ensures { IfOk result (λ text. text.items ≡ written_after [] (map member given.now.plain.generators)) }
{
    let mut text = Vec::new(alloc);
    for i in 0..given.count() {
        let member = member(alloc, given.name(i), given.degree(i))?;
        write_item(&mut text, member.as_slice())?;
    }
    Ok(text)
}

/// A generator with its degree.
fn member(alloc: Global, name: &str, degree: i32) -> Result<Vec<u8>, Memory>
    ensures { IfOk result (λ text. text.items ≡ member (record { name = name.now; degree = degree })) }
{
    let mut buffer = Buffer::new();
    let mut text = quoted(alloc, name.as_bytes())?;
    text.push(b':')?;
    text.extend_from_slice(buffer.format(degree).as_bytes())?;
    Ok(text)
}

/// The actions, with commas between them.
fn actions(alloc: Global, given: &Module) -> Result<Vec<u8>, Memory>
    ensures { IfOk result (λ text. text.items ≡ written_after [] (actions given.now.plain)) }
{
    let mut text = Vec::new(alloc);
    for i in 0..given.count() {
        add_actions(alloc, &mut text, given, i)?;
    }
    Ok(text)
}

/// Writes the actions on generator `i` behind others.
fn add_actions(alloc: Global, text: &mut Vec<u8>, given: &Module, i: usize) -> Result<(), Memory>
    requires { i < length given.now.plain.generators }
    ensures { OnOk result
        (text.new.items ≡ written_after text.old.items (flat_map (action_of_square given.now.plain i) powers)) }
{
    for n in POWERS {
        add_action(alloc, text, given, i, n)?;
    }
    Ok(())
}

/// Writes the action of Sq^n on generator `i` behind others, where it is not zero.
fn add_action(
    alloc: Global,
    text: &mut Vec<u8>,
    given: &Module,
    i: usize,
    n: u16,
) -> Result<(), Memory>
    requires generator { i < length given.now.plain.generators }
    requires square { 0 < n }
    requires small { n ≤ 64 }
    ensures { OnOk result (text.new.items ≡ written_after text.old.items (action_of_square given.now.plain i n)) }
{
    let value = given.act(alloc, &sq(n), i)?;
    if value.is_zero() {
        return Ok(());
    }
    let sum = given.sum_text(alloc, given.degree(i) + i32::from(n), &value)?;
    let action = action_text(alloc, n, given.name(i), sum.as_slice())?;
    let item = quoted(alloc, action.as_slice())?;
    write_item(text, item.as_slice())
}

/// The action of Sq^n on a generator.
fn action_text(alloc: Global, n: u16, name: &str, sum: &[u8]) -> Result<Vec<u8>, Memory>
    ensures { IfOk result
        (λ text. text.items ≡ codes "Sq" ++ (decimal n ++ (codes " " ++ (name.now ++ (codes " = " ++ sum.now))))) }
{
    let mut buffer = Buffer::new();
    let mut text = Vec::from_slice(alloc, b"Sq")?;
    text.extend_from_slice(buffer.format(n).as_bytes())?;
    text.push(b' ')?;
    text.extend_from_slice(name.as_bytes())?;
    text.extend_from_slice(b" = ")?;
    text.extend_from_slice(sum)?;
    Ok(text)
}

/// A text of visible characters and spaces, as JSON writes it.
fn quoted(alloc: Global, text: &[u8]) -> Result<Vec<u8>, Memory>
    ensures { IfOk result (λ written. written.items ≡ quoted text.now) }
{
    let mut written = Vec::new(alloc);
    written.push(b'"')?;
    for character in text {
        write_character(&mut written, *character)?;
    }
    written.push(b'"')?;
    Ok(written)
}

/// Writes a character behind others, with a backslash before a quotation mark and a backslash.
fn write_character(text: &mut Vec<u8>, character: u8) -> Result<(), Memory>
    ensures { OnOk result (text.new.items ≡ text.old.items ++ escaped character) }
{
    if character == b'"' || character == b'\\' {
        text.push(b'\\')?;
    }
    text.push(character)?;
    Ok(())
}

/// Writes an item behind others, with a comma before it if it is not the first.
fn write_item(text: &mut Vec<u8>, item: &[u8]) -> Result<(), Memory>
    ensures { OnOk result (text.new.items ≡ after_comma text.old.items item.now) }
{
    if !text.is_empty() {
        text.push(b',')?;
    }
    text.extend_from_slice(item)?;
    Ok(())
}
