//! Classes with their products, as lines.
ghost use Rattle.std.specs.Prelude.{◌≡◌, ◌<◌, [], ◌∷◌, ◌++◌, length, position, IfSome, IfOk, OnOk};
ghost use Rattle.std.specs.List.{flat_map, range_with_len};
ghost use Rattle.ext_table.specs.Table.{is_on, by_text, past_line, line_on, class_line, class_text};

use bidegree::Class;
use ext_chart::{ProductLine, product_lines};
use memory::Memory;
use std::alloc::Global;
use std::marker::Model;

/// A class of the sphere, and the lines of its products with classes of a module.
#[derive(Debug, Drop)]
pub(crate) struct Listed {
    by: Class,
    lines: Vec<ProductLine>,
}

impl Model for Listed {
    ghost use Rattle.ext_table.specs.Listing.{Listing};

    ghost Value = { Listing };

    ghost view = { λ listed. record { by = listed.by; lines = listed.lines.items } };
}

/// Adds a class with the lines of its products.
///
/// # Errors
/// `Memory` if allocation fails.
pub(crate) fn add_listed(
    lists: &mut Vec<Listed>,
    by: Class,
    lines: Vec<ProductLine>,
) -> Result<(), Memory>
    ensures { OnOk result (lists.new.items ≡ lists.old.items ++ record { by = by; lines = lines.items } ∷ []) }
{
    lists.push(Listed { by, lines })?;
    Ok(())
}

/// Whether a line is on class `i` of the square in row `s` and of internal degree `t`.
fn is_on(line: &ProductLine, s: u16, t: i32, i: usize) -> bool
    ensures { result ≡ is_on s t i line.now }
{
    line.s == s && line.t == t && line.i == i
}

/// What stands in front of a product with this class.
fn by_text(alloc: Global, by: Class) -> Result<Vec<u8>, Memory>
    ensures { IfOk result (λ text. text.items ≡ by_text by) }
{
    let Class { s, t, i } = by;
    Ok(format!(in alloc; "by ({s},{t},{i}) ")?.into_bytes())
}

/// That a product is in none of the squares.
fn past_line(alloc: Global, s: u16, t: i32, i: usize) -> Result<Vec<u8>, Memory>
    ensures { IfOk result (λ text. text.items ≡ past_line s t i) }
{
    Ok(format!(in alloc; "({s},{t},{i}) -> past\n")?.into_bytes())
}

/// Where the line on that class stands among others.
fn place_on(lines: &[ProductLine], s: u16, t: i32, i: usize) -> Option<usize>
    ensures place { result ≡ position (is_on s t i) lines.now }
    ensures bound { IfSome result (λ k. k < length lines.now) }
{
    lines.iter().position(|line| is_on(line, s, t, i))
}

/// The line on that class among others, or that its product is in none of the squares.
fn line_on(
    alloc: Global,
    lines: &[ProductLine],
    s: u16,
    t: i32,
    i: usize,
) -> Result<Vec<u8>, Memory>
    ensures { IfOk result (λ text. text.items ≡ line_on s t i lines.now) }
{
    match place_on(lines, s, t, i) {
        Some(place) => product_lines(alloc, &lines[place..place + 1]),
        None => past_line(alloc, s, t, i),
    }
}

/// A class of a module with one of the sphere.
fn class_line(alloc: Global, listed: &Listed, s: u16, t: i32, i: usize) -> Result<Vec<u8>, Memory>
    ensures { IfOk result (λ text. text.items ≡ class_line s t i listed.now) }
{
    let mut text = by_text(alloc, listed.by)?;
    let line = line_on(alloc, listed.lines.as_slice(), s, t, i)?;
    text.extend_from_slice(line.as_slice())?;
    Ok(text)
}

/// Adds the lines of class `i` of the square in row `s` and of internal degree `t`, one with each class of the sphere.
fn add_class(
    alloc: Global,
    lists: &[Listed],
    s: u16,
    t: i32,
    i: usize,
    text: &mut Vec<u8>,
) -> Result<(), Memory>
    ensures { OnOk result (text.new.items ≡ text.old.items ++ class_text lists.now s t i) }
{
    for listed in lists {
        let line = class_line(alloc, listed, s, t, i)?;
        text.extend_from_slice(line.as_slice())?;
    }
    Ok(())
}

/// Adds the lines of the first `count` classes of that square.
///
/// # Errors
/// `Memory` if allocation fails.
pub(crate) fn add_classes(
    alloc: Global,
    lists: &[Listed],
    s: u16,
    t: i32,
    count: usize,
    text: &mut Vec<u8>,
) -> Result<(), Memory>
    ensures { OnOk result (text.new.items
        ≡ text.old.items ++ flat_map (class_text lists.now s t) (range_with_len 0 count)) }
{
    for i in 0..count {
        add_class(alloc, lists, s, t, i, text)?;
    }
    Ok(())
}
