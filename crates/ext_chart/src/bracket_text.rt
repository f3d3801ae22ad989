//! A bracket as text.
ghost use Rattle.std.specs.Prelude.{◌≡◌, IfOk};
ghost use Rattle.ext_chart.specs.Classes.{value_line, indeterminacy_line, indeterminacy_lines, bracket_text};

use crate::classes::class_sum_text;
use f2_vec::BitVec;
use itoa::Buffer;
use memory::Memory;
use std::alloc::Global;

/// The line of a value, a vector over the classes of the square in row `s` and of internal degree `t`.
fn value_line(alloc: Global, s: i32, t: i32, value: &BitVec) -> Result<Vec<u8>, Memory>
    ensures { IfOk result (λ text. text.items ≡ value_line s t value.now) }
{
    let sum = class_sum_text(alloc, s, t, value)?;
    let mut buffer = Buffer::new();
    let mut text = Vec::from_slice(alloc, b"value (")?;
    text.extend_from_slice(buffer.format(s).as_bytes())?;
    text.push(b',')?;
    text.extend_from_slice(buffer.format(t).as_bytes())?;
    text.extend_from_slice(b"): ")?;
    text.extend_from_slice(sum.as_slice())?;
    text.push(b'\n')?;
    Ok(text)
}

/// The line of a vector of the indeterminacy.
fn indeterminacy_line(alloc: Global, s: i32, t: i32, v: &BitVec) -> Result<Vec<u8>, Memory>
    ensures { IfOk result (λ text. text.items ≡ indeterminacy_line s t v.now) }
{
    let sum = class_sum_text(alloc, s, t, v)?;
    let mut text = Vec::from_slice(alloc, b"indeterminacy: ")?;
    text.extend_from_slice(sum.as_slice())?;
    text.push(b'\n')?;
    Ok(text)
}

/// The lines of the vectors of a basis of the indeterminacy, and the line of zero where there is none.
fn indeterminacy_lines(alloc: Global, s: i32, t: i32, rows: &[BitVec]) -> Result<Vec<u8>, Memory>
    ensures { IfOk result (λ text. text.items ≡ indeterminacy_lines s t rows.now) }
{
    if rows.is_empty() {
        return indeterminacy_line(alloc, s, t, &BitVec::zero(alloc, 0)?);
    }
    let mut text = Vec::new(alloc);
    for row in rows {
        let line = indeterminacy_line(alloc, s, t, row)?;
        text.extend_from_slice(line.as_slice())?;
    }
    Ok(text)
}

/// A bracket as text: the line `value (3,11): (3,11,0)` of one of its values, a vector over the classes of the square in row `s` and
/// of internal degree `t`, and for each of the vectors `rows`, a basis of its indeterminacy, a line `indeterminacy: (3,6,0)`, or the one
/// line `indeterminacy: 0` where there are none.
///
/// # Errors
/// `Memory` if allocation fails.
pub fn bracket_lines(
    alloc: Global,
    s: i32,
    t: i32,
    value: &BitVec,
    rows: &[BitVec],
) -> Result<Vec<u8>, Memory>
    ensures { IfOk result (λ text. text.items ≡ bracket_text s t value.now rows.now) }
{
    let mut text = value_line(alloc, s, t, value)?;
    let indeterminacy = indeterminacy_lines(alloc, s, t, rows)?;
    text.extend_from_slice(indeterminacy.as_slice())?;
    Ok(text)
}
