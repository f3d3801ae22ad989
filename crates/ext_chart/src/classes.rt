//! Classes of Ext, and sums of them, as text.
ghost use Rattle.std.specs.Prelude.{◌≡◌, IfOk};
ghost use Rattle.ext_chart.specs.Classes.{class_text, class_sum_text};

use crate::squares_text::ZERO;
use f2_vec::BitVec;
use itoa::Buffer;
use memory::Memory;
use std::alloc::Global;

/// Class `i` of the square in row `s` and of internal degree `t`, as `(s,t,i)`.
pub(crate) fn class_text(alloc: Global, s: i32, t: i32, i: usize) -> Result<Vec<u8>, Memory>
    ensures { IfOk result (λ text. text.items ≡ class_text s t i) }
{
    let mut buffer = Buffer::new();
    let mut text = Vec::from_slice(alloc, b"(")?;
    text.extend_from_slice(buffer.format(s).as_bytes())?;
    text.push(b',')?;
    text.extend_from_slice(buffer.format(t).as_bytes())?;
    text.push(b',')?;
    text.extend_from_slice(buffer.format(i).as_bytes())?;
    text.push(b')')?;
    Ok(text)
}

/// A vector over the classes of the square in row `s` and of internal degree `t`: the sum of those where it is one.
pub(crate) fn class_sum_text(alloc: Global, s: i32, t: i32, v: &BitVec) -> Result<Vec<u8>, Memory>
    ensures { IfOk result (λ text. text.items ≡ class_sum_text s t v.now) }
{
    let ones = v.ones(alloc)?;
    if ones.is_empty() {
        return Ok(Vec::from_slice(alloc, ZERO)?);
    }
    let mut text = Vec::new(alloc);
    for (k, i) in ones.iter().enumerate() {
        if k > 0 {
            text.extend_from_slice(b" + ")?;
        }
        let term = class_text(alloc, s, t, *i)?;
        text.extend_from_slice(term.as_slice())?;
    }
    Ok(text)
}
