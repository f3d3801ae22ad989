//! The products of a class with others as text.
ghost use Rattle.std.specs.Prelude.{◌≡◌, pos, IfOk};
ghost use Rattle.ext_chart.specs.Classes.{product_line, product_lines_text};

use crate::classes::{class_sum_text, class_text};
use f2_vec::BitVec;
use memory::Memory;
use std::alloc::Global;

/// A class and its product with another: class `i` of the square in row `s` and of internal degree `t`, and over the classes of
/// the square in row `target_s` and of internal degree `target_t` the product, as a vector.
#[derive(Debug, Drop)]
pub struct ProductLine {
    pub s: u16,
    pub t: i32,
    pub i: usize,
    pub target_s: u16,
    pub target_t: i32,
    pub value: BitVec,
}

/// The line of a class and its product.
fn product_line(alloc: Global, line: &ProductLine) -> Result<Vec<u8>, Memory>
    ensures { IfOk result (λ text. text.items ≡ product_line line.now) }
{
    let product = class_sum_text(alloc, i32::from(line.target_s), line.target_t, &line.value)?;
    let mut text = class_text(alloc, i32::from(line.s), line.t, line.i)?;
    text.extend_from_slice(b" -> ")?;
    text.extend_from_slice(product.as_slice())?;
    text.push(b'\n')?;
    Ok(text)
}

/// The products of a class as text, a line each: `(1,1,0) -> (2,2,0)`, a sum with ` + ` between its terms, and `0` where the product
/// is zero.
///
/// # Errors
/// `Memory` if allocation fails.
pub fn product_lines(alloc: Global, lines: &[ProductLine]) -> Result<Vec<u8>, Memory>
    ensures { IfOk result (λ text. text.items ≡ product_lines_text lines.now) }
{
    let mut text = Vec::new(alloc);
    for line in lines {
        let shown = product_line(alloc, line)?;
        text.extend_from_slice(shown.as_slice())?;
    }
    Ok(text)
}
