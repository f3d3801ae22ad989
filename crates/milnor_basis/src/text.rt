//! Basis elements as text.
ghost use Rattle.std.specs.Prelude.{◌≡◌, IfOk, string_bytes};
ghost use Rattle.milnor_basis.specs.Text.{sq_text};

use crate::exps::Exps;
use itoa::Buffer;
use memory::Memory;
use std::alloc::Global;

/// Sq(R) as text, such as `Sq(0,0,1)`: its exponents up to the last above 0, with a comma between each two. The unit
/// is `Sq()`.
///
/// # Errors
/// `Memory` if allocation fails.
pub fn sq_text(alloc: Global, r: &Exps) -> Result<String, Memory>
    ensures { IfOk result (λ text. string_bytes text ≡ sq_text r.now) }
{
    let mut buffer = Buffer::new();
    let mut text = String::from_str(alloc, "Sq(")?;
    for i in 0..r.len() {
        if i > 0 {
            text.push(',')?;
        }
        text.push_str(buffer.format(r.exponent(i)))?;
    }
    text.push(')')?;
    Ok(text)
}
