//! The lines of the generators of a square.
ghost use Rattle.std.specs.Prelude.{◌≡◌, IfOk};
ghost use Rattle.f2_vec.specs.Spans.{HaveWidth};
ghost use Rattle.ext_chart.specs.Dump.{generator_line, square_lines};
ghost use Rattle.ext_chart.specs.Inside.Targets.{IsNamed, text_over, width_over};

use crate::named_target::NamedTarget;
use crate::place::{Place, place_text};
use f2_vec::BitVec;
use memory::Memory;
use milnor_basis::Basis;
use std::alloc::Global;

/// The lines of the generators of a square of row `s` and of degree `t`, with these images in the target of d_s.
pub(crate) fn square_lines(
    alloc: Global,
    basis: &Basis,
    target: &NamedTarget,
    s: u16,
    t: i32,
    images: &[BitVec],
) -> Result<Vec<u8>, Memory>
    requires named { IsNamed target.now basis.now t }
    requires widths { HaveWidth (width_over target.now t) images.now }
    ensures { IfOk result (λ text. text.items ≡ square_lines (text_over target.now t) s t images.now) }
{
    let mut text = Vec::new(alloc);
    for (i, image) in images.iter().enumerate() {
        let sum = target.sum_text(alloc, basis, t, image)?;
        let line = generator_line(alloc, Place { s, t, i }, sum.as_slice())?;
        text.extend_from_slice(line.as_slice())?;
    }
    Ok(text)
}

/// `d(s,t,i) = ` and the text of the image.
fn generator_line(alloc: Global, place: Place, image: &[u8]) -> Result<Vec<u8>, Memory>
    ensures { IfOk result (λ line. line.items ≡ generator_line place image.now) }
{
    let place = place_text(alloc, place)?;
    let mut line = Vec::from_slice(alloc, b"d")?;
    line.extend_from_slice(place.as_slice())?;
    line.extend_from_slice(b" = ")?;
    line.extend_from_slice(image)?;
    line.push(b'\n')?;
    Ok(line)
}
