//! The differentials of a resolution as text.
ghost use Rattle.std.specs.Prelude.{◌≡◌, ◌<◌, length, IfOk};
ghost use Rattle.bidegree.specs.LastDegrees.{last_degree};
ghost use Rattle.resolution_laws.specs.Resolution.{row_of};
ghost use Rattle.ext_chart.specs.Dump.{square_text, row_text, dump_text};
ghost use Rattle.ext_chart.specs.Inside.Targets.{IsTargetOf};
ghost use Rattle.ext_chart.specs.Seen.{IsSeenThrough};

use crate::lines::square_lines;
use crate::named_target::NamedTarget;
use crate::shown::{Shown, degree};
use bidegree::{Range, Shape};
use memory::Memory;
use std::alloc::Global;

/// The differentials of the rows of the table through the range, in this shape: a line for each generator, row by row, in a
/// row by degree, and in a degree by number.
///
/// # Errors
/// `Memory` if allocation fails.
pub fn dump<R: Shown>(
    alloc: Global,
    table: &R,
    range: Range,
    shape: Shape,
) -> Result<Vec<u8>, Memory>
    requires { IsSeenThrough range shape (R.seen table.now).rows }
    ensures { IfOk result (λ text. text.items ≡ dump_text (R.seen table.now).resolved.plain.generators range.s
        (last_degree shape range) (R.seen table.now).rows) }
{
    let mut text = Vec::new(alloc);
    for s in 0..=range.s {
        let lines = row_text(alloc, table, s, shape.last_degree(range, s))?;
        text.extend_from_slice(lines.as_slice())?;
    }
    Ok(text)
}

/// The lines of the generators of row `s`, through `t` degrees above the bottom.
fn row_text<R: Shown>(alloc: Global, table: &R, s: u16, t: u16) -> Result<Vec<u8>, Memory>
    requires { t < length (row_of (R.seen table.now).rows s) }
    ensures { IfOk result
        (λ text. text.items ≡ row_text (R.seen table.now).resolved.plain.generators (R.seen table.now).rows t s) }
{
    let target = NamedTarget::of(alloc, table, s)?;
    squares_text(alloc, table, &target, s, t)
}

/// Those, where d_s goes to this target.
fn squares_text<R: Shown>(
    alloc: Global,
    table: &R,
    target: &NamedTarget,
    s: u16,
    t: u16,
) -> Result<Vec<u8>, Memory>
    requires there { t < length (row_of (R.seen table.now).rows s) }
    requires target { IsTargetOf (R.seen table.now).resolved.plain.generators (R.seen table.now).rows s target.now }
    ensures { IfOk result
        (λ text. text.items ≡ row_text (R.seen table.now).resolved.plain.generators (R.seen table.now).rows t s) }
{
    let mut text = Vec::new(alloc);
    for k in 0..=t {
        let lines = square_text(alloc, table, target, s, k)?;
        text.extend_from_slice(lines.as_slice())?;
    }
    Ok(text)
}

/// The lines of the generators in the square of row `s` that is `k` degrees above the bottom.
fn square_text<R: Shown>(
    alloc: Global,
    table: &R,
    target: &NamedTarget,
    s: u16,
    k: u16,
) -> Result<Vec<u8>, Memory>
    requires there { k < length (row_of (R.seen table.now).rows s) }
    requires target { IsTargetOf (R.seen table.now).resolved.plain.generators (R.seen table.now).rows s target.now }
    ensures { IfOk result
        (λ text. text.items ≡ square_text (R.seen table.now).resolved.plain.generators (R.seen table.now).rows s k) }
{
    let images = table.images(s, k);
    let basis = table.basis(alloc, s, k)?;
    square_lines(alloc, basis, target, s, degree(table, k), images)
}
