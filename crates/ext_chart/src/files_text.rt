//! What is told of a save file: that it has all quasi-inverses, and the chart of which it is a certificate.
ghost use Rattle.std.specs.Prelude.{◌≡◌, IfOk};
ghost use Rattle.bidegree.specs.declared.shape.Shape.TheVariants.{Rectangle};
ghost use Rattle.bidegree.specs.LastDegrees.{last_degree};
ghost use Rattle.resolution_laws.specs.Resolution.{generator_count};
ghost use Rattle.square.specs.Squares.{bottom_of};
ghost use Rattle.ext_chart.specs.Files.{migrated_line, verified_line, verified_text};
ghost use Rattle.ext_chart.specs.Seen.{IsSeenThrough};

use crate::chart_text::chart;
use crate::shown::Shown;
use crate::summary_text::square_count;
use bidegree::{Range, Shape};
use itoa::Buffer;
use memory::Memory;
use std::alloc::Global;

/// The line on a save file each square of which has its quasi-inverse.
///
/// # Errors
/// `Memory` if allocation fails.
pub fn migrated_line(alloc: Global) -> Result<Vec<u8>, Memory>
    ensures { IfOk result (λ line. line.items ≡ migrated_line) }
{
    Ok(Vec::from_slice(alloc, b"migrated\n")?)
}

/// The line on the squares of the range.
fn verified_line(alloc: Global, range: Range) -> Result<Vec<u8>, Memory>
    ensures { IfOk result (λ line. line.items ≡ verified_line range.s (last_degree Rectangle range)) }
{
    let mut buffer = Buffer::new();
    let mut line = Vec::from_slice(alloc, b"verified ")?;
    line.extend_from_slice(
        buffer
            .format(square_count(range, Shape::Rectangle))
            .as_bytes(),
    )?;
    line.extend_from_slice(b" squares\n")?;
    Ok(line)
}

/// The chart of the rows of the table through the range, as `chart` makes it, and a line that says how many squares the
/// range has. It is for a table that was verified through the range.
///
/// # Errors
/// `Memory` if allocation fails.
pub fn verified_chart<R: Shown>(alloc: Global, table: &R, range: Range) -> Result<Vec<u8>, Memory>
    requires { IsSeenThrough range Rectangle (R.seen table.now).rows }
    ensures { IfOk result (λ text. text.items ≡ verified_text (bottom_of (R.seen table.now).resolved) range.s
        (last_degree Rectangle range) (generator_count (R.seen table.now).rows)) }
{
    let mut text = chart(alloc, table, range, Shape::Rectangle)?;
    let line = verified_line(alloc, range)?;
    text.extend_from_slice(line.as_slice())?;
    Ok(text)
}
