//! The chart of a resolution as text.
ghost use Rattle.std.specs.Prelude.{◌≡◌, ℕ, ◌+◌, ◌-◌, ◌<◌, ◌≤◌, IfOk, length, map};
ghost use Rattle.std.specs.List.{range_with_len};
ghost use Rattle.bidegree.specs.LastDegrees.{last_degree};
ghost use Rattle.resolution_laws.specs.Resolution.{row_of, generator_count};
ghost use Rattle.chart_lines.specs.Chart.{count_marks, row_line, row_lines, chart_text};
ghost use Rattle.square.specs.Squares.{bottom_of};
ghost use Rattle.ext_chart.specs.Seen.{IsSeenThrough};

use crate::shown::Shown;
use bidegree::{Range, Shape};
use chart_lines::{mark, row_label, stems_line};
use memory::Memory;
use std::alloc::Global;

/// The marks of a row, from stem 0 on, through `t` degrees above the bottom.
fn marks<R: Shown>(alloc: Global, table: &R, s: u16, t: u16) -> Result<Vec<u8>, Memory>
    requires { t < length (row_of (R.seen table.now).rows s) }
    ensures { IfOk result (λ marks. marks.items
        ≡ map (count_marks (generator_count (R.seen table.now).rows) s) (range_with_len s (t + 1 - s))) }
{
    let mut marks = Vec::new(alloc);
    for k in s..=t {
        marks.push(mark(table.images(s, k).len()))?;
    }
    Ok(marks)
}

/// The line of a row.
fn row_line<R: Shown>(alloc: Global, table: &R, s: u16, t: u16) -> Result<Vec<u8>, Memory>
    requires { t < length (row_of (R.seen table.now).rows s) }
    ensures { IfOk result
        (λ line. line.items ≡ row_line (count_marks (generator_count (R.seen table.now).rows)) t s) }
{
    let mut line = row_label(alloc, s)?;
    let marks = marks(alloc, table, s, t)?;
    line.extend_from_slice(b" |")?;
    line.extend_from_slice(marks.as_slice())?;
    line.push(b'\n')?;
    Ok(line)
}

/// The lines of the rows of the range, the greatest first.
fn row_lines<R: Shown>(
    alloc: Global,
    table: &R,
    range: Range,
    shape: Shape,
) -> Result<Vec<u8>, Memory>
    requires { IsSeenThrough range shape (R.seen table.now).rows }
    ensures { IfOk result (λ text. text.items ≡ row_lines (count_marks (generator_count (R.seen table.now).rows))
        (last_degree shape range) (range.s + 1)) }
{
    let mut text = Vec::new(alloc);
    for i in 0..=range.s {
        let s = range.s - i;
        let line = row_line(alloc, table, s, shape.last_degree(range, s))?;
        text.extend_from_slice(line.as_slice())?;
    }
    Ok(text)
}

/// The chart of the rows of the table through the range, in this shape: a line for each row, the greatest first, in it a
/// mark for each stem, and last the line of the stems.
///
/// # Errors
/// `Memory` if allocation fails.
pub fn chart<R: Shown>(
    alloc: Global,
    table: &R,
    range: Range,
    shape: Shape,
) -> Result<Vec<u8>, Memory>
    requires { IsSeenThrough range shape (R.seen table.now).rows }
    ensures { IfOk result (λ text. text.items ≡ chart_text (bottom_of (R.seen table.now).resolved) range.s
        (last_degree shape range) (generator_count (R.seen table.now).rows)) }
{
    let mut text = row_lines(alloc, table, range, shape)?;
    let stems = stems_line(alloc, table.module().bottom(), shape.last_degree(range, 0))?;
    text.extend_from_slice(stems.as_slice())?;
    Ok(text)
}
