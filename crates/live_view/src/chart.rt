//! The chart of a view as text.
ghost use Rattle.std.specs.Prelude.{◌≡◌, ◌+◌, ◌-◌, ◌≤◌, pos, ◌+ℤ◌, ◌≤ℤ◌, IfOk, map};
ghost use Rattle.std.specs.List.{range_with_len};
ghost use Rattle.bidegree.specs.declared.range.TheConstants.{MAX_S, MAX_T};
ghost use Rattle.bidegree.specs.declared.shape.Shape.TheVariants.{Rectangle};
ghost use Rattle.bidegree.specs.LastDegrees.{last_degree};
ghost use Rattle.chart_lines.specs.Chart.{row_line, row_lines};
ghost use Rattle.live_view.specs.Chart.{mark_of, marks_of, live_chart};

use crate::view::View;
use bidegree::Range;
use chart_lines::{mark, row_label, stems_line};
use memory::Memory;
use std::alloc::Global;

/// The mark of a square with this number of generators, and a space for a square that is missing.
fn mark_or_space(count: Option<usize>) -> u8
    ensures { result ≡ mark_of count }
{
    match count {
        None => b' ',
        Some(count) => mark(count),
    }
}

/// The marks of a row, from stem 0 on, through `t` degrees above the bottom.
fn marks(alloc: Global, view: &View, s: u16, t: u16) -> Result<Vec<u8>, Memory>
    requires { s ≤ MAX_S }
    ensures { IfOk result (λ marks. marks.items ≡ map (marks_of view.now s) (range_with_len s (t + 1 - s))) }
{
    let mut marks = Vec::new(alloc);
    for k in s..=t {
        marks.push(mark_or_space(view.count(s, k)))?;
    }
    Ok(marks)
}

/// The line of a row.
fn row_line(alloc: Global, view: &View, s: u16, t: u16) -> Result<Vec<u8>, Memory>
    requires { s ≤ MAX_S }
    ensures { IfOk result (λ line. line.items ≡ row_line (marks_of view.now) t s) }
{
    let mut line = row_label(alloc, s)?;
    let marks = marks(alloc, view, s, t)?;
    line.extend_from_slice(b" |")?;
    line.extend_from_slice(marks.as_slice())?;
    line.push(b'\n')?;
    Ok(line)
}

/// The lines of the rows of the range, the greatest first.
fn row_lines(alloc: Global, view: &View, range: Range) -> Result<Vec<u8>, Memory>
    requires { range.s ≤ MAX_S }
    ensures { IfOk result (λ text. text.items ≡ row_lines (marks_of view.now)
        (last_degree Rectangle range) (range.s + 1)) }
{
    let mut text = Vec::new(alloc);
    for i in 0..=range.s {
        let line = row_line(alloc, view, range.s - i, range.t)?;
        text.extend_from_slice(line.as_slice())?;
    }
    Ok(text)
}

/// The chart of the view.
pub(crate) fn chart(
    alloc: Global,
    view: &View,
    range: Range,
    bottom: i32,
) -> Result<Vec<u8>, Memory>
    requires rows { range.s ≤ MAX_S }
    requires degrees { (bottom +ℤ pos range.t) ≤ℤ pos 2147483647 }
    ensures { IfOk result (λ text. text.items ≡ live_chart bottom range view.now) }
{
    let mut text = row_lines(alloc, view, range)?;
    let stems = stems_line(alloc, bottom, range.t)?;
    text.extend_from_slice(stems.as_slice())?;
    Ok(text)
}
