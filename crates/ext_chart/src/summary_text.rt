//! The summary of a resolution as text.
ghost use Rattle.std.specs.Prelude.{◌≡◌, ◌+◌, ◌<◌, length, IfOk};
ghost use Rattle.std.specs.List.{sum};
ghost use Rattle.bidegree.specs.LastDegrees.{last_degree};
ghost use Rattle.resolution_laws.specs.Resolution.{row_of, generator_count};
ghost use Rattle.ext_chart.specs.Summary.{row_total, row_totals, module_line, square_count, squares_line, gens_line, total_line, total_lines, summary_text};
ghost use Rattle.square.specs.Squares.{bottom_of};
ghost use Rattle.ext_chart.specs.Seen.{IsSeenThrough};

use crate::shown::Shown;
use bidegree::{Range, Shape};
use itoa::Buffer;
use memory::Memory;
use std::alloc::Global;

/// How many generators row `s` has through `t` degrees above the bottom.
fn row_total<R: Shown>(table: &R, s: u16, t: u16) -> Result<usize, Memory>
    requires { t < length (row_of (R.seen table.now).rows s) }
    ensures { IfOk result (λ total. total ≡ row_total (generator_count (R.seen table.now).rows) t s) }
{
    let mut total: usize = 0;
    for k in 0..=t {
        let count = table.images(s, k).len();
        let Some(more) = total.checked_add(count) else {
            // No memory holds that many generators.
            return Err(Memory);
        };
        total = more;
    }
    Ok(total)
}

/// How many generators each row of the range has, from row 0 up.
fn row_totals<R: Shown>(
    alloc: Global,
    table: &R,
    range: Range,
    shape: Shape,
) -> Result<Vec<usize>, Memory>
    requires { IsSeenThrough range shape (R.seen table.now).rows }
    ensures { IfOk result (λ totals. totals.items
        ≡ row_totals (generator_count (R.seen table.now).rows) range.s (last_degree shape range)) }
{
    let mut totals = Vec::new(alloc);
    for s in 0..=range.s {
        totals.push(row_total(table, s, shape.last_degree(range, s))?)?;
    }
    Ok(totals)
}

/// The sum of the totals of the rows.
fn sum(totals: &[usize]) -> Result<usize, Memory>
    ensures { IfOk result (λ total. total ≡ sum totals.now) }
{
    let mut total: usize = 0;
    for row in totals {
        let Some(more) = total.checked_add(*row) else {
            // No memory holds that many generators.
            return Err(Memory);
        };
        total = more;
    }
    Ok(total)
}

/// The line on the module.
fn module_line(alloc: Global, gens: usize, bottom: i32) -> Result<Vec<u8>, Memory>
    ensures { IfOk result (λ line. line.items ≡ module_line gens bottom) }
{
    let mut buffer = Buffer::new();
    let mut line = Vec::from_slice(alloc, b"module gens ")?;
    line.extend_from_slice(buffer.format(gens).as_bytes())?;
    line.extend_from_slice(b" bottom ")?;
    line.extend_from_slice(buffer.format(bottom).as_bytes())?;
    line.push(b'\n')?;
    Ok(line)
}

/// How many squares the range has in this shape.
pub(crate) fn square_count(range: Range, shape: Shape) -> u64
    ensures { result ≡ square_count range.s (last_degree shape range) }
{
    let mut count: u64 = 0;
    for s in 0..=range.s {
        count += u64::from(shape.last_degree(range, s)) + 1;
    }
    count
}

/// The line on the squares of the range.
fn squares_line(alloc: Global, range: Range, shape: Shape) -> Result<Vec<u8>, Memory>
    ensures { IfOk result (λ line. line.items ≡ squares_line range.s (last_degree shape range)) }
{
    let mut buffer = Buffer::new();
    let mut line = Vec::from_slice(alloc, b"squares ")?;
    line.extend_from_slice(buffer.format(square_count(range, shape)).as_bytes())?;
    line.push(b'\n')?;
    Ok(line)
}

/// The line on all generators.
fn gens_line(alloc: Global, total: usize) -> Result<Vec<u8>, Memory>
    ensures { IfOk result (λ line. line.items ≡ gens_line total) }
{
    let mut buffer = Buffer::new();
    let mut line = Vec::from_slice(alloc, b"gens ")?;
    line.extend_from_slice(buffer.format(total).as_bytes())?;
    line.push(b'\n')?;
    Ok(line)
}

/// The line on a row.
fn total_line(alloc: Global, s: usize, total: usize) -> Result<Vec<u8>, Memory>
    ensures { IfOk result (λ line. line.items ≡ total_line s total) }
{
    let mut buffer = Buffer::new();
    let mut line = Vec::from_slice(alloc, b"row ")?;
    line.extend_from_slice(buffer.format(s).as_bytes())?;
    line.extend_from_slice(b": ")?;
    line.extend_from_slice(buffer.format(total).as_bytes())?;
    line.push(b'\n')?;
    Ok(line)
}

/// The lines on the rows, from row 0 on.
fn total_lines(alloc: Global, totals: &[usize]) -> Result<Vec<u8>, Memory>
    ensures { IfOk result (λ text. text.items ≡ total_lines 0 totals.now) }
{
    let mut text = Vec::new(alloc);
    for s in 0..totals.len() {
        let line = total_line(alloc, s, totals[s])?;
        text.extend_from_slice(line.as_slice())?;
    }
    Ok(text)
}

/// The summary of the rows of the table through the range, in this shape: a line each on the module, on the squares of the range, on their
/// generators, and on the generators of each row, from row 0 on.
///
/// # Errors
/// `Memory` if allocation fails.
pub fn summary<R: Shown>(
    alloc: Global,
    table: &R,
    range: Range,
    shape: Shape,
) -> Result<Vec<u8>, Memory>
    requires { IsSeenThrough range shape (R.seen table.now).rows }
    ensures { IfOk result (λ text. text.items ≡ summary_text (length (R.seen table.now).resolved.plain.generators)
        (bottom_of (R.seen table.now).resolved) range.s (last_degree shape range)
        (generator_count (R.seen table.now).rows)) }
{
    let totals = row_totals(alloc, table, range, shape)?;
    let module = table.module();
    let mut text = module_line(alloc, module.count(), module.bottom())?;
    let squares = squares_line(alloc, range, shape)?;
    let gens = gens_line(alloc, sum(totals.as_slice())?)?;
    let rows = total_lines(alloc, totals.as_slice())?;
    text.extend_from_slice(squares.as_slice())?;
    text.extend_from_slice(gens.as_slice())?;
    text.extend_from_slice(rows.as_slice())?;
    Ok(text)
}
