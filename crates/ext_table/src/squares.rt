//! Squares as lines, and behind each of them its classes.
ghost use Rattle.std.specs.Prelude.{◌≡◌, ℕ, pos, ◌+ℤ◌, ◌≤◌, ◌++◌, IfOk, OnOk};
ghost use Rattle.bidegree.specs.declared.range.TheConstants.{MAX_S, MAX_T};
ghost use Rattle.bidegree.specs.LastDegrees.{last_degree};
ghost use Rattle.finite_module.specs.Checked.{Checked};
ghost use Rattle.square.specs.Squares.{bottom_of};
ghost use Rattle.ext_table.specs.Table.{square_line, square_text, stem_text, table_text};
ghost use Rattle.ext_table.specs.Inside.{HasAll};

use crate::listed::{Listed, add_classes};
use bidegree::{Range, Shape};
use chart_lines::stems_line;
use finite_module::Module;
use memory::Memory;
use std::alloc::Global;

/// Squares of a resolution, whoever holds them.
pub(crate) trait Counted {
    /// The module that is resolved.
    ghost resolved: { Self → Checked };

    /// How many classes a square has.
    ghost counts: { Self → ℕ → ℕ → ℕ };

    /// The square is there.
    ghost has: { Self → ℕ → ℕ → Type 0 };

    /// The module that is resolved.
    fn module(&self) -> &Module
        ensures { result.now ≡ resolved self.now };

    /// How many classes the square in row `s` has that is `k` degrees above the bottom.
    fn count(&self, s: u16, k: u16) -> usize
        requires { has self.now s k }
        ensures { result ≡ counts self.now s k };
}

/// The line of a square.
fn square_line(alloc: Global, s: u16, t: i32, stem: i32, count: usize) -> Result<Vec<u8>, Memory>
    ensures { IfOk result (λ line. line.items ≡ square_line s t stem count) }
{
    let line = format!(in alloc; "square ({s},{t}) stem {stem} classes {count}\n")?;
    Ok(line.into_bytes())
}

/// The internal degree, or the stem, that is `k` above the bottom.
fn degree<Q: Counted>(squares: &Q, k: u16) -> i32
    ensures { result ≡ bottom_of (Q.resolved squares.now) +ℤ pos k }
{
    squares.module().bottom() + i32::from(k)
}

/// Adds the square of row `i` in stem `n` above the bottom, if it is in the range and has classes.
fn add_square<Q: Counted>(
    alloc: Global,
    squares: &Q,
    range: Range,
    shape: Shape,
    lists: &[Listed],
    n: u16,
    i: u16,
    text: &mut Vec<u8>,
) -> Result<(), Memory>
    requires rows { range.s ≤ MAX_S }
    requires row { i ≤ range.s }
    requires stem { n ≤ MAX_T }
    requires there { HasAll (Q.has squares.now) range shape }
    ensures { OnOk result (text.new.items ≡ text.old.items ++ square_text (bottom_of (Q.resolved squares.now))
        (last_degree shape range) (Q.counts squares.now) lists.now n i) }
{
    let k = n + i;
    if k > shape.last_degree(range, i) {
        return Ok(());
    }
    let count = squares.count(i, k);
    if count == 0 {
        return Ok(());
    }
    let t = degree(squares, k);
    let line = square_line(alloc, i, t, degree(squares, n), count)?;
    text.extend_from_slice(line.as_slice())?;
    add_classes(alloc, lists, i, t, count, text)
}

/// Adds the squares in stem `n` above the bottom, by row.
fn add_stem<Q: Counted>(
    alloc: Global,
    squares: &Q,
    range: Range,
    shape: Shape,
    lists: &[Listed],
    n: u16,
    text: &mut Vec<u8>,
) -> Result<(), Memory>
    requires rows { range.s ≤ MAX_S }
    requires stem { n ≤ MAX_T }
    requires there { HasAll (Q.has squares.now) range shape }
    ensures { OnOk result (text.new.items ≡ text.old.items ++ stem_text (bottom_of (Q.resolved squares.now)) range.s
        (last_degree shape range) (Q.counts squares.now) lists.now n) }
{
    for i in 0..range.s + 1 {
        add_square(alloc, squares, range, shape, lists, n, i, text)?;
    }
    Ok(())
}

/// The squares of the range that are of this shape and have classes, by stem and then by row: a line for each, and behind it for each of its
/// classes, by number, a line with each of these classes of the sphere, in their order. The last line is that of the stems.
///
/// # Errors
/// `Memory` if allocation fails.
pub(crate) fn table_of<Q: Counted>(
    alloc: Global,
    squares: &Q,
    range: Range,
    shape: Shape,
    lists: &[Listed],
) -> Result<Vec<u8>, Memory>
    requires rows { range.s ≤ MAX_S }
    requires degrees { range.t ≤ MAX_T }
    requires there { HasAll (Q.has squares.now) range shape }
    ensures { IfOk result (λ text. text.items ≡ table_text (bottom_of (Q.resolved squares.now)) range.s
        (last_degree shape range) (Q.counts squares.now) lists.now) }
{
    let last = shape.last_degree(range, 0);
    let mut text = Vec::new(alloc);
    for n in 0..last + 1 {
        add_stem(alloc, squares, range, shape, lists, n, &mut text)?;
    }
    let stems = stems_line(alloc, squares.module().bottom(), last)?;
    text.extend_from_slice(stems.as_slice())?;
    Ok(text)
}
