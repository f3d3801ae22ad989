//! A sheet on squares, whatever holds them.
ghost use Rattle.std.specs.Prelude.{◌≡◌, IfOk};
ghost use Rattle.ext_chart.specs.Seen.{IsSeenThrough};
ghost use Rattle.ext_run.specs.Forms.{sheet_of};

use crate::plan::Sheet;
use bidegree::{Range, Shape};
use ext_chart::{Shown, chart, dump, summary};
use memory::Memory;
use std::alloc::Global;

/// The sheet on the squares of the range that are of this shape.
///
/// # Errors
/// `Memory` if allocation fails.
pub(crate) fn sheet_text<R: Shown>(
    alloc: Global,
    sheet: Sheet,
    squares: &R,
    range: Range,
    shape: Shape,
) -> Result<Vec<u8>, Memory>
    requires { IsSeenThrough range shape (R.seen squares.now).rows }
    ensures { IfOk result (λ text. text.items
        ≡ sheet_of sheet shape range (R.seen squares.now).resolved.plain (R.seen squares.now).rows) }
{
    match sheet {
        Sheet::Chart => chart(alloc, squares, range, shape),
        Sheet::Differentials => dump(alloc, squares, range, shape),
        Sheet::Summary => summary(alloc, squares, range, shape),
    }
}
