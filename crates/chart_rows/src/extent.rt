//! The rows of a range out of a chart.
ghost use Rattle.std.specs.Prelude.{◌≡◌, ℕ, ◌+◌, ◌<◌, ◌≤◌, length, IfOk};
ghost use Rattle.bidegree.specs.declared.range.TheConstants.{MAX_S, MAX_T};
ghost use Rattle.square.specs.Squares.{over, bottom_of};
ghost use Rattle.resolution_images.specs.BareRows.{bare_row_in, squares_of, AreOfCanonical, AreOfStems, IsBareRowOf};
ghost use Rattle.resolution_images.specs.Made.{IsMadeThrough};
ghost use Rattle.chart_rows.specs.Standing.{AreCharted, whole_row as whole_squares};
ghost use Rattle.chart_rows.specs.Canonical.{AreRowsOfResolution};
ghost use Rattle.chart_rows.specs.Within.{HaveDegrees, HaveStems, known_in, reach_in};

use crate::chart::Chart;
use crate::place::{new_in, push_padded};
use finite_module::{Module, modules_are_graded_modules};
use memory::Memory;
use milnor_laws::linear_maps;
use resolution_existence::canonical_table_exists;
use resolution_images::{Extent, Row, degree};
use std::alloc::Global;
use stem_laws::{new_generators_are_not_met, rows_in_stems_are_whole};

/// The rows of an extent through degree `t` above the bottom, as far as the chart has them, for a run to go on from. An image has a zero
/// for each generator of its own degree in the row below, as it has in that range. So the square of this degree has to be there, but
/// for the last square of a row in these stems.
///
/// # Errors
/// `Memory` if allocation fails.
pub fn rows_within(
    alloc: Global,
    chart: &Chart<'_>,
    extent: Extent,
    t: u16,
) -> Result<Vec<Row>, Memory>
    requires row { extent.last ≤ MAX_S }
    requires degrees { extent.n + extent.last ≤ MAX_T }
    ensures count { IfOk result (λ rows. length rows.items ≡ extent.last + 1) }
    ensures rows { IfOk result (λ rows. (i : ℕ) → i ≤ extent.last → IsBareRowOf (bottom_of chart.now.resolved)
        (whole_squares (squares_of chart.now.rows) i (extent.n + i) (reach_in chart.now.rows extent.n t i))
        (bare_row_in rows.items i)) }
    ensures made { IfOk result (λ rows. AreRowsOfResolution (over chart.now.resolved) chart.now.rows →
        (i : ℕ) → i ≤ extent.last → IsMadeThrough (over chart.now.resolved) extent i
        (reach_in chart.now.rows extent.n t i) (bare_row_in rows.items i)) }
    ensures stems { IfOk result (λ rows. AreRowsOfResolution (over chart.now.resolved) chart.now.rows →
        HaveStems chart.now.rows extent t → AreOfStems (over chart.now.resolved) extent.last extent.n rows.items) }
    ensures canonical { IfOk result (λ rows. AreRowsOfResolution (over chart.now.resolved) chart.now.rows →
        HaveDegrees chart.now.rows extent t → extent.n ≡ t →
        AreOfCanonical (over chart.now.resolved) extent.last t rows.items) }
{
    canonical_table_exists();
    modules_are_graded_modules();
    linear_maps();
    new_generators_are_not_met();
    rows_in_stems_are_whole();
    let from = chart.rows();
    let n = usize::from(extent.n);
    let mut rows = Vec::new(alloc);
    for i in 0..usize::from(extent.last) + 1 {
        let k = reach(from, n, usize::from(t), i);
        rows.push(whole_row(alloc, chart.module(), from, i, n + i, k)?)?;
    }
    Ok(rows)
}

/// How many squares of row `i` are to be had in stems 0 to `n` and through degree `t`.
fn reach(rows: &[Row], n: usize, t: usize, i: usize) -> usize
    requires row { i < length rows.now }
    requires stems { n + i ≤ MAX_T }
    requires degrees { t < 65536 }
    ensures { result ≡ reach_in rows.now n t i }
{
    let here = rows[i].counts().len().min(t + 1);
    here.min(known(rows, n, i))
}

/// How many squares of row `i` in stems 0 to `n` may be given their zeros.
fn known(rows: &[Row], n: usize, i: usize) -> usize
    requires row { i < length rows.now }
    requires stems { n + i ≤ MAX_T }
    ensures { result ≡ known_in rows.now n i }
{
    if i == 0 {
        return n + 1;
    }
    let below = rows[i - 1].counts().len();
    if n + i <= below { n + i + 1 } else { below }
}

/// The first `k` squares of row `s`. Their images have a zero for each generator of their own degree among those of the first `n` squares
/// of the row below.
///
/// # Errors
/// `Memory` if allocation fails.
fn whole_row(
    alloc: Global,
    module: &Module,
    rows: &[Row],
    s: usize,
    n: usize,
    k: usize,
) -> Result<Row, Memory>
    requires rows { AreCharted (over module.now) rows.now }
    requires row { s ≤ MAX_S }
    requires there { k ≤ length (bare_row_in rows.now s).counts }
    ensures { IfOk result (λ row. IsBareRowOf (bottom_of module.now) (whole_squares (squares_of rows.now) s n k) row) }
{
    let mut row = Row::new(alloc);
    for j in 0..k {
        let mut images = Vec::new(alloc);
        push_padded(alloc, &mut images, rows[s].square(j), new_in(rows, s, n, j))?;
        row.push(degree(module, j as u16), images)?;
    }
    Ok(row)
}
