//! The lines on the products of a class with the classes of a module.
ghost use Rattle.std.specs.Prelude.{◌≡◌, ◌+◌, ◌-◌, ◌≤◌, ◌++◌, length, List, IfOk, OnOk};
ghost use Rattle.bidegree.specs.declared.range.TheConstants.{MAX_S, MAX_T};
ghost use Rattle.square.specs.Tables.{IsThrough};
ghost use Rattle.lift_laws.specs.Lifts.{IsSphere};
ghost use Rattle.lift_laws.specs.Products.{Class as ClassAbove, count_of};
ghost use Rattle.chain_map.specs.Lifting.{resolution_of};
ghost use Rattle.yoneda.specs.Products.{IsThere, class_above, AreProducts};
ghost use Rattle.ext_products.specs.Products.{OneEach, classes_of, classes_in_row, factors};
ghost use Rattle.ext_products.specs.Inside.{IsLineOver};

use bidegree::{Place, Range, Shape};
use chain_map::Source;
use ext_chart::ProductLine;
use f2_vec::BitVec;
use memory::Memory;
use square::Table;
use std::alloc::Global;
use yoneda::products;

/// The lines on the products of `a` with the classes of the table, those products that are in the squares of the range that are of this
/// shape, by row, by degree and by number.
pub(crate) fn lines(
    alloc: Global,
    table: &Source<'_>,
    sphere: &Table,
    range: Range,
    shape: Shape,
    a: Place,
) -> Result<Vec<ProductLine>, Memory>
    requires table { IsThrough range table.now.rows }
    requires sphere { IsSphere (resolution_of sphere.now) }
    requires class { IsThere sphere.now a }
    requires rows { range.s ≤ MAX_S }
    requires degrees { range.t ≤ MAX_T }
    requires row { a.s ≤ range.s }
    requires degree { a.above ≤ range.t }
    ensures { IfOk result (λ lines. OneEach (IsLineOver table.now sphere.now a)
        (factors (resolution_of table.now) shape range (class_above a)) lines.items) }
{
    let mut lines = Vec::new(alloc);
    for s in 0..range.s - a.s + 1 {
        let last = shape.last_degree(range, s + a.s);
        add_row(alloc, table, sphere, range, last, a, s, &mut lines)?;
    }
    Ok(lines)
}

/// Adds the lines of row `s`, whose products are in degrees at most `last` above the bottom.
fn add_row(
    alloc: Global,
    table: &Source<'_>,
    sphere: &Table,
    range: Range,
    last: u16,
    a: Place,
    s: u16,
    lines: &mut Vec<ProductLine>,
) -> Result<(), Memory>
    requires table { IsThrough range table.now.rows }
    requires sphere { IsSphere (resolution_of sphere.now) }
    requires class { IsThere sphere.now a }
    requires rows { range.s ≤ MAX_S }
    requires degrees { range.t ≤ MAX_T }
    requires row { a.s + s ≤ range.s }
    requires last { last ≤ range.t }
    ensures { OnOk result ((before : List ClassAbove) →
        OneEach (IsLineOver table.now sphere.now a) before lines.old.items →
        OneEach (IsLineOver table.now sphere.now a)
        (before ++ classes_in_row (resolution_of table.now) (last + 1 - a.above) s) lines.new.items) }
{
    for above in 0..(last + 1).saturating_sub(a.above) {
        let values = products(alloc, table, sphere, range, a, s, above)?;
        add_square(alloc, table, sphere, a, s, above, values.as_slice(), lines)?;
    }
    Ok(())
}

/// Adds the lines of the square in row `s`, `above` degrees above the bottom, whose classes have these products with `a`.
fn add_square(
    alloc: Global,
    table: &Source<'_>,
    sphere: &Table,
    a: Place,
    s: u16,
    above: u16,
    values: &[BitVec],
    lines: &mut Vec<ProductLine>,
) -> Result<(), Memory>
    requires one_each { length values.now ≡ count_of (resolution_of table.now) s above }
    requires products { AreProducts table.now sphere.now a s above values.now }
    requires row { s + a.s ≤ MAX_S }
    requires degree { a.above + above ≤ MAX_T }
    ensures { OnOk result ((before : List ClassAbove) →
        OneEach (IsLineOver table.now sphere.now a) before lines.old.items →
        OneEach (IsLineOver table.now sphere.now a) (before ++ classes_of (resolution_of table.now) s above)
        lines.new.items) }
{
    let t = table.degree(above);
    let target_t = table.degree(a.above + above);
    for (i, value) in values.iter().enumerate() {
        lines.push(ProductLine {
            s,
            t,
            i,
            target_s: s + a.s,
            target_t,
            value: value.try_copy(alloc)?,
        })?;
    }
    Ok(())
}
