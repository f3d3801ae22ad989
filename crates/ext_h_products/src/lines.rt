//! The lines on the products of a class of row 1 with the classes of a module.
ghost use Rattle.std.specs.Prelude.{◌≡◌, ◌+◌, ◌-◌, ◌<◌, ◌≤◌, ◌++◌, pos, ◌+ℤ◌, length, List, IfOk, OnOk};
ghost use Rattle.bidegree.specs.declared.range.TheConstants.{MAX_S, MAX_T};
ghost use Rattle.resolution_laws.specs.Resolution.{row_of};
ghost use Rattle.square.specs.Squares.{bottom_of};
ghost use Rattle.resolution_images.specs.BareRows.{squares_of};
ghost use Rattle.lift_laws.specs.Products.{Class as ClassAbove};
ghost use Rattle.h_products.specs.ReadOff.{resolution_in, squares_on};
ghost use Rattle.ext_products.specs.Products.{OneEach, classes_of, classes_in_row, factors};
ghost use Rattle.ext_chart.specs.Seen.{IsSeenThrough};
ghost use Rattle.ext_h_products.specs.RowOne.{in_row_one, IsLineReadOff};

use bidegree::{Range, Shape};
use ext_chart::ProductLine;
use f2_vec::BitVec;
use h_products::products_with_h;
use memory::Memory;
use resolution_images::Images;
use std::alloc::Global;

/// The lines on the products, with a class of row 1 in degree `n`, of the classes of which these are the images, those products that
/// are in the squares of the range that are of this shape, by row, by degree and by number.
pub(crate) fn lines(
    alloc: Global,
    images: &Images,
    range: Range,
    shape: Shape,
    n: u16,
) -> Result<Vec<ProductLine>, Memory>
    requires rows { range.s ≤ MAX_S }
    requires degrees { range.t ≤ MAX_T }
    requires through { IsSeenThrough range shape (squares_of images.now.rows) }
    requires row { 1 ≤ range.s }
    requires positive { 1 ≤ n }
    ensures { IfOk result (λ lines. OneEach (IsLineReadOff (resolution_in images.now) n)
        (factors (resolution_in images.now) shape range (in_row_one n)) lines.items) }
{
    let mut lines = Vec::new(alloc);
    for s in 0..range.s {
        let last = shape.last_degree(range, s + 1);
        add_row(alloc, images, last, n, s, &mut lines)?;
    }
    Ok(lines)
}

/// Adds the lines of row `s`, whose products are in degrees at most `last` above the bottom.
fn add_row(
    alloc: Global,
    images: &Images,
    last: u16,
    n: u16,
    s: u16,
    lines: &mut Vec<ProductLine>,
) -> Result<(), Memory>
    requires row { s < MAX_S }
    requires degrees { last ≤ MAX_T }
    requires squares { last < length (row_of (squares_of images.now.rows) s) + n }
    requires targets { last < length (row_of (squares_of images.now.rows) (s + 1)) }
    ensures { OnOk result ((before : List ClassAbove) →
        OneEach (IsLineReadOff (resolution_in images.now) n) before lines.old.items →
        OneEach (IsLineReadOff (resolution_in images.now) n)
        (before ++ classes_in_row (resolution_in images.now) (last + 1 - n) s) lines.new.items) }
{
    for above in 0..(last + 1).saturating_sub(n) {
        let values = products_with_h(alloc, images, n, s, above)?;
        add_square(alloc, images, n, s, above, values.as_slice(), lines)?;
    }
    Ok(())
}

/// Adds the lines of the square in row `s`, `above` degrees above the bottom, whose classes have these products.
fn add_square(
    alloc: Global,
    images: &Images,
    n: u16,
    s: u16,
    above: u16,
    values: &[BitVec],
    lines: &mut Vec<ProductLine>,
) -> Result<(), Memory>
    requires values { values.now ≡ squares_on (resolution_in images.now) n s above }
    requires row { s < MAX_S }
    requires degree { n + above ≤ MAX_T }
    ensures { OnOk result ((before : List ClassAbove) →
        OneEach (IsLineReadOff (resolution_in images.now) n) before lines.old.items →
        OneEach (IsLineReadOff (resolution_in images.now) n)
        (before ++ classes_of (resolution_in images.now) s above) lines.new.items) }
{
    let t = degree(images, above);
    let target_t = degree(images, n + above);
    for (i, value) in values.iter().enumerate() {
        lines.push(ProductLine {
            s,
            t,
            i,
            target_s: s + 1,
            target_t,
            value: value.try_copy(alloc)?,
        })?;
    }
    Ok(())
}

/// The internal degree that is `k` above the bottom.
fn degree(images: &Images, k: u16) -> i32
    ensures { result ≡ bottom_of images.now.resolved +ℤ pos k }
{
    images.module().bottom() + i32::from(k)
}
