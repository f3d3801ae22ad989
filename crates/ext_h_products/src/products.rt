//! The lines of the products with classes of row 1.
ghost use Rattle.std.specs.Prelude.{◌≤◌, IfOk, Ok};
ghost use Rattle.std.specs.List.{All};
ghost use Rattle.bidegree.specs.declared.range.TheConstants.{MAX_S, MAX_T};
ghost use Rattle.ext_products.specs.Products.{AreProductLines, IsAnswerOfOne, IsProductsAnswer};
ghost use Rattle.resolution_images.specs.BareRows.{squares_of};
ghost use Rattle.ext_chart.specs.Seen.{IsSeenThrough};
ghost use Rattle.ext_h_products.specs.RowOne.{IsH, IsAnswerOverImages};

use crate::lines::lines;
use bidegree::{Class, Range, Shape};
use ext_chart::{ProductLine, product_lines};
use ext_products::add_headed;
use memory::Memory;
use resolution_images::Images;
use std::alloc::Global;

/// For each of these classes of row 1, which are there, a line for each class of the images' module whose product with it is in the squares
/// of the range that are of this shape, as `products_text` of `ext_products` has them of a table. The images may be those of the squares of
/// the shape alone. No class is lifted, and the sphere is not resolved.
///
/// # Errors
/// `Memory` if allocation fails.
pub fn h_products_text(
    alloc: Global,
    images: &Images,
    range: Range,
    shape: Shape,
    by: &[Class],
) -> Result<Vec<u8>, Memory>
    requires rows { range.s ≤ MAX_S }
    requires degrees { range.t ≤ MAX_T }
    requires through { IsSeenThrough range shape (squares_of images.now.rows) }
    requires there { All (IsH range) by.now }
    ensures { IfOk result
        (λ text. IsAnswerOverImages (IsProductsAnswer shape range by.now) images.now range (Ok text.items)) }
{
    let named = by.len() > 1;
    let mut text = Vec::new(alloc);
    for class in by {
        let lines = text_of_one(alloc, images, range, shape, *class)?;
        add_headed(alloc, named, *class, lines.as_slice(), &mut text)?;
    }
    Ok(text)
}

/// The lines of the products with one class, as text.
fn text_of_one(
    alloc: Global,
    images: &Images,
    range: Range,
    shape: Shape,
    by: Class,
) -> Result<Vec<u8>, Memory>
    requires rows { range.s ≤ MAX_S }
    requires degrees { range.t ≤ MAX_T }
    requires through { IsSeenThrough range shape (squares_of images.now.rows) }
    requires there { IsH range by }
    ensures { IfOk result
        (λ text. IsAnswerOverImages (IsAnswerOfOne shape range by) images.now range (Ok text.items)) }
{
    h_laws::row_one_has_squares();
    let lines = h_products_with(alloc, images, range, shape, by)?;
    product_lines(alloc, lines.as_slice())
}

/// The products of one of these classes of row 1 with the classes of the images' module, those that are in the squares of the range that are
/// of this shape. They stand by row, then by degree, then by number.
///
/// # Errors
/// `Memory` if allocation fails.
pub fn h_products_with(
    alloc: Global,
    images: &Images,
    range: Range,
    shape: Shape,
    by: Class,
) -> Result<Vec<ProductLine>, Memory>
    requires rows { range.s ≤ MAX_S }
    requires degrees { range.t ≤ MAX_T }
    requires through { IsSeenThrough range shape (squares_of images.now.rows) }
    requires there { IsH range by }
    ensures { IfOk result
        (λ lines. IsAnswerOverImages (AreProductLines shape range by) images.now range lines.items) }
{
    lift_laws::each_class_lifts();
    h_laws::row_one_has_squares();
    h_laws::classes_with_h_are_read_off_images();
    stem_laws::rows_in_stems_are_whole();
    stem_laws::squares_in_stems_are_those_of_table();
    lines(alloc, images, range, shape, by.t as u16)
}
