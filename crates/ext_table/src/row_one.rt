//! The table with classes of row 1, of which products are read off images.
ghost use Rattle.std.specs.Prelude.{◌≤◌, IfOk, Ok};
ghost use Rattle.std.specs.List.{All};
ghost use Rattle.bidegree.specs.declared.range.TheConstants.{MAX_S, MAX_T};
ghost use Rattle.resolution_images.specs.BareRows.{squares_of};
ghost use Rattle.ext_chart.specs.Seen.{IsSeenThrough};
ghost use Rattle.ext_products.specs.Products.{OneEach};
ghost use Rattle.ext_h_products.specs.RowOne.{IsH, IsAnswerOverImages};
ghost use Rattle.ext_table.specs.Answers.{IsListing, IsTableAnswer};

use crate::listed::{Listed, add_listed};
use crate::squares::{Counted, table_of};
use bidegree::{Class, Range, Shape};
use ext_h_products::h_products_with;
use finite_module::Module;
use memory::Memory;
use resolution_images::Images;
use std::alloc::Global;

impl Counted for Images {
    ghost use Rattle.std.specs.Prelude.{◌<◌, length};
    ghost use Rattle.resolution_laws.specs.Resolution.{row_of, generator_count};
    ghost use Rattle.resolution_images.specs.BareRows.{squares_of};

    ghost resolved = { λ i. i.resolved };

    ghost counts = { λ i. generator_count (squares_of i.rows) };

    ghost has = { λ i s k. k < length (row_of (squares_of i.rows) s) };

    fn module(&self) -> &Module {
        Images::module(self)
    }

    fn count(&self, s: u16, k: u16) -> usize {
        self.square(s, k).len()
    }
}

/// The table of the squares of the range that are of this shape, with these classes of row 1, which are there. The images may be those of the
/// squares of the shape alone. No class is lifted, and the sphere is not resolved.
///
/// # Errors
/// `Memory` if allocation fails.
pub fn h_table(
    alloc: Global,
    images: &Images,
    range: Range,
    shape: Shape,
    by: &[Class],
) -> Result<Vec<u8>, Memory>
    requires rows { range.s ≤ MAX_S }
    requires degrees { range.t ≤ MAX_T }
    requires through { IsSeenThrough range shape (squares_of images.now.rows) }
    requires there { All (IsH range) by.now }
    ensures { IfOk result
        (λ text. IsAnswerOverImages (IsTableAnswer shape range by.now) images.now range (Ok text.items)) }
{
    h_laws::row_one_has_squares();
    stem_laws::rows_in_stems_are_whole();
    stem_laws::squares_in_stems_are_those_of_table();
    let lists = lists_of(alloc, images, range, shape, by)?;
    table_of(alloc, images, range, shape, lists.as_slice())
}

/// The products with each of the classes.
fn lists_of(
    alloc: Global,
    images: &Images,
    range: Range,
    shape: Shape,
    by: &[Class],
) -> Result<Vec<Listed>, Memory>
    requires rows { range.s ≤ MAX_S }
    requires degrees { range.t ≤ MAX_T }
    requires through { IsSeenThrough range shape (squares_of images.now.rows) }
    requires there { All (IsH range) by.now }
    ensures { IfOk result (λ lists. OneEach
        (λ class listing. IsAnswerOverImages (IsListing shape range class) images.now range listing) by.now lists.items) }
{
    let mut lists = Vec::new(alloc);
    for class in by {
        let lines = h_products_with(alloc, images, range, shape, *class)?;
        add_listed(&mut lists, *class, lines)?;
    }
    Ok(lists)
}
