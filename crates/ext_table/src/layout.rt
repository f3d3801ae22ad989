//! Products as text, in one of two layouts.
ghost use Rattle.std.specs.Prelude.{◌≡◌, ◌≢◌, ◌≤◌, IfOk, IfErr, Ok, Err};
ghost use Rattle.std.specs.List.{All};
ghost use Rattle.bidegree.specs.declared.range.TheConstants.{MAX_S, MAX_T};
ghost use Rattle.resolution_images.specs.BareRows.{squares_of};
ghost use Rattle.square.specs.Tables.{IsThrough};
ghost use Rattle.ext_chart.specs.Seen.{IsSeenThrough};
ghost use Rattle.ext_products.specs.Products.{IsAnswerOver, IsAnswerIn};
ghost use Rattle.ext_products.specs.declared.refusal.ClassesFault.TheVariants.{Refused, Memory as OutOfMemory};
ghost use Rattle.ext_products.specs.declared.refusal.Refusal.{Refusal as WhyNot};
ghost use Rattle.ext_h_products.specs.RowOne.{IsH, IsAnswerOverImages};
ghost use Rattle.ext_table.specs.Layouts.{told_in};

use crate::lifted::table_by_lifts;
use crate::row_one::h_table;
use bidegree::{Class, Range, Shape};
use chain_map::Source;
use ext_h_products::h_products_text;
use ext_products::{ClassesFault, products_text};
use memory::Memory;
use resolution_images::Images;
use std::alloc::Global;

/// How products of classes of the sphere with those of a module are laid out.
#[derive(Clone, Copy, Debug)]
pub enum Layout {
    /// The products with each class of the sphere, one class after another.
    Lists,
    /// The classes of the module square by square, with their products.
    Table,
}

/// What is told of these classes of the sphere in this layout, over a table or over images. Products are made by lifts.
///
/// # Errors
/// `Refused` for the first class that the sphere has not through the range. `Memory` if allocation fails.
pub fn products_in(
    alloc: Global,
    source: &Source<'_>,
    layout: Layout,
    range: Range,
    shape: Shape,
    by: &[Class],
) -> Result<Vec<u8>, ClassesFault>
    requires rows { range.s ≤ MAX_S }
    requires degrees { range.t ≤ MAX_T }
    requires through { IsThrough range source.now.rows }
    ensures text { IfOk result (λ text. IsAnswerOver (told_in layout shape range by.now) source.now range (Ok text.items)) }
    ensures refused { IfErr result (λ e. e ≢ OutOfMemory →
        (refusal : WhyNot) × (e ≡ Refused refusal) ×
        IsAnswerIn (told_in layout shape range by.now) source.now range (Err refusal)) }
{
    match layout {
        Layout::Lists => products_text(alloc, source, range, shape, by),
        Layout::Table => table_by_lifts(alloc, source, range, shape, by),
    }
}

/// What is told of these classes of row 1, which are there, in this layout. Products are read off the images, which may be those of the
/// squares of the shape alone.
///
/// # Errors
/// `Memory` if allocation fails.
pub fn h_products_in(
    alloc: Global,
    images: &Images,
    layout: Layout,
    range: Range,
    shape: Shape,
    by: &[Class],
) -> Result<Vec<u8>, Memory>
    requires rows { range.s ≤ MAX_S }
    requires degrees { range.t ≤ MAX_T }
    requires through { IsSeenThrough range shape (squares_of images.now.rows) }
    requires there { All (IsH range) by.now }
    ensures { IfOk result
        (λ text. IsAnswerOverImages (told_in layout shape range by.now) images.now range (Ok text.items)) }
{
    match layout {
        Layout::Lists => h_products_text(alloc, images, range, shape, by),
        Layout::Table => h_table(alloc, images, range, shape, by),
    }
}
