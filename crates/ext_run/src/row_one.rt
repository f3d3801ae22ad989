//! Products with classes of row 1 of the sphere. They are read off images of generators, and the sphere is not resolved.
ghost use Rattle.std.specs.Prelude.{◌≡◌, ◌==◌, ◌≤◌, true, IfOk, IfErr, OnOk, Ok, Err};
ghost use Rattle.std.specs.List.{All, list_all};
ghost use Rattle.bidegree.specs.declared.range.TheConstants.{MAX_S, MAX_T};
ghost use Rattle.bidegree.specs.declared.shape.Shape.{Shape};
ghost use Rattle.lift_laws.specs.Lifts.{Resolution};
ghost use Rattle.ext_h_products.specs.RowOne.{IsH, OfSpheres};
ghost use Rattle.ext_table.specs.declared.layout.Layout.{Layout as Arranged};
ghost use Rattle.ext_table.specs.Layouts.{told_in};
ghost use Rattle.ext_run.specs.declared.plan.Form.TheVariants.{Products as ProductsOf};
ghost use Rattle.ext_run.specs.Forms.{IsInForm};
ghost use Rattle.ext_run.specs.Inside.Images.{AreOfResolution};

use bidegree::{Class, Range, Shape};
use ext_h_products::{are_in_row_one, find_each};
use ext_products::Refusal;
use ext_table::{Layout, h_products_in, layouts_refuse_alike};
use memory::Memory;
use module_check::{accepted_is_module, modules_are_graded_modules};
use resolution_existence::canonical_table_exists;
use resolution_images::Images;
use resolution_laws::canonical_table_is_minimal_resolution;
use std::alloc::Global;

/// Looks for the classes, if all of them are of row 1. For others the sphere has to be resolved.
///
/// # Errors
/// The refusal of the first class that is not there through the range.
pub(crate) fn look_for(by: &[Class], range: Range) -> Result<(), Refusal>
    ensures there { OnOk result (list_all (λ class. class.s == 1) by.now ≡ true → All (IsH range) by.now) }
    ensures missing { IfErr result (λ refusal.
        OfSpheres range (λ q. (layout : Arranged) (shape : Shape) (r : Resolution) →
        told_in layout shape range by.now r q (Err refusal))) }
{
    layouts_refuse_alike();
    if are_in_row_one(by) {
        find_each(by, range)
    } else {
        Ok(())
    }
}

/// The products with these classes of row 1, those that are in squares of this shape, over these images.
///
/// # Errors
/// `Memory` if allocation fails.
pub(crate) fn h_products_over(
    alloc: Global,
    images: &Images,
    layout: Layout,
    range: Range,
    shape: Shape,
    by: &[Class],
) -> Result<Vec<u8>, Memory>
    requires rows { range.s ≤ MAX_S }
    requires degrees { range.t ≤ MAX_T }
    requires images { AreOfResolution shape range images.now.resolved images.now }
    requires there { All (IsH range) by.now }
    ensures { IfOk result (λ text. IsInForm (ProductsOf layout by.now shape) range images.now.resolved.plain (Ok text.items)) }
{
    canonical_table_exists();
    canonical_table_is_minimal_resolution();
    modules_are_graded_modules();
    accepted_is_module();
    h_products_in(alloc, images, layout, range, shape, by)
}
