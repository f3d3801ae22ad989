//! Products with classes of the sphere on a resolution of which the images of generators are made, and no table of squares.
ghost use Rattle.std.specs.Prelude.{◌≡◌, ◌==◌, ◌<◌, ◌≤◌, ◌⊎◌, true, Err, IfOk, IfErr, OnOk, ⊤};
ghost use Rattle.std.specs.List.{All, list_all};
ghost use Rattle.bidegree.specs.declared.range.TheConstants.{MAX_S, MAX_T};
ghost use Rattle.ext_h_products.specs.RowOne.{IsH};
ghost use Rattle.ext_report.specs.declared.failure.Failure.TheVariants.{Memory as WantOfMemory};
ghost use Rattle.ext_run.specs.declared.plan.Form.TheVariants.{Products as ProductsOf};
ghost use Rattle.ext_run.specs.Courses.{HasText, HasCourse};
ghost use Rattle.ext_run.specs.Forms.{IsInForm, IsRefusedIn};
ghost use Rattle.ext_run.specs.Inside.Images.{AreForProducts};
ghost use Rattle.ext_run.specs.Work.{HasAnswer, answer_of};

use crate::from_images::{images_through, images_through_by};
use crate::row_one::{h_products_over, look_for};
use bidegree::{Class, Range, Shape};
use chain_map::{Held, Source};
use ext_h_products::are_in_row_one;
use ext_report::Failure;
use ext_table::{Layout, products_in};
use finite_module::Module;
use image_worker::images_by;
use memory::Memory;
use module_check::{accepted_is_module, modules_are_graded_modules};
use resolution_existence::canonical_table_exists;
use resolution_images::{Images, images_alone};
use resolution_laws::canonical_table_is_minimal_resolution;
use square_worker::Gate;
use std::alloc::Global;
use std::mem::forget;
use std::sync::Wait;
use std::thread::Threads;
use std::time::Clock;

/// The products with classes of the sphere, those products that are in squares of this shape, from the images of the generators
/// of the module's resolution. Where all of the classes are of row 1 no class is lifted, and one that is not there is refused before anything
/// is resolved.
pub(crate) fn products_alone(
    alloc: Global,
    resolved: Module,
    layout: Layout,
    range: Range,
    shape: Shape,
    by: &[Class],
) -> Result<Vec<u8>, Failure>
    requires rows { range.s ≤ MAX_S }
    requires degrees { range.t ≤ MAX_T }
    ensures told { HasAnswer result → IsInForm (ProductsOf layout by.now shape) range resolved.plain (answer_of result) }
    ensures why { IfErr result
        (λ e. (e ≡ WantOfMemory) ⊎ IsRefusedIn (ProductsOf layout by.now shape) range resolved.plain (Err e)) }
{
    canonical_table_exists();
    canonical_table_is_minimal_resolution();
    modules_are_graded_modules();
    accepted_is_module();
    if let Err(refusal) = look_for(by, range) {
        return Err(Failure::Classes(refusal));
    }
    let images = images_for(alloc, resolved, range, shape, by)?;
    let text = products_over(alloc, &images, layout, range, shape, by);
    forget(images);
    text
}

/// The products with classes of the sphere, from images that so many workers make.
pub(crate) fn products_by<W: Threads + Wait + Clock + Sync, G: Gate + Sync>(
    wait: &W,
    alloc: Global,
    workers: usize,
    resolved: Module,
    layout: Layout,
    range: Range,
    shape: Shape,
    by: &[Class],
    gate: &G,
) -> Result<Vec<u8>, Failure>
    requires some { 0 < workers }
    requires rows { range.s ≤ MAX_S }
    requires degrees { range.t ≤ MAX_T }
    ensures told { HasAnswer result → IsInForm (ProductsOf layout by.now shape) range resolved.plain (answer_of result) }
    ensures why { IfErr result
        (λ e. (e ≡ WantOfMemory) ⊎ IsRefusedIn (ProductsOf layout by.now shape) range resolved.plain (Err e)) }
    ensures course { HasCourse workers range shape resolved.plain (HasText result) }
{
    canonical_table_exists();
    canonical_table_is_minimal_resolution();
    modules_are_graded_modules();
    accepted_is_module();
    if let Err(refusal) = look_for(by, range) {
        return Err(Failure::Classes(refusal));
    }
    let images = images_for_by(wait, alloc, workers, resolved, range, shape, by, gate)?;
    let text = products_over(alloc, &images, layout, range, shape, by);
    forget(images);
    text
}

/// The images that products with these classes are made from: those of the squares of this shape where all classes are of row 1, and those of
/// the whole rectangle where classes are lifted.
///
/// # Errors
/// `Memory` if allocation fails.
fn images_for(
    alloc: Global,
    resolved: Module,
    range: Range,
    shape: Shape,
    by: &[Class],
) -> Result<Images, Memory>
    requires rows { range.s ≤ MAX_S }
    requires degrees { range.t ≤ MAX_T }
    ensures { IfOk result (AreForProducts shape range by.now resolved) }
{
    if are_in_row_one(by) {
        images_through(alloc, resolved, range, shape)
    } else {
        images_alone(alloc, resolved, range)
    }
}

/// The same images, made by so many workers.
///
/// # Errors
/// `Memory` if allocation fails.
fn images_for_by<W: Threads + Wait + Clock + Sync, G: Gate + Sync>(
    wait: &W,
    alloc: Global,
    workers: usize,
    resolved: Module,
    range: Range,
    shape: Shape,
    by: &[Class],
    gate: &G,
) -> Result<Images, Memory>
    requires some { 0 < workers }
    requires rows { range.s ≤ MAX_S }
    requires degrees { range.t ≤ MAX_T }
    ensures course { OnOk result (HasCourse workers range shape resolved.plain ⊤) }
    ensures are { IfOk result (AreForProducts shape range by.now resolved) }
{
    if are_in_row_one(by) {
        images_through_by(wait, alloc, workers, resolved, range, shape, gate)
    } else {
        images_by(wait, alloc, workers, resolved, range, gate)
    }
}

/// The products with classes of the sphere, over these images.
fn products_over(
    alloc: Global,
    images: &Images,
    layout: Layout,
    range: Range,
    shape: Shape,
    by: &[Class],
) -> Result<Vec<u8>, Failure>
    requires rows { range.s ≤ MAX_S }
    requires degrees { range.t ≤ MAX_T }
    requires images { AreForProducts shape range by.now images.now.resolved images.now }
    requires there { list_all (λ class. class.s == 1) by.now ≡ true → All (IsH range) by.now }
    ensures told { HasAnswer result →
        IsInForm (ProductsOf layout by.now shape) range images.now.resolved.plain (answer_of result) }
    ensures why { IfErr result
        (λ e. (e ≡ WantOfMemory) ⊎ IsRefusedIn (ProductsOf layout by.now shape) range images.now.resolved.plain (Err e)) }
{
    canonical_table_exists();
    canonical_table_is_minimal_resolution();
    modules_are_graded_modules();
    accepted_is_module();
    if are_in_row_one(by) {
        return Ok(h_products_over(alloc, images, layout, range, shape, by)?);
    }
    let source = Source {
        held: Held::Images(images),
    };
    Ok(products_in(alloc, &source, layout, range, shape, by)?)
}
