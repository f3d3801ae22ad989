//! What is sought of classes, on a resolution of which the images of generators are made, and no table of squares.
ghost use Rattle.std.specs.Prelude.{◌≡◌, ◌<◌, ◌≤◌, ◌⊎◌, Err, IfErr};
ghost use Rattle.bidegree.specs.declared.range.TheConstants.{MAX_S, MAX_T};
ghost use Rattle.bidegree.specs.declared.shape.Shape.TheVariants.{Rectangle};
ghost use Rattle.chain_map.specs.Sources.{AreWhole};
ghost use Rattle.ext_report.specs.declared.failure.Failure.TheVariants.{Memory as WantOfMemory};
ghost use Rattle.ext_run.specs.declared.plan.Form.TheVariants.{Sought as ToSeek};
ghost use Rattle.ext_run.specs.Courses.{HasText, HasCourse};
ghost use Rattle.ext_run.specs.Forms.{IsInForm, IsRefusedIn};
ghost use Rattle.ext_run.specs.Work.{HasAnswer, answer_of};

use crate::plan::Sought;
use crate::sought::sought_text;
use bidegree::Range;
use chain_map::{Held, Source};
use ext_report::Failure;
use finite_module::Module;
use image_worker::images_by;
use module_check::{accepted_is_module, modules_are_graded_modules};
use resolution_existence::canonical_table_exists;
use resolution_images::{Images, images_alone};
use resolution_laws::canonical_table_is_minimal_resolution;
use square_worker::Gate;
use std::alloc::Global;
use std::mem::forget;
use std::sync::Wait;
use std::thread::Threads;
use std::time::Clock;

/// What is sought, from the images of the generators of the module's resolution through the range.
pub(crate) fn sought_alone(
    alloc: Global,
    resolved: Module,
    range: Range,
    sought: Sought,
) -> Result<Vec<u8>, Failure>
    requires rows { range.s ≤ MAX_S }
    requires degrees { range.t ≤ MAX_T }
    ensures told { HasAnswer result → IsInForm (ToSeek sought) range resolved.plain (answer_of result) }
    ensures why { IfErr result (λ e. (e ≡ WantOfMemory) ⊎ IsRefusedIn (ToSeek sought) range resolved.plain (Err e)) }
{
    let images = images_alone(alloc, resolved, range)?;
    let text = sought_over(alloc, &images, range, sought);
    forget(images);
    text
}

/// What is sought, from images that so many workers make.
pub(crate) fn sought_by<W: Threads + Wait + Clock + Sync, G: Gate + Sync>(
    wait: &W,
    alloc: Global,
    workers: usize,
    resolved: Module,
    range: Range,
    sought: Sought,
    gate: &G,
) -> Result<Vec<u8>, Failure>
    requires some { 0 < workers }
    requires rows { range.s ≤ MAX_S }
    requires degrees { range.t ≤ MAX_T }
    ensures told { HasAnswer result → IsInForm (ToSeek sought) range resolved.plain (answer_of result) }
    ensures why { IfErr result (λ e. (e ≡ WantOfMemory) ⊎ IsRefusedIn (ToSeek sought) range resolved.plain (Err e)) }
    ensures course { HasCourse workers range Rectangle resolved.plain (HasText result) }
{
    let images = images_by(wait, alloc, workers, resolved, range, gate)?;
    let text = sought_over(alloc, &images, range, sought);
    forget(images);
    text
}

/// What is sought, over these images.
fn sought_over(
    alloc: Global,
    images: &Images,
    range: Range,
    sought: Sought,
) -> Result<Vec<u8>, Failure>
    requires whole { AreWhole images.now }
    requires range { images.now.range ≡ range }
    ensures told { HasAnswer result → IsInForm (ToSeek sought) range images.now.resolved.plain (answer_of result) }
    ensures why { IfErr result
        (λ e. (e ≡ WantOfMemory) ⊎ IsRefusedIn (ToSeek sought) range images.now.resolved.plain (Err e)) }
{
    canonical_table_exists();
    canonical_table_is_minimal_resolution();
    modules_are_graded_modules();
    accepted_is_module();
    let source = Source {
        held: Held::Images(images),
    };
    Ok(sought_text(alloc, &source, range, sought)?)
}
