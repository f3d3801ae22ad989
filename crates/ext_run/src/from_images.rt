//! Sheets on a resolution of which the images of generators are made, and no table of squares.
ghost use Rattle.std.specs.Prelude.{◌≡◌, ◌≤◌, ◌<◌, IfOk, OnOk, ⊤};
ghost use Rattle.bidegree.specs.declared.range.TheConstants.{MAX_S, MAX_T};
ghost use Rattle.live_worker.specs.Reports.{squares_of, HasReported};
ghost use Rattle.ext_run.specs.Courses.{HasCourse};
ghost use Rattle.ext_run.specs.Forms.{IsReadOff, sheet_of};
ghost use Rattle.ext_run.specs.Inside.Images.{AreOfResolution};

use crate::plan::Sheet;
use crate::sheets::sheet_text;
use bidegree::{Range, Shape};
use edge::{Failed, Sink};
use ext_chart::stems_are_told_alike;
use finite_module::Module;
use image_worker::{images_by, images_in_stems_by};
use live_worker::images_live;
use memory::Memory;
use module_check::modules_are_graded_modules;
use resolution_existence::canonical_table_exists;
use resolution_images::{Images, images_alone, images_in_stems};
use resolution_laws::canonical_table_is_minimal_resolution;
use square_worker::Gate;
use std::alloc::Global;
use std::mem::forget;
use std::sync::Wait;
use std::thread::Threads;
use std::time::Clock;
use stem_laws::rows_in_stems_are_whole;

/// The sheet on the squares of this shape of the module's resolution through the range.
///
/// # Errors
/// `Memory` if allocation fails.
pub(crate) fn sheet_alone(
    alloc: Global,
    resolved: Module,
    sheet: Sheet,
    range: Range,
    shape: Shape,
) -> Result<Vec<u8>, Memory>
    requires rows { range.s ≤ MAX_S }
    requires degrees { range.t ≤ MAX_T }
    ensures { IfOk result (λ text. IsReadOff (sheet_of sheet shape range) range resolved.plain text.items) }
{
    canonical_table_exists();
    canonical_table_is_minimal_resolution();
    modules_are_graded_modules();
    let images = images_through(alloc, resolved, range, shape)?;
    let text = sheet_text(alloc, sheet, &images, range, shape);
    forget(images);
    text
}

/// The images of the generators of the squares of this shape. A range that has fewer degrees than rows has no stems, and
/// there they are those of the rectangle.
///
/// # Errors
/// `Memory` if allocation fails.
pub(crate) fn images_through(
    alloc: Global,
    resolved: Module,
    range: Range,
    shape: Shape,
) -> Result<Images, Memory>
    requires rows { range.s ≤ MAX_S }
    requires degrees { range.t ≤ MAX_T }
    ensures { IfOk result (AreOfResolution shape range resolved) }
{
    canonical_table_exists();
    canonical_table_is_minimal_resolution();
    modules_are_graded_modules();
    stems_are_told_alike();
    rows_in_stems_are_whole();
    match shape {
        Shape::Stems if range.s <= range.t => {
            images_in_stems(alloc, resolved, range.s, range.t - range.s)
        }
        _ => images_alone(alloc, resolved, range),
    }
}

/// The sheet on the squares of this shape of the module's resolution through the range, of which so many workers make the images.
///
/// # Errors
/// `Memory` if allocation fails.
pub(crate) fn sheet_by<W: Threads + Wait + Clock + Sync, G: Gate + Sync>(
    wait: &W,
    alloc: Global,
    workers: usize,
    resolved: Module,
    sheet: Sheet,
    range: Range,
    shape: Shape,
    gate: &G,
) -> Result<Vec<u8>, Memory>
    requires some { 0 < workers }
    requires rows { range.s ≤ MAX_S }
    requires degrees { range.t ≤ MAX_T }
    ensures course { OnOk result (HasCourse workers range shape resolved.plain ⊤) }
    ensures text { IfOk result (λ text. IsReadOff (sheet_of sheet shape range) range resolved.plain text.items) }
{
    canonical_table_exists();
    canonical_table_is_minimal_resolution();
    modules_are_graded_modules();
    let images = images_through_by(wait, alloc, workers, resolved, range, shape, gate)?;
    let made = sheet_text(alloc, sheet, &images, range, shape);
    forget(images);
    made
}

/// The images of the generators of the squares of this shape, made by so many workers. A range that has fewer degrees than rows has
/// no stems, and there they are those of the rectangle.
///
/// # Errors
/// `Memory` if allocation fails.
pub(crate) fn images_through_by<W: Threads + Wait + Clock + Sync, G: Gate + Sync>(
    wait: &W,
    alloc: Global,
    workers: usize,
    resolved: Module,
    range: Range,
    shape: Shape,
    gate: &G,
) -> Result<Images, Memory>
    requires some { 0 < workers }
    requires rows { range.s ≤ MAX_S }
    requires degrees { range.t ≤ MAX_T }
    ensures course { OnOk result (HasCourse workers range shape resolved.plain ⊤) }
    ensures are { IfOk result (AreOfResolution shape range resolved) }
{
    canonical_table_exists();
    canonical_table_is_minimal_resolution();
    modules_are_graded_modules();
    stems_are_told_alike();
    rows_in_stems_are_whole();
    match shape {
        Shape::Stems if range.s <= range.t => {
            let n = range.t - range.s;
            images_in_stems_by(wait, alloc, workers, resolved, range.s, n, gate)
        }
        _ => images_by(wait, alloc, workers, resolved, range, gate),
    }
}

/// The sheet on the squares of this shape of the module's resolution through the range, of which so many workers make the images
/// of the whole rectangle. Meanwhile it is reported on `err` how many squares of that are finished. The last of what it gives says
/// whether `err` failed; then nothing was written to it since.
///
/// # Errors
/// `Memory` if allocation fails.
pub(crate) fn sheet_live<W: Threads + Wait + Clock + Sync, E: Sink + Send, G: Gate + Sync>(
    wait: &W,
    alloc: Global,
    workers: usize,
    resolved: Module,
    sheet: Sheet,
    range: Range,
    shape: Shape,
    err: &mut E,
    gate: &G,
) -> (Result<Vec<u8>, Memory>, Result<(), Failed>)
    requires some { 0 < workers }
    requires rows { range.s ≤ MAX_S }
    requires degrees { range.t ≤ MAX_T }
    ensures text { IfOk result.0 (λ text. IsReadOff (sheet_of sheet shape range) range resolved.plain text.items) }
    ensures course { OnOk result.0 (HasCourse workers range shape resolved.plain ⊤) }
    ensures reported { HasReported (squares_of range) result.0 result.1 (E.written err.old) (E.written err.new)
        (E.faults err.old) (E.faults err.new) }
{
    canonical_table_exists();
    canonical_table_is_minimal_resolution();
    modules_are_graded_modules();
    let (made, heard) = images_live(wait, alloc, workers, resolved, range, gate, err);
    match made {
        Ok(images) => {
            let text = sheet_text(alloc, sheet, &images, range, shape);
            forget(images);
            (text, heard)
        }
        Err(Memory) => (Err(Memory), heard),
    }
}
