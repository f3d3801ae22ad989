//! Images made by several workers.
ghost use Rattle.std.specs.Prelude.{◌≡◌, ◌≤◌, ◌<◌, ◌+◌, IfOk};
ghost use Rattle.bidegree.specs.declared.range.TheConstants.{MAX_S, MAX_T};
ghost use Rattle.bidegree.specs.declared.shape.Shape.TheVariants.{Rectangle, Stems};
ghost use Rattle.square.specs.Squares.{over};
ghost use Rattle.resolution_images.specs.BareRows.{AreOfCanonical, AreOfStems};
ghost use Rattle.image_worker.specs.Stocks.{HasStems, extent_in};
ghost use Rattle.image_worker.specs.Worked.{AreImagesBy};

use crate::stock::ImageStock;
use bidegree::{Range, Shape};
use finite_module::Module;
use memory::Memory;
use resolution_images::Images;
use square_board::{Gate, made_by};
use std::alloc::Global;
use std::sync::Wait;
use std::thread::Threads;
use std::time::Clock;

/// The images of the generators of the module's canonical resolution through the range, made by so many workers: one history led to
/// them, in which each worker took one square after the other, and there is nothing else in it.
///
/// # Errors
/// `Memory` if allocation fails.
pub fn images_by<R: Threads + Wait + Clock + Sync, G: Gate + Sync>(
    wait: &R,
    alloc: Global,
    workers: usize,
    resolved: Module,
    range: Range,
    gate: &G,
) -> Result<Images, Memory>
    requires some { 0 < workers }
    requires rows { range.s ≤ MAX_S }
    requires degrees { range.t ≤ MAX_T }
    ensures resolved { IfOk result (λ images. images.resolved ≡ resolved) }
    ensures range { IfOk result (λ images. images.range ≡ range) }
    ensures canonical { IfOk result (λ images. AreOfCanonical (over resolved) range.s range.t images.rows) }
    ensures worked { IfOk result (λ images. AreImagesBy workers resolved range Rectangle images.rows) }
{
    images_through(
        wait,
        alloc,
        workers,
        resolved,
        range,
        Shape::Rectangle,
        gate,
    )
}

/// The images of the generators of the module's canonical resolution through row `s`, in stems 0 to `n` above the
/// bottom, made by so many workers. No square of a greater stem is made. Row i goes through degree n + i above the
/// bottom, and its images there end before the generators of that degree, at which they are 0.
///
/// # Errors
/// `Memory` if allocation fails.
pub fn images_in_stems_by<R: Threads + Wait + Clock + Sync, G: Gate + Sync>(
    wait: &R,
    alloc: Global,
    workers: usize,
    resolved: Module,
    s: u16,
    n: u16,
    gate: &G,
) -> Result<Images, Memory>
    requires some { 0 < workers }
    requires rows { s ≤ MAX_S }
    requires degrees { n + s ≤ MAX_T }
    ensures resolved { IfOk result (λ images. images.resolved ≡ resolved) }
    ensures row { IfOk result (λ images. images.range.s ≡ s) }
    ensures degree { IfOk result (λ images. images.range.t ≡ n + s) }
    ensures stems { IfOk result (λ images. AreOfStems (over resolved) s n images.rows) }
    ensures worked { IfOk result
        (λ images. AreImagesBy workers resolved (record { s = s; t = n + s }) Stems images.rows) }
{
    let range = Range { s, t: n + s };
    images_through(wait, alloc, workers, resolved, range, Shape::Stems, gate)
}

/// The images of a range of this shape, made by so many workers.
///
/// # Errors
/// `Memory` if allocation fails.
fn images_through<R: Threads + Wait + Clock + Sync, G: Gate + Sync>(
    wait: &R,
    alloc: Global,
    workers: usize,
    resolved: Module,
    range: Range,
    shape: Shape,
    gate: &G,
) -> Result<Images, Memory>
    requires some { 0 < workers }
    requires rows { range.s ≤ MAX_S }
    requires degrees { range.t ≤ MAX_T }
    requires stems { HasStems shape range }
    ensures resolved { IfOk result (λ images. images.resolved ≡ resolved) }
    ensures range { IfOk result (λ images. images.range ≡ range) }
    ensures canonical { IfOk result
        (λ images. shape ≡ Rectangle → AreOfCanonical (over resolved) range.s range.t images.rows) }
    ensures stems { IfOk result
        (λ images. shape ≡ Stems → AreOfStems (over resolved) range.s (extent_in shape range).n images.rows) }
    ensures worked { IfOk result (λ images. AreImagesBy workers resolved range shape images.rows) }
{
    let stock = ImageStock::new(alloc, resolved, range, shape)?;
    let (outcome, stock) = made_by(wait, alloc, workers, stock, range, gate);
    match outcome {
        Ok(()) => Ok(stock.into_images()),
        // Images are kept nowhere, so that nothing but memory can fail.
        Err(_) => Err(Memory),
    }
}
