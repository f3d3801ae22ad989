//! Images made by several workers, with reports of how far they are.
ghost use Rattle.std.specs.Prelude.{◌≡◌, ◌<◌, ◌≤◌, IfOk};
ghost use Rattle.bidegree.specs.declared.range.TheConstants.{MAX_S, MAX_T};
ghost use Rattle.bidegree.specs.declared.shape.Shape.TheVariants.{Rectangle};
ghost use Rattle.square.specs.Squares.{over};
ghost use Rattle.resolution_images.specs.BareRows.{AreOfCanonical};
ghost use Rattle.image_worker.specs.Worked.{AreImagesBy};
ghost use Rattle.live_worker.specs.Reports.{squares_of, HasReported};

use crate::making::made_live;
use bidegree::{Range, Shape};
use edge::{Failed, Sink};
use finite_module::Module;
use image_worker::ImageStock;
use memory::Memory;
use resolution_images::Images;
use square_board::Gate;
use std::alloc::Global;
use std::sync::Wait;
use std::thread::Threads;
use std::time::Clock;

/// The images of the generators of the module's canonical resolution through the range, as `images_by` makes them, by so many
/// workers. Meanwhile it is reported on `err` how many squares of the range are finished, as `resolve_live` does.
///
/// # Errors
/// `Memory` if there is no memory for the board, an image, or the line of the last report.
pub fn images_live<R: Threads + Wait + Clock + Sync, G: Gate + Sync, E: Sink + Send>(
    wait: &R,
    alloc: Global,
    workers: usize,
    resolved: Module,
    range: Range,
    gate: &G,
    err: &mut E,
) -> (Result<Images, Memory>, Result<(), Failed>)
    requires some { 0 < workers }
    requires rows { range.s ≤ MAX_S }
    requires degrees { range.t ≤ MAX_T }
    ensures resolved { IfOk result.0 (λ images. images.resolved ≡ resolved) }
    ensures canonical { IfOk result.0 (λ images. AreOfCanonical (over resolved) range.s range.t images.rows) }
    ensures worked { IfOk result.0 (λ images. AreImagesBy workers resolved range Rectangle images.rows) }
    ensures reported { HasReported (squares_of range) result.0 result.1 (E.written err.old) (E.written err.new)
        (E.faults err.old) (E.faults err.new) }
{
    let stock = match ImageStock::new(alloc, resolved, range, Shape::Rectangle) {
        Ok(stock) => stock,
        Err(Memory) => return (Err(Memory), Ok(())),
    };
    let (made, last, told) = made_live(wait, alloc, workers, stock, range, gate, err);
    match made {
        Ok(()) => (Ok(last.into_images()), told),
        // Images are kept nowhere, so that nothing but memory can fail.
        Err(_) => (Err(Memory), told),
    }
}
