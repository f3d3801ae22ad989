//! Parts of columns as the records of a journal.
ghost use Rattle.std.specs.Prelude.{◌≡◌, All, map, IfOk, IfErr};
ghost use Rattle.save_journal.specs.Journals.{contents};
ghost use Rattle.chart_file.specs.Parts.{IsPart, part_bytes};
ghost use Rattle.chart_file.specs.Files.{IsRefusal, body_refusal};

use crate::fault::{DecodeFault, PartsFault};
use crate::part::ColumnPart;
use crate::reading::decode;
use crate::writing::encode;
use memory::Memory;
use save_journal::{Framed, frame};
use std::alloc::Global;

/// The part, ready to be appended to a journal.
///
/// # Errors
/// `Memory` if allocation fails.
pub fn framed_part(alloc: Global, part: &ColumnPart) -> Result<Framed, Memory>
    ensures body { IfOk result (λ framed. framed ≡ part_bytes part.now) }
    ensures is_part { IfOk result (λ _. IsPart part.now) }
{
    let body = encode(alloc, part)?;
    let Ok(framed) = frame(alloc, body) else {
        return Err(Memory);
    };
    Ok(framed)
}

/// The parts that the bodies of a journal's records are, in order.
///
/// # Errors
/// `Strange` with the number of the first body that is none and with what is wrong with it, and `Memory` if allocation fails.
pub fn parts_of(alloc: Global, bodies: &[Vec<u8>]) -> Result<Vec<ColumnPart>, PartsFault>
    ensures parts { IfOk result (λ parts. map part_bytes parts.items ≡ contents bodies.now) }
    ensures are { IfOk result (λ parts. All IsPart parts.items) }
    ensures refused { IfErr result (λ e. IsRefusal (contents bodies.now) e) }
{
    let mut parts = Vec::with_capacity(alloc, bodies.len())?;
    for i in 0..bodies.len() {
        let body = bodies[i].as_slice();
        match decode(alloc, body) {
            Ok(part) => parts.push(part)?,
            Err(fault) => return Err(refusal(i as u64, fault)),
        }
    }
    Ok(parts)
}

/// Why records are not read of which the one of this number has a body that was not read.
fn refusal(number: u64, fault: DecodeFault) -> PartsFault
    ensures { result ≡ body_refusal number fault }
{
    match fault {
        DecodeFault::Memory => PartsFault::Memory,
        fault => PartsFault::Strange { number, fault },
    }
}
