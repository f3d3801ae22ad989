//! Parts of columns as bytes.
ghost use Rattle.std.specs.Prelude.{◌≡◌, ◌++◌, IfOk, OnOk};
ghost use Rattle.chart_file.specs.Parts.{IsPart, bare_bytes, part_bytes};

use crate::part::{BareSquare, COLUMN, ColumnPart};
use memory::Memory;
use std::alloc::Global;

/// The body of a record that has this part.
///
/// # Errors
/// `Memory` if allocation fails.
pub fn encode(alloc: Global, part: &ColumnPart) -> Result<Vec<u8>, Memory>
    ensures body { IfOk result (λ body. body.items ≡ part_bytes part.now) }
    ensures is_part { IfOk result (λ _. IsPart part.now) }
{
    let mut body = Vec::new(alloc);
    body.push(COLUMN)?;
    body.extend_from_slice(&part.above().to_be_bytes())?;
    body.extend_from_slice(&part.first().to_be_bytes())?;
    for square in part.squares() {
        append_square(square, &mut body)?;
    }
    Ok(body)
}

/// Puts the bytes of a square at the end of the body.
///
/// # Errors
/// `Memory` if allocation fails.
fn append_square(square: &BareSquare, body: &mut Vec<u8>) -> Result<(), Memory>
    ensures { OnOk result (body.new.items ≡ body.old.items ++ bare_bytes square.now) }
{
    body.extend_from_slice(&(square.images().len() as u64).to_be_bytes())?;
    body.extend_from_slice(&(square.width() as u64).to_be_bytes())?;
    for image in square.images() {
        image.append_bytes(body)?;
    }
    Ok(())
}
