//! Whose records a chart file has.
ghost use Rattle.std.specs.Prelude.{◌≡◌, IfOk};
ghost use Rattle.chart_keep.specs.Texts.{digest_of_chart, chart_text, TextsAreApart};

use finite_module::Module;
use memory::Memory;
use sha2::{Digest, Sha256};
use std::alloc::Global;

/// What stands in front of a module's canonical text: `chart 1` and the end of the line. The number is that of the format.
const LINE: [u8; 8] = [0x63, 0x68, 0x61, 0x72, 0x74, 0x20, 0x31, 0x0A];

/// What the records of the module's chart file belong to: SHA-256 of the line `chart 1` and the module's canonical text.
///
/// # Errors
/// `Memory` if allocation fails.
pub fn chart_digest(alloc: Global, module: &Module) -> Result<[u8; 32], Memory>
    ensures { IfOk result (λ digest. digest ≡ digest_of_chart module.now.plain) }
{
    let mut text = Vec::new(alloc);
    text.extend_from_slice(&LINE)?;
    let lines = module.canonical_text(alloc)?;
    text.extend_from_slice(lines.as_slice())?;
    Ok(Sha256::digest(text.as_slice()))
}

/// The text of a chart file is no module's canonical text, and it is that of one canonical text only. So where two of these
/// texts have one digest, they are one text, or SHA-256 takes two texts to one digest.
pub fn texts_are_apart()
    ensures { TextsAreApart }
{}
