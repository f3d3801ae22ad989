//! Bodies as they are written.
ghost use Rattle.std.specs.Prelude.{◌≡◌, IfOk, IfErr};
ghost use Rattle.save_journal.specs.Records.{framed};
ghost use Rattle.save_journal.specs.Journals.{IsSayable};

use memory::Memory;
use sha2::{Digest, Sha256};
use std::alloc::Global;
use std::marker::Model;

/// The gate of a record that does not count.
const CLOSED: u8 = 0;

/// A body, ready to be appended. Contracts see it as the bytes of the body.
///
/// It holds what stands behind the gate of its record: the length of the body, the body, its digest, and the next gate,
/// closed.
#[derive(Debug, Drop)]
pub struct Framed {
    bytes: Vec<u8>,
}

impl Model for Framed {
    ghost use Rattle.std.specs.Prelude.{◌≡◌, ◌-◌, List, ℕ, length, take, drop};
    ghost use Rattle.save_journal.specs.Records.{framed};
    ghost use Rattle.save_journal.specs.Journals.{IsSayable};

    ghost Value = { List ℕ };

    ghost view = { λ f. take (length f.bytes.items - 41) (drop 8 f.bytes.items) };

    ghost invariant = { λ f. (f.bytes.items ≡ framed (take (length f.bytes.items - 41) (drop 8 f.bytes.items)))
        × IsSayable (take (length f.bytes.items - 41) (drop 8 f.bytes.items)) };
}

/// Makes a body ready to be appended. It takes all the memory, so `Journal::append` fails only if the disk does.
///
/// # Errors
/// `Memory` if allocation fails, with the body.
pub fn frame(alloc: Global, body: Vec<u8>) -> Result<Framed, (Memory, Vec<u8>)>
    ensures framed { IfOk result (λ f. f ≡ body.items) }
    ensures back { IfErr result (λ e. e.1 ≡ body) }
{
    match bytes_of(alloc, &body) {
        Ok(bytes) => Ok(Framed { bytes }),
        Err(memory) => Err((memory, body)),
    }
}

/// What is written of a body.
fn bytes_of(alloc: Global, body: &[u8]) -> Result<Vec<u8>, Memory>
    ensures { IfOk result (λ v. v.items ≡ framed body.now) }
{
    let mut bytes = Vec::with_capacity(alloc, body.len() + 41)?;
    bytes.extend_from_slice(&(body.len() as u64).to_be_bytes())?;
    bytes.extend_from_slice(body)?;
    bytes.extend_from_slice(&Sha256::digest(body))?;
    bytes.push(CLOSED)?;
    Ok(bytes)
}

impl Framed {
    /// What is written of it.
    pub(crate) fn bytes(&self) -> &[u8]
        ensures bytes { result.now ≡ framed self.now }
        ensures sayable { IsSayable self.now }
    {
        self.bytes.as_slice()
    }
}
