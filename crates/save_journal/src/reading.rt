//! The records of a file, read.
ghost use Rattle.std.specs.Prelude.{◌≡◌, ◌≢◌, ◌⊎◌, ℕ, ◌+◌, ◌<◌, ◌≤◌, ◌∷◌, List, Err, length, take, IfOk, IfErr, OnOk, MatchOption};
ghost use Rattle.sha2.specs.Sha256.{sha256};
ghost use Rattle.save_journal.specs.Records.{records_of, records_from, encoded, header, fresh, body_length, body_of, kept_of};
ghost use Rattle.save_journal.specs.Journals.{IsAtRest, contents};
ghost use Rattle.save_journal.specs.declared.fault.OpenFault.TheVariants.{Failed as DiskFailed, Memory as WantOfMemory};

use crate::fault::OpenFault;
use sha2::{Digest, Sha256};
use std::alloc::Global;

/// The gate of a record that counts.
pub const OPEN: u8 = 0xA5;

/// What a save file begins with: `EXTSAVE1`.
const MAGIC: [u8; 8] = [0x45, 0x58, 0x54, 0x53, 0x41, 0x56, 0x45, 0x31];

/// A file without records.
pub fn fresh_file(digest: &[u8; 32]) -> [u8; 41]
    ensures { result ≡ fresh digest.now }
{
    let mut bytes = [0; 41];
    bytes[..8].copy_from_slice(&MAGIC);
    bytes[8..40].copy_from_slice(digest);
    bytes
}

/// Compares what a file begins with, of which there is more than 41 bytes, with what one of ours begins with.
pub fn compare_header(head: &[u8; 40], digest: &[u8; 32]) -> Result<(), OpenFault>
    ensures ours { OnOk result (head.now ≡ header digest.now) }
    ensures refused { IfErr result (λ e. (file : List ℕ) → 41 < length file → take 40 file ≡ head.now →
        records_of digest.now file ≡ Err e) }
    ensures no_disk { IfErr result (λ e. e ≢ DiskFailed) }
{
    if &head[..8] != MAGIC.as_slice() {
        return Err(OpenFault::NotSave);
    }
    let kept = &head[8..40];
    if kept != digest.as_slice() {
        return Err(OpenFault::Other {
            kept: array_of(kept),
            ours: *digest,
        });
    }
    Ok(())
}

/// The bodies of the records of a file that begins as one of ours does, and the place of the gate that ends them.
pub fn read_records(
    alloc: Global,
    bytes: &[u8],
    digest: &[u8; 32],
) -> Result<(u64, Vec<Vec<u8>>), OpenFault>
    requires long { 41 < length bytes.now }
    requires ours { take 40 bytes.now ≡ header digest.now }
    ensures at_rest { IfOk result (λ r. IsAtRest digest.now r.0 (contents r.1.items) bytes.now) }
    ensures end { IfOk result (λ r. r.0 ≡ 40 + length (encoded (contents r.1.items))) }
    ensures count { IfOk result (λ r. length r.1.items ≤ r.0) }
    ensures refused { IfErr result (λ e. (e ≡ WantOfMemory) ⊎ (records_of digest.now bytes.now ≡ Err e)) }
    ensures no_disk { IfErr result (λ e. e ≢ DiskFailed) }
{
    let mut list = Vec::new(alloc);
    let mut place = 40;
    while bytes[place] == OPEN {
        let behind = &bytes[place + 1..];
        let body = match read_record(alloc, behind, list.len() as u64, place as u64) {
            Ok(body) => body,
            Err(fault) => return Err(fault),
        };
        place += 41 + body.len();
        list.push(body)?;
    }
    Ok((place as u64, list))
}

/// The body of the record behind an open gate, whose number and place these are.
fn read_record(alloc: Global, behind: &[u8], number: u64, place: u64) -> Result<Vec<u8>, OpenFault>
    ensures whole { OnOk result (41 + body_length behind.now ≤ length behind.now) }
    ensures body { IfOk result (λ v. v.items ≡ body_of behind.now) }
    ensures right { OnOk result (sha256 (body_of behind.now) ≡ kept_of behind.now) }
    ensures refused { IfErr result (λ e. (e ≡ WantOfMemory)
        ⊎ (records_from number place 0 (0xA5 ∷ behind.now) ≡ Err e)) }
    ensures no_disk { IfErr result (λ e. e ≢ DiskFailed) }
{
    let Some(n) = whole_length(behind) else {
        return Err(OpenFault::Short { number, place });
    };
    let body = &behind[8..8 + n];
    let kept = &behind[8 + n..40 + n];
    let found = Sha256::digest(body);
    if found.as_slice() != kept {
        return Err(OpenFault::Damaged {
            number,
            place,
            kept: array_of(kept),
            found,
        });
    }
    Ok(body.to_vec(alloc)?)
}

/// The length of the body behind an open gate, none where the record and the next gate are not whole.
fn whole_length(behind: &[u8]) -> Option<usize>
    ensures { MatchOption result (length behind.now < 41 + body_length behind.now) (λ n. (n ≡ body_length behind.now)
        × (41 + n ≤ length behind.now)) }
{
    if behind.len() < 41 {
        return None;
    }
    let n = u64::from_be_bytes([
        behind[0], behind[1], behind[2], behind[3], behind[4], behind[5], behind[6], behind[7],
    ]);
    if n > (behind.len() - 41) as u64 {
        return None;
    }
    Some(n as usize)
}

/// A digest as an array.
fn array_of(bytes: &[u8]) -> [u8; 32]
    requires { length bytes.now ≡ 32 }
    ensures { result ≡ bytes.now }
{
    let mut array = [0; 32];
    array.copy_from_slice(bytes);
    array
}
