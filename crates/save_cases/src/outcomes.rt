//! What comes of a save file, as text.
use cases::Fault;
use edge::MemDisk;
use finite_module::Module;
use save_file::{ResumeFault, resume};
use save_journal::{Journal, OpenFault, frame};
use std::alloc::Global;

/// How many bytes a disk holds, with those that were written and its calls.
const ROOM: usize = 25000;

/// A disk that holds these bytes, and does not fail.
pub(crate) fn sound_disk(alloc: Global, bytes: Vec<u8>) -> Result<MemDisk, Fault> {
    Ok(MemDisk::new(alloc, bytes, ROOM, Vec::new(alloc), u64::MAX)?)
}

/// The bodies of the records that belong to a digest, each with a comma behind it, or why the file is refused; and the disk.
pub(crate) fn opened(
    alloc: Global,
    disk: MemDisk,
    digest: [u8; 32],
) -> Result<(String, MemDisk), Fault> {
    match Journal::open(alloc, disk, digest) {
        Ok((journal, bodies)) => {
            let mut text = String::new(alloc);
            for body in &bodies {
                text.push_str(hex::encode(alloc, body.as_slice())?.as_str())?;
                text.push(',')?;
            }
            Ok((text, journal.into_disk()))
        }
        Err((fault, disk)) => Ok((open_refused(alloc, &fault)?, disk)),
    }
}

/// The bodies of the records that the disk keeps once one with this body is appended to the file of a digest, or why that is refused; and
/// the disk.
pub(crate) fn appended(
    alloc: Global,
    disk: MemDisk,
    digest: [u8; 32],
    body: Vec<u8>,
) -> Result<(String, MemDisk), Fault> {
    let Ok(framed) = frame(alloc, body) else {
        return Err(Fault::Memory);
    };
    match Journal::open(alloc, disk, digest) {
        Ok((mut journal, _)) => {
            if journal.append(&framed).is_err() {
                return Ok((String::from_str(alloc, "failed")?, journal.into_disk()));
            }
            let disk = journal.into_disk();
            let kept = sound_disk(alloc, disk.image(alloc, 0)?)?;
            let (text, _) = opened(alloc, kept, digest)?;
            Ok((text, disk))
        }
        Err((fault, disk)) => Ok((open_refused(alloc, &fault)?, disk)),
    }
}

/// How many squares of row 0 the sphere's file has, or why the file is refused; and the disk.
pub(crate) fn taken_up(alloc: Global, disk: MemDisk) -> Result<(String, MemDisk), Fault> {
    match resume(alloc, Module::sphere(alloc)?, disk) {
        Ok((table, keeper)) => {
            let count = table.front(0);
            Ok((format!(in alloc; "{count} squares")?, keeper.into_disk()))
        }
        Err((fault, disk)) => Ok((resume_refused(alloc, &fault)?, disk)),
    }
}

/// Why a table is refused.
fn resume_refused(alloc: Global, fault: &ResumeFault) -> Result<String, Fault> {
    match fault {
        ResumeFault::Open(fault) => open_refused(alloc, fault),
        fault => Ok(format!(in alloc; "refused: {fault}")?),
    }
}

/// Why a journal is refused, with the digests that differ.
fn open_refused(alloc: Global, fault: &OpenFault) -> Result<String, Fault> {
    let mut text = format!(in alloc; "refused: {fault}")?;
    match fault {
        OpenFault::Other { kept, ours } => add_digests(alloc, &mut text, kept, ours)?,
        OpenFault::Damaged { kept, found, .. } => add_digests(alloc, &mut text, kept, found)?,
        _ => {}
    }
    Ok(text)
}

/// Appends the digest that a file keeps and the one that it should have.
fn add_digests(
    alloc: Global,
    text: &mut String,
    kept: &[u8; 32],
    wanted: &[u8; 32],
) -> Result<(), Fault> {
    let (kept, wanted) = (hex::encode(alloc, kept)?, hex::encode(alloc, wanted)?);
    write!(
        text,
        ", {} where it has to keep {}",
        kept.as_str(),
        wanted.as_str()
    )?;
    Ok(())
}
