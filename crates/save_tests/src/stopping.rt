//! Runs over save files on disks in memory that are stopped at each call of the disk, and gone on with on each image.
use crate::files::{MAGIC, THEIRS, bytes, disk, sound_disk};
use bidegree::Range;
use edge::MemDisk;
use finite_module::Module;
use memory::Memory;
use resolution_step::resolve_alone;
use save_file::{ResumeFault, encode, resume};
use save_journal::OpenFault;
use square::{KeepFault, Table};
use std::alloc::Global;
use std::test::Fail;

/// The places of four squares, by row and degree above the bottom, in the order in which they are made.
const PLACES: [(u16, u16); 4] = [(0, 0), (0, 1), (1, 0), (1, 1)];

/// How many calls of an empty disk those squares take: four to open it, and four each.
const CALLS: u64 = 20;

/// The module whose files belong to `THEIRS`, which this number draws.
fn their_module(alloc: Global) -> Result<Module, Memory> {
    Module::sample(alloc, 12)
}

/// The table of those four squares, which are taken up from this disk or made and kept there, with how many were taken up, none
/// where the disk failed; and the disk.
fn resolved(
    alloc: Global,
    module: Module,
    disk: MemDisk,
) -> Result<(Option<(Table, u64)>, MemDisk), Fail> {
    match resume(alloc, module, disk) {
        Ok((table, keeper)) => {
            let count = (table.front(0) as u64).saturating_add(table.front(1) as u64);
            let (resolved, keeper) = resolve_alone(alloc, table, Range { s: 1, t: 1 }, keeper);
            let disk = keeper.into_disk();
            match resolved {
                Ok(table) => Ok((Some((table, count)), disk)),
                Err(KeepFault::Failed) => Ok((None, disk)),
                Err(KeepFault::Memory) => Err("out of memory".into()),
            }
        }
        Err((ResumeFault::Open(OpenFault::Failed), disk)) => Ok((None, disk)),
        Err(_) => Err("refused".into()),
    }
}

/// Whether a table has the four squares as another one has them, each with its quasi-inverse.
fn are_same(alloc: Global, table: &Table, whole: &Table) -> Result<bool, Fail> {
    let bottom = whole.module().bottom();
    for (s, above) in PLACES {
        let t = bottom + i32::from(above);
        let square = table.at(s, t).ok_or("a square is missing")?;
        let other = whole.at(s, t).ok_or("a square is missing")?;
        if square.kept_quasi().is_none() || encode(alloc, square)? != encode(alloc, other)? {
            return Ok(false);
        }
    }
    Ok(true)
}

/// How many squares an image has of an empty disk that was called so often: those that were acknowledged, and in image 1, which
/// has all that was written, also one whose gate was opened.
fn kept_after(calls: u64, pick: u64) -> u64 {
    let opened = calls > 4 && calls % 4 == 3 && pick == 1;
    calls.saturating_sub(4) / 4 + u64::from(opened)
}

/// What a run makes on an empty disk that does not fail: the table, and the disk.
fn finished(alloc: Global, module: Module) -> Result<(Table, MemDisk), Fail> {
    let (made, disk) = resolved(alloc, module, sound_disk(alloc, Vec::new(alloc))?)?;
    match made {
        Some((table, _)) => Ok((table, disk)),
        None => Err("not resolved".into()),
    }
}

/// The disk of a run that has to fail on it.
fn failed(alloc: Global, disk: MemDisk) -> Result<MemDisk, Fail> {
    match resolved(alloc, Module::sphere(alloc)?, disk)? {
        (None, disk) => Ok(disk),
        (Some(_), _) => Err("resolved".into()),
    }
}

/// What an empty disk has after so many calls, where the next one fails alone.
fn failed_once(alloc: Global, calls: u64) -> Result<MemDisk, Fail> {
    let failing = [calls.saturating_add(1)];
    failed(alloc, disk(alloc, Vec::new(alloc), &failing, u64::MAX)?)
}

/// What it has where all calls fail from there on.
fn failed_from_there(alloc: Global, calls: u64) -> Result<MemDisk, Fail> {
    failed(alloc, disk(alloc, Vec::new(alloc), &[], calls)?)
}

#[test]
fn failing_once_and_from_there_on(rt: HostRuntime) -> Result<(), Fail> {
    for calls in 0..CALLS {
        let once = failed_once(rt.alloc(), calls)?;
        assert!(rt; once.bytes() == failed_from_there(rt.alloc(), calls)?.bytes());
    }
    Ok(())
}

/// Whether this image has so many squares, and a run on it ends with this table and this file.
fn is_gone_on_with(
    alloc: Global,
    image: Vec<u8>,
    count: u64,
    whole: &Table,
    finished: &[u8],
) -> Result<bool, Fail> {
    let (made, ended) = resolved(alloc, Module::sphere(alloc)?, sound_disk(alloc, image)?)?;
    match made {
        Some((table, found)) => {
            Ok(found == count && ended.bytes() == finished && are_same(alloc, &table, whole)?)
        }
        None => Ok(false),
    }
}

/// Each image has the squares that were acknowledged, or one more.
#[test]
fn stops(rt: HostRuntime) -> Result<(), Fail> {
    let alloc = rt.alloc();
    let (whole, disk) = finished(alloc, Module::sphere(alloc)?)?;
    assert!(rt; disk.calls() == CALLS);
    for calls in 0..CALLS {
        let stopped = failed_once(alloc, calls)?;
        for pick in 0..3 {
            let image = stopped.image(alloc, pick)?;
            let count = kept_after(calls, pick);
            assert!(rt; is_gone_on_with(alloc, image, count, &whole, disk.bytes())?);
        }
    }
    Ok(())
}

/// Whether a run over this finished file of the other module, which stops after so many calls, has this table, or none and fails, and
/// leaves the file as it is. Four calls take it up, and no call keeps a square.
fn is_taken_up(alloc: Global, file: &[u8], calls: u64, whole: &Table) -> Result<bool, Fail> {
    let again = disk(alloc, file.to_vec(alloc)?, &[], calls)?;
    let (table, after) = resolved(alloc, their_module(alloc)?, again)?;
    let stays = after.bytes() == file;
    match table {
        Some((table, count)) => {
            Ok(stays && calls == 4 && count == 4 && are_same(alloc, &table, whole)?)
        }
        None => Ok(stays && calls < 4),
    }
}

/// A module whose bottom degree is 5.
#[test]
fn another_module(rt: HostRuntime) -> Result<(), Fail> {
    let alloc = rt.alloc();
    let (whole, disk) = finished(alloc, their_module(alloc)?)?;
    let first = bytes(alloc, &[MAGIC, THEIRS, "a5"])?;
    assert!(rt; disk.bytes().starts_with(first.as_slice()));
    for calls in 0..5 {
        assert!(rt; is_taken_up(alloc, disk.bytes(), calls, &whole)?);
    }
    Ok(())
}
