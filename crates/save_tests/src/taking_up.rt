//! Save files on disks in memory that are cut.
use crate::files::{MAGIC, OURS, QUASI, SECOND, SQUARE, bytes, sound_disk};
use edge::MemDisk;
use finite_module::Module;
use save_file::{ResumeFault, resume};
use save_journal::OpenFault;
use std::alloc::Global;
use std::test::Fail;

/// How many bytes the sphere's file of one square has.
const ONE: usize = 120;

/// How many bytes that of two squares has.
const TWO: usize = 199;

/// How many squares of row 0 the sphere's save file of these bytes has, or why it is refused; and the disk.
fn taken_up(alloc: Global, file: Vec<u8>) -> Result<(Result<usize, ResumeFault>, MemDisk), Fail> {
    let module = Module::sphere(alloc)?;
    Ok(match resume(alloc, module, sound_disk(alloc, file)?) {
        Ok((table, keeper)) => (Ok(table.front(0)), keeper.into_disk()),
        Err((fault, disk)) => (Err(fault), disk),
    })
}

/// Whether the sphere's file of these bytes, at most 41, is taken up without squares, and is then the one that has none.
fn is_begun(alloc: Global, file: &[u8]) -> Result<bool, Fail> {
    let (found, disk) = taken_up(alloc, file.to_vec(alloc)?)?;
    let after = bytes(alloc, &[MAGIC, OURS, "00"])?;
    Ok(found == Ok(0) && disk.bytes() == after.as_slice() && disk.image(alloc, 0)? == after)
}

/// Whether a longer one is refused so, and stays as it is.
fn is_refused(alloc: Global, file: &[u8], fault: OpenFault) -> Result<bool, Fail> {
    let (found, disk) = taken_up(alloc, file.to_vec(alloc)?)?;
    let stays = disk.bytes() == file && disk.image(alloc, 0)?.as_slice() == file;
    Ok(stays && found == Err(ResumeFault::Open(fault)))
}

#[test]
fn zeros(rt: HostRuntime) -> Result<(), Fail> {
    let zeros = [0; 100];
    for len in 0..42 {
        assert!(rt; is_begun(rt.alloc(), zeros.get(..len).unwrap_or(&[]))?);
    }
    for len in 42..100 {
        let file = zeros.get(..len).unwrap_or(&[]);
        assert!(rt; is_refused(rt.alloc(), file, OpenFault::NotSave)?);
    }
    Ok(())
}

/// How many bytes a file of two squares and of a quasi-inverse has.
const WHOLE: usize = 271;

/// The first bytes of that file, so many or all.
fn cut(alloc: Global, len: usize) -> Result<Vec<u8>, Fail> {
    let parts = [MAGIC, OURS, "a5", SQUARE, "a5", SECOND, "a5", QUASI, "00"];
    let mut file = bytes(alloc, &parts)?;
    if file.len() != WHOLE {
        return Err("a file of another length".into());
    }
    file.truncate(len);
    Ok(file)
}

/// Why a file of more than 41 bytes is refused that is cut after so many: by the record that is cut, with the place of its gate.
fn record_cut(len: usize) -> OpenFault {
    match len {
        ..ONE => OpenFault::Short {
            number: 0,
            place: 40,
        },
        ONE..TWO => OpenFault::Short {
            number: 1,
            place: 119,
        },
        _ => OpenFault::Short {
            number: 2,
            place: 198,
        },
    }
}

#[test]
fn cuts(rt: HostRuntime) -> Result<(), Fail> {
    for len in 0..42 {
        assert!(rt; is_begun(rt.alloc(), cut(rt.alloc(), len)?.as_slice())?);
    }
    for len in 42..WHOLE {
        let file = cut(rt.alloc(), len)?;
        assert!(rt; is_refused(rt.alloc(), file.as_slice(), record_cut(len))?);
    }
    Ok(())
}

/// The whole file has both squares, and stays as it is.
#[test]
fn not_cut(rt: HostRuntime) -> Result<(), Fail> {
    let (found, disk) = taken_up(rt.alloc(), cut(rt.alloc(), WHOLE)?)?;
    assert!(rt; found == Ok(2));
    assert!(rt; disk.bytes() == cut(rt.alloc(), WHOLE)?.as_slice());
    Ok(())
}
