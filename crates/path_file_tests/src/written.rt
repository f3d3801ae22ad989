//! A file that a run writes.
use crate::disks::{disk_at, failed, holds, path_in, reads, test_folder, three_calls};
use edge::{Disk, Failed};
use path_file::{Access, Call, KnowsFault};
use std::fs;
use std::io::ErrorKind;
use std::test::Fail;

/// What may be given to another thread.
fn is_send<T: Send>(_: &T) {}

/// It is made at the first call.
#[test]
fn a_file_that_is_written(rt: HostRuntime) -> Result<(), Fail> {
    let folder = test_folder(&rt, "written")?;
    let path = path_in(&rt, folder.as_str(), "file")?;
    let mut disk = disk_at(&rt, folder.as_str(), path.as_str(), Access::Write);
    is_send(&disk);
    assert!(rt; !fs::exists(&rt, path.as_str())?);
    assert!(rt; disk.len() == Ok(0));
    assert!(rt; disk.write_at(0, b"abcd") == Ok(()));
    assert!(rt; three_calls(&mut disk) == [true; 3]);
    assert!(rt; disk.write_at(4, b"ef") == Ok(()));
    assert!(rt; reads(&mut disk, 3, b"de"));
    drop(disk);
    assert!(rt; holds(&rt, path.as_str(), b"a\x02\x03def")?);
    fs::remove_dir_all(&rt, folder.as_str())?;
    Ok(())
}

/// The longest file has 2^63 - 1 bytes.
#[test]
fn places_past_the_end(rt: HostRuntime) -> Result<(), Fail> {
    let folder = test_folder(&rt, "past")?;
    let path = path_in(&rt, folder.as_str(), "file")?;
    let mut disk = disk_at(&rt, folder.as_str(), path.as_str(), Access::Write);
    assert!(rt; disk.write_at(u64::MAX, b"") == Err(Failed));
    assert!(rt; disk.write_at((1 << 63) - 1, b"a") == Err(Failed));
    assert!(rt; disk.write_at((1 << 63) - 1, b"") == Ok(()));
    assert!(rt; disk.fault().is_none());
    assert!(rt; !reads(&mut disk, 0, b"ab"));
    assert!(rt; failed(disk.fault(), Call::Read, ErrorKind::UnexpectedEof));
    fs::remove_dir_all(&rt, folder.as_str())?;
    Ok(())
}
