//! Runs that only read make no file, and change none; they have it beside one another.
use crate::disks::{disk_at, failed, holds, path_in, reads, test_folder};
use edge::{Disk, Failed};
use path_file::{Access, Call, KnowsFault};
use std::fs;
use std::io::ErrorKind;
use std::test::Fail;

#[test]
fn no_file_is_made(rt: HostRuntime) -> Result<(), Fail> {
    let folder = test_folder(&rt, "none")?;
    let path = path_in(&rt, folder.as_str(), "file")?;
    let mut disk = disk_at(&rt, folder.as_str(), path.as_str(), Access::Read);
    assert!(rt; disk.len() == Ok(0));
    assert!(rt; disk.write_at(0, b"abcd") == Ok(()));
    assert!(rt; disk.sync() == Ok(()));
    assert!(rt; !fs::exists(&rt, path.as_str())?);
    assert!(rt; reads(&mut disk, 2, b"cd"));
    assert!(rt; !reads(&mut disk, 3, b"d\0"));
    fs::remove_dir_all(&rt, folder.as_str())?;
    Ok(())
}

#[test]
fn two_runs_that_read(rt: HostRuntime) -> Result<(), Fail> {
    let folder = test_folder(&rt, "read")?;
    let path = path_in(&rt, folder.as_str(), "file")?;
    fs::write(&rt, path.as_str(), "012")?;
    let mut one = disk_at(&rt, folder.as_str(), path.as_str(), Access::Read);
    let mut other = disk_at(&rt, folder.as_str(), path.as_str(), Access::Read);
    assert!(rt; one.len() == Ok(3));
    assert!(rt; other.len() == Ok(3));
    assert!(rt; one.write_at(0, b"ab") == Err(Failed));
    assert!(rt; failed(one.fault(), Call::Write, ErrorKind::PermissionDenied));
    assert!(rt; other.write_at(0, b"abc") == Ok(()));
    assert!(rt; holds(&rt, path.as_str(), b"012")?);
    fs::remove_dir_all(&rt, folder.as_str())?;
    Ok(())
}
