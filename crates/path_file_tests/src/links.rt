//! What is no regular file is not opened, nor a link that leads nowhere; another link is followed.
use crate::disks::{disk_at, failed, path_in, test_folder, three_calls};
use path_file::{Access, Call, KnowsFault};
use std::fs;
use std::io::ErrorKind;
use std::test::Fail;

/// Whether no call of a disk over this path is done, since it is not opened for this reason.
fn is_refused(rt: &HostRuntime, folder: &str, path: &str, access: Access, kind: ErrorKind) -> bool {
    let mut disk = disk_at(rt, folder, path, access);
    three_calls(&mut disk) == [false; 3] && failed(disk.fault(), Call::Open, kind)
}

#[test]
fn a_folder(rt: HostRuntime) -> Result<(), Fail> {
    let folder = test_folder(&rt, "folder")?;
    let (at, kind) = (folder.as_str(), ErrorKind::NotSeekable);
    assert!(rt; is_refused(&rt, at, at, Access::Read, kind));
    assert!(rt; is_refused(&rt, at, at, Access::Write, kind));
    fs::remove_dir_all(&rt, at)?;
    Ok(())
}

#[test]
fn a_link(rt: HostRuntime) -> Result<(), Fail> {
    let folder = test_folder(&rt, "link")?;
    let file = path_in(&rt, folder.as_str(), "file")?;
    let link = path_in(&rt, folder.as_str(), "link")?;
    std::os::unix::fs::symlink(&rt, file.as_str(), link.as_str())?;
    let (at, kind) = (folder.as_str(), ErrorKind::NotFound);
    assert!(rt; is_refused(&rt, at, link.as_str(), Access::Read, kind));
    assert!(rt; is_refused(&rt, at, link.as_str(), Access::Write, kind));
    fs::write(&rt, file.as_str(), "012")?;
    assert!(rt; three_calls(&mut disk_at(&rt, at, link.as_str(), Access::Write)) == [true; 3]);
    fs::remove_dir_all(&rt, at)?;
    Ok(())
}
