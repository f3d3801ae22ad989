//! A file that another run has.
use crate::disks::{disk_at, path_in, test_folder, three_calls};
use edge::Disk;
use path_file::{Access, KnowsFault};
use std::fs;
use std::test::Fail;

/// While one run has the file no other does, and it knows why.
#[test]
fn a_file_that_another_run_has(rt: HostRuntime) -> Result<(), Fail> {
    let folder = test_folder(&rt, "held")?;
    let path = path_in(&rt, folder.as_str(), "file")?;
    let mut disk = disk_at(&rt, folder.as_str(), path.as_str(), Access::Write);
    assert!(rt; disk.write_at(0, b"abcdef") == Ok(()));
    let mut again = disk_at(&rt, folder.as_str(), path.as_str(), Access::Write);
    assert!(rt; three_calls(&mut again) == [false; 3]);
    assert!(rt; again.fault().is_some_and(|fault| fault.is_held()));
    let mut reader = disk_at(&rt, folder.as_str(), path.as_str(), Access::Read);
    assert!(rt; three_calls(&mut reader) == [false; 3]);
    drop(disk);
    assert!(rt; again.len() == Ok(6));
    fs::remove_dir_all(&rt, folder.as_str())?;
    Ok(())
}
