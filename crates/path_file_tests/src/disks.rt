//! Folders of tests, and disks over files in them.
use edge::{Disk, FileDisk};
use path_file::{Access, Call, Fault, HostFile, PathFile};
use std::fs::File;
use std::io::ErrorKind;
use std::rt::Files;
use std::test::Fail;
use std::{env, fs, process};

/// A folder of its own for a test, by the process and a name, in the system's folder for such files.
pub(crate) fn test_folder(rt: &HostRuntime, name: &str) -> Result<String, Fail> {
    let name = format!(in rt.alloc(); "path-file-{}-{name}", process::id(rt.process()))?;
    let folder = env::temp_dir(rt)?
        .join(rt.alloc(), name.as_str())?
        .into_string();
    let _ = fs::remove_dir_all(rt, folder.as_str());
    fs::create_dir(rt, folder.as_str())?;
    Ok(folder)
}

/// A path in a folder.
pub(crate) fn path_in(rt: &HostRuntime, folder: &str, name: &str) -> Result<String, Fail> {
    Ok(format!(in rt.alloc(); "{folder}/{name}")?)
}

/// Whether the file at a path holds these bytes.
pub(crate) fn holds(rt: &HostRuntime, path: &str, bytes: &[u8]) -> Result<bool, Fail> {
    Ok(fs::read(rt, path)?.as_slice() == bytes)
}

/// A disk over the file of that path.
pub(crate) fn disk_at<'a, R: Files<File = File>>(
    files: &'a R,
    folder: &'a str,
    path: &'a str,
    access: Access,
) -> FileDisk<PathFile<HostFile<'a, R>>> {
    FileDisk::over(PathFile::new(HostFile::new(files, folder, path, access)))
}

/// Whether a write of 2 and 3 at place 1, a sync and `len` succeed, in this order.
pub(crate) fn three_calls<R: Files<File = File>>(
    disk: &mut FileDisk<PathFile<HostFile<R>>>,
) -> [bool; 3] {
    [
        disk.write_at(1, &[2, 3]).is_ok(),
        disk.sync().is_ok(),
        disk.len().is_ok(),
    ]
}

/// Whether the bytes from this place on are these.
pub(crate) fn reads<R: Files<File = File>>(
    disk: &mut FileDisk<PathFile<HostFile<R>>>,
    at: u64,
    bytes: &[u8; 2],
) -> bool {
    let mut into = [0; 2];
    disk.read(at, &mut into).is_ok() && into == *bytes
}

/// Whether the call that failed last is this one, for this reason.
pub(crate) fn failed(fault: Option<Fault>, call: Call, kind: ErrorKind) -> bool {
    match fault {
        Some(fault) => fault.call as u8 == call as u8 && fault.error.kind() == kind,
        None => false,
    }
}
