//! A disk taken for a file: whatever a disk tells, a disk over it as a file tells too.
use crate::calls::four_calls;
use edge::{Disk, FileDisk, MemDisk, RawFile};
use std::io::{self, ErrorKind};
use std::test::Fail;

/// A disk, by the calls of a file.
#[derive(Drop)]
struct DiskFile<D: Disk> {
    disk: D,
}

impl<D: Disk> RawFile for DiskFile<D> {
    ghost now = { λ f. D.now f.disk };

    ghost moment = { λ f. D.moment f.disk };

    ghost images = { λ f. D.images f.disk };

    ghost images_at = { λ f. D.images_at f.disk };

    ghost since = { λ f. D.since f.disk };

    fn len(&mut self) -> io::Result<u64> {
        match self.disk.len() {
            Ok(len) => Ok(len),
            Err(_) => Err(ErrorKind::Other.into()),
        }
    }

    fn read_exact_at(&mut self, into: &mut [u8], at: u64) -> io::Result<()> {
        match self.disk.read(at, into) {
            Ok(()) => Ok(()),
            Err(_) => Err(ErrorKind::Other.into()),
        }
    }

    fn write_all_at(&mut self, bytes: &[u8], at: u64) -> io::Result<()> {
        match self.disk.write_at(at, bytes) {
            Ok(()) => Ok(()),
            Err(_) => Err(ErrorKind::Other.into()),
        }
    }

    fn sync_all(&mut self) -> io::Result<()> {
        match self.disk.sync() {
            Ok(()) => Ok(()),
            Err(_) => Err(ErrorKind::Other.into()),
        }
    }

    ghost now_is_image = { λ f. D.now_is_image f.disk };

    ghost images_at_now = { λ f. D.images_at_now f.disk };

    ghost some_image = { λ f. D.some_image f.disk };

    ghost since_is = { λ f. D.since_is f.disk };

    ghost counts_now = { λ f. D.counts_now f.disk };

    ghost only_now = { λ f. D.only_now f.disk };

    ghost since_earlier = { λ f. D.since_earlier f.disk };
}

/// The calls fail where those of the file do, and give the file's bytes.
#[test]
fn a_disk_over_a_file_that_tells(rt: HostRuntime) -> Result<(), Fail> {
    let alloc = rt.alloc();
    let bytes = vec![in alloc; 1, 2, 3, 4]?;
    let failing = vec![in alloc; 6]?;
    let disk = MemDisk::new(alloc, bytes, 100, failing, 100)?;
    let mut disk = FileDisk::over(DiskFile { disk });
    assert_eq!(rt; disk.len(), Ok(4));
    assert_eq!(rt; four_calls(&mut disk), [true; 4]);
    assert!(rt; disk.sync().is_err());
    assert!(rt; disk.sync().is_ok());
    Ok(())
}
