//! Disks of tests: which calls fail, and rows worked by hand.
ghost use Rattle.std.specs.Prelude.{◌≡◌, [], ◌∷◌, IfOk};
ghost use Rattle.edge.specs.Inside.MemDisk.{opened};

use crate::calls::{four_calls, is_send, read_all};
use edge::{Disk, Failed, MemDisk};
use std::alloc::Global;
use std::test::Fail;

/// A disk that holds the byte 1.
fn disk(alloc: Global, room: usize, failing: &[u64], stop_after: u64) -> Result<MemDisk, Fail>
    ensures { IfOk result (λ disk. disk.history ≡ opened (1 ∷ [])) }
{
    let bytes = [1].to_vec(alloc)?;
    let failing = failing.to_vec(alloc)?;
    Ok(MemDisk::new(alloc, bytes, room, failing, stop_after)?)
}

/// The first number that picks another image than its row says.
fn wrong_image(alloc: Global, disk: &MemDisk, rows: &[(u64, &[u8])]) -> Result<Option<u64>, Fail> {
    for (pick, bytes) in rows {
        if disk.image(alloc, *pick)?.as_slice() != *bytes {
            return Ok(Some(*pick));
        }
    }
    Ok(None)
}

#[test]
fn images(rt: HostRuntime) -> Result<(), Fail> {
    let alloc = rt.alloc();
    let mut disk = disk(alloc, 100, &[], 100)?;
    is_send(&disk);
    assert_eq!(rt; disk.write_at(1, &[2]), Ok(()));
    let rows = [
        (0, [1].as_slice()),
        (1, [1, 2].as_slice()),
        (2, [1, 4].as_slice()),
        (255, [1, 1].as_slice()),
        (256, [1, 2].as_slice()),
        (259, [1, 5].as_slice()),
    ];
    assert_eq!(rt; wrong_image(alloc, &disk, &rows)?, None);
    assert_eq!(rt; disk.sync(), Ok(()));
    let synced = [1, 2];
    let rows = [
        (0, synced.as_slice()),
        (1, synced.as_slice()),
        (2, synced.as_slice()),
    ];
    assert_eq!(rt; wrong_image(alloc, &disk, &rows)?, None);
    assert_eq!(rt; disk.write_at(0, &[9, 5, 6]), Ok(()));
    let rows = [
        (0, synced.as_slice()),
        (1, [9, 5, 6].as_slice()),
        (250, [3, 255, 0].as_slice()),
    ];
    assert_eq!(rt; wrong_image(alloc, &disk, &rows)?, None);
    assert_eq!(rt;
        read_all(alloc, &mut disk)?.as_slice(),
        [9, 5, 6].as_slice()
    );
    assert_eq!(rt; disk.bytes(), [9, 5, 6].as_slice());
    assert_eq!(rt; (disk.calls(), disk.faults()), (5, 0));
    Ok(())
}

#[test]
fn calls_that_fail(rt: HostRuntime) -> Result<(), Fail> {
    let alloc = rt.alloc();
    for (room, failing, stop_after, done) in [
        (100, [].as_slice(), 100, [true, true, true, true]),
        (100, [3].as_slice(), 100, [true, true, false, true]),
        (100, [1, 4].as_slice(), 100, [false, true, true, false]),
        (100, [].as_slice(), 2, [true, true, false, false]),
        (100, [].as_slice(), 0, [false, false, false, false]),
        // The first byte, the two written and four calls are seven.
        (7, [].as_slice(), 100, [true, true, true, true]),
        (6, [].as_slice(), 100, [true, true, true, false]),
        (5, [].as_slice(), 100, [true, true, false, true]),
        (2, [].as_slice(), 100, [true, false, false, false]),
        (0, [].as_slice(), 100, [false, false, false, false]),
    ] {
        let mut disk = disk(alloc, room, failing, stop_after)?;
        assert_eq!(rt;
            four_calls(&mut disk),
            done,
            "in {room}, {stop_after} calls"
        );
        let [_, _, wrote, synced] = done;
        let written = if wrote {
            [1, 2, 3].as_slice()
        } else {
            [1].as_slice()
        };
        assert_eq!(rt; disk.bytes(), written);
        let kept = if synced { written } else { [1].as_slice() };
        assert_eq!(rt; disk.image(alloc, 0)?.as_slice(), kept);
        let faults = done.iter().filter(|ok| !**ok).count() as u64;
        assert_eq!(rt; (disk.calls(), disk.faults()), (4, faults));
    }
    let mut disk = disk(alloc, 100, &[1], 100)?;
    assert_eq!(rt; disk.write_at(0, &[7]), Err(Failed));
    assert_eq!(rt; disk.image(alloc, 1)?.as_slice(), [1].as_slice());
    Ok(())
}
