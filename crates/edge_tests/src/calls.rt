//! Calls that the tests share.
ghost use Rattle.std.specs.Prelude.{◌≤◌, length, IfSome};

use edge::Disk;
use std::alloc::Global;
use std::test::Fail;

/// Whether `len`, a read of one byte, a write of 2 and 3 at place 1 and a sync succeed, in this order.
pub(crate) fn four_calls<D: Disk>(disk: &mut D) -> [bool; 4]
    requires { IfSome (D.now disk.old) (λ file. 1 ≤ length file) }
{
    [
        disk.len().is_ok(),
        disk.read(0, &mut [0]).is_ok(),
        disk.write_at(1, &[2, 3]).is_ok(),
        disk.sync().is_ok(),
    ]
}

/// All that the disk holds.
#[tactic(auto, using(edge::proofs::Moments::where_told))]
pub(crate) fn read_all<D: Disk>(alloc: Global, disk: &mut D) -> Result<Vec<u8>, Fail> {
    let len = disk.len()?;
    let mut bytes = vec![in alloc; 0; len as usize]?;
    disk.read(0, &mut bytes)?;
    Ok(bytes)
}

/// What may be given to another thread.
pub(crate) fn is_send<T: Send>(_: &T) {}
