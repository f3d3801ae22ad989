//! The lines that say how many squares of a range are finished.
ghost use Rattle.std.specs.Prelude.{◌≡◌, ◌≤◌, false, IfOk, OnOk, OnErr};
ghost use Rattle.live_worker.specs.Reports.{live_line};
ghost use Rattle.live_worker.specs.Inside.Roles.{HasTold};

use edge::{Sink, write_all};
use itoa::Buffer;
use memory::Memory;
use std::alloc::Global;

/// What was reported on a sink: the last number of finished squares, and of how many, and whether the sink failed.
pub struct Reports<E: Sink> {
    pub err: E,
    pub most: u64,
    pub all: u64,
    pub failed: bool,
}

impl<E: Sink> Reports<E> {
    /// Reports this number of finished squares, if it is greater than the last one. After a fault of the sink nothing
    /// more is written.
    ///
    /// # Errors
    /// `Memory` if allocation fails; nothing is written then.
    pub fn tell(&mut self, alloc: Global, squares: u64) -> Result<(), Memory>
        requires { squares ≤ self.old.all }
        ensures told { HasTold E.written E.faults self.old self.new }
        ensures most { OnOk result (self.new.failed ≡ false → squares ≤ self.new.most) }
        ensures memory { OnErr result (self.new ≡ self.old) }
    {
        if self.failed || squares <= self.most {
            return Ok(());
        }
        let line = live_line(alloc, squares, self.all)?;
        self.most = squares;
        if write_all(&mut self.err, line.as_slice()).is_err() {
            self.failed = true;
        }
        Ok(())
    }
}

/// The line that says that so many of all squares are finished.
fn live_line(alloc: Global, squares: u64, all: u64) -> Result<Vec<u8>, Memory>
    ensures { IfOk result (λ line. line.items ≡ live_line all squares) }
{
    let mut buffer = Buffer::new();
    let mut line = Vec::from_slice(alloc, b"live ")?;
    line.extend_from_slice(buffer.format(squares).as_bytes())?;
    line.extend_from_slice(b" of ")?;
    line.extend_from_slice(buffer.format(all).as_bytes())?;
    line.push(b'\n')?;
    Ok(line)
}
