//! The few bytes that a run which only reads has written, for itself alone.
ghost use Rattle.std.specs.Prelude.{◌≤◌};

use std::io::{self, ErrorKind};

/// The most bytes of a draft.
const ROOM: usize = 64;

/// A short file in memory.
#[derive(Clone, Copy)]
pub(crate) struct Draft {
    bytes: [u8; 64],
    len: usize,
    ghost within: { len ≤ 64 },
}

impl Draft {
    /// One of these bytes.
    ///
    /// # Errors
    /// `StorageFull` if there is no room for them.
    pub(crate) fn of(bytes: &[u8]) -> io::Result<Draft> {
        if bytes.len() > ROOM {
            return Err(ErrorKind::StorageFull.into());
        }
        let mut held = [0; ROOM];
        held[..bytes.len()].copy_from_slice(bytes);
        Ok(Draft {
            bytes: held,
            len: bytes.len(),
        })
    }

    /// How many bytes it has.
    pub(crate) fn len(&self) -> u64 {
        self.len as u64
    }

    /// Fills `into` with its bytes from `at` on.
    ///
    /// # Errors
    /// `UnexpectedEof` if it has not so many.
    pub(crate) fn read_exact_at(&self, into: &mut [u8], at: u64) -> io::Result<()> {
        if at > self.len as u64 || into.len() > self.len - at as usize {
            return Err(ErrorKind::UnexpectedEof.into());
        }
        let at = at as usize;
        into.copy_from_slice(&self.bytes[at..at + into.len()]);
        Ok(())
    }
}
