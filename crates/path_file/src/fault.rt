//! What is known of a call of the system that failed.
ghost use Rattle.std.specs.Prelude.{◌≡◌};

use std::io::{Error, ErrorKind};

/// What the system was asked for.
#[derive(Clone, Copy)]
pub enum Call {
    /// To open the file, or to make it.
    Open,
    /// For the lock on it.
    Lock,
    /// For its length.
    Measure,
    /// To read from it.
    Read,
    /// To write into it.
    Write,
    /// To keep it over a crash; or its name, where it was made.
    Sync,
}

/// A call that failed, with the system's error.
#[derive(Clone, Copy)]
pub struct Fault {
    pub call: Call,
    pub error: Error,
}

impl Fault {
    ghost use Rattle.path_file.specs.Faults.{is_held};

    /// Whether another open of the file has its lock.
    pub fn is_held(&self) -> bool
        ensures { result ≡ is_held self.now }
    {
        match self.call {
            Call::Lock => matches!(self.error.kind(), ErrorKind::WouldBlock),
            _ => false,
        }
    }
}
