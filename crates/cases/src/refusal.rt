//! Why a text of cases is refused.
use memory::Memory;
use std::alloc::{AllocError, AllocFailed};
use thiserror::Error;

/// Why a text of cases is refused. Lines are counted from 1; line 0 is the whole text.
#[derive(Clone, Copy, Debug, PartialEq, Eq, Error)]
pub enum Fault {
    #[error("out of memory")]
    Memory,
    #[error("line {line}: {why}")]
    At { line: usize, why: &'static str },
}

impl From<Memory> for Fault {
    fn from(_: Memory) -> Self {
        Fault::Memory
    }
}

impl From<AllocError> for Fault {
    fn from(_: AllocError) -> Self {
        Fault::Memory
    }
}

impl<T: Drop> From<AllocFailed<T>> for Fault {
    fn from(_: AllocFailed<T>) -> Self {
        Fault::Memory
    }
}
