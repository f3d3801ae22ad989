//! The edge to the outside: where a run reads its input and writes its answer, and what keeps bytes over a crash.
#![tactic(auto)]

mod disk;
mod faults;
mod file_disk;
mod history;
mod memory_disk;
mod raw_file;
mod reading;
mod sink;
mod source;
mod standard;

pub use disk::Disk;
pub use faults::Failed;
pub use file_disk::FileDisk;
pub use memory_disk::MemDisk;
pub use raw_file::RawFile;
pub use reading::{ReadFault, read_through};
pub use sink::{MemSink, Sink, write_all};
pub use source::{MemSource, Source};
pub use standard::{StdSink, StdSource};
