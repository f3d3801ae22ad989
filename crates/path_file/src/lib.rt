//! The file at a path of the system, for a disk over it: how it is opened, and what is known of a call that failed.
#![tactic(auto)]

mod draft;
mod fault;
mod host_file;
mod path_file;
mod system_file;

pub use fault::{Call, Fault};
pub use host_file::{Access, HostFile};
pub use path_file::{KnowsFault, PathFile};
pub use system_file::SystemFile;
