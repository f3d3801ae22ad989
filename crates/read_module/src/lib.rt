//! The module that a source's bytes describe, as each command reads it that has one: read as a module file, and checked.
#![tactic(auto)]

mod input;

pub use input::{module_of, most_read, read_module};
