//! The keeper of a run over its save file, which tells that each quasi-inverse that the file had stays there.
#![tactic(auto)]

mod keeping;

pub use keeping::RunFile;
