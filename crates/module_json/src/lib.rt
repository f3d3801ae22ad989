//! Module files: a finite module over the mod 2 Steenrod algebra, written as JSON, is read, or the first thing
//! wrong with it is named.
//!
//! Numbers are those that `serde_json` answers, so `2.0` is no whole number, and `Sq004` is `Sq4`. Two actions of one square
//! on one generator are compared after names that stand twice in a sum have cancelled.
#![tactic(auto)]

mod action;
mod checks;
mod entry;
mod generator;
mod laws;
mod malformed;
mod space;
mod spec;

pub use laws::{file_is_unique, parts_are_unique};
pub use malformed::{Malformed, Place, What, Why};
pub use module_spec::{
    MAX_ACTIONS, MAX_DEGREE, MAX_FILE_BYTES, MAX_GENERATORS, MAX_SPAN, POWERS, Spec, is_degree,
    is_near, limits_are_these,
};
pub use spec::{read, read_parts};
