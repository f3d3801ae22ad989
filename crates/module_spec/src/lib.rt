//! A finite module over the mod 2 Steenrod algebra by its generators and the squares on them, with the limits that both have.
#![tactic(auto)]

mod entry;
mod generator;
mod limits;
mod spec;

pub use entry::Entry;
pub use generator::Generator;
pub use limits::{
    MAX_ACTIONS, MAX_DEGREE, MAX_FILE_BYTES, MAX_GENERATORS, MAX_SPAN, POWERS, is_degree, is_near,
    limits_are_these,
};
pub use spec::Spec;
