//! The output of `build`: the module file of what is built of the modules that a source's bytes describe.
#![tactic(auto)]

mod building;

pub use building::built_text;
