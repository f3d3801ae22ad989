//! Tests of modules that files describe.
#![tactic(auto)]

#[cfg(test)]
mod modules;
