//! Tests of lifts.
#![tactic(auto)]

#[cfg(test)]
mod lifts;
#[cfg(test)]
mod tables;
