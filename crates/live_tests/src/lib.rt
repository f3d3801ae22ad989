//! Tests of the views of a board that a reader sees, and of runs with reports.
#![tactic(auto)]

#[cfg(test)]
mod runs;
#[cfg(test)]
mod views;
