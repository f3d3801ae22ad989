//! Tests of save files whose disks fail at each call, and of files that are cut at each length.
#![tactic(auto)]

#[cfg(test)]
mod files;
#[cfg(test)]
mod stopping;
#[cfg(test)]
mod taking_up;
