//! Tests of disks, of sources and sinks, and of texts of cases.
#![tactic(auto)]

#[cfg(test)]
mod calls;
#[cfg(test)]
mod case_texts;
#[cfg(test)]
mod memory_disks;
#[cfg(test)]
mod raw_files;
#[cfg(test)]
mod streams;
