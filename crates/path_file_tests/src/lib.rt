//! Tests of files of the system.
#![tactic(auto)]

#[cfg(test)]
mod disks;
#[cfg(test)]
mod held;
#[cfg(test)]
mod links;
#[cfg(test)]
mod read_alone;
#[cfg(test)]
mod written;
