//! Tests of whole runs that no data shows: each call of a stream or a disk fails in turn, each byte of a file is changed in turn, two
//! workers have to work at once, and `run_one` answers in place of `run`. The cases of `ext_cases` have all others.
#![tactic(auto)]

#[cfg(test)]
mod alone;
#[cfg(test)]
mod bytes;
#[cfg(test)]
mod live;
#[cfg(test)]
mod runs;
#[cfg(test)]
mod stops;
#[cfg(test)]
mod streams;
#[cfg(test)]
mod workers;
