//! Tests of vectors, of matrices, of the choice of new rows, of kernels, and of the tests of rows.
#![tactic(auto)]

#[cfg(test)]
mod choices;
#[cfg(test)]
mod kernels;
#[cfg(test)]
mod matrices;
#[cfg(test)]
mod parts;
#[cfg(test)]
mod samples;
#[cfg(test)]
mod vectors;
