//! Tests of squares, their tables and keepers, of the step, and of certificates.
#![tactic(auto)]

#[cfg(test)]
mod certificates;
#[cfg(test)]
mod images;
#[cfg(test)]
mod squares;
#[cfg(test)]
mod steps;
