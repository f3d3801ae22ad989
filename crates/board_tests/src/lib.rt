//! Tests of turns, of the machine of squares, of the board that several workers share, and of the workers.
#![tactic(auto)]

#[cfg(test)]
mod boards;
#[cfg(test)]
mod machines;
#[cfg(test)]
mod numbers;
#[cfg(test)]
mod turns;
#[cfg(test)]
mod workers;
