//! Tests of Milnor's basis and product, of free modules and maps from them, and of Steenrod's squares.
#![tactic(auto)]

#[cfg(test)]
mod bases;
#[cfg(test)]
mod conversions;
#[cfg(test)]
mod free_modules;
#[cfg(test)]
mod maps;
#[cfg(test)]
mod products;
#[cfg(test)]
mod written;
