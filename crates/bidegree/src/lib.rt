//! Bidegrees of a resolution: how far they go, in which shape, classes that stand there, and degrees above a bottom degree.
#![tactic(auto)]

mod above;
mod class;
mod place;
mod range;
mod shape;

pub use above::above_of;
pub use class::Class;
pub use place::Place;
pub use range::{MAX_S, MAX_T, Range, limits_are_these};
pub use shape::Shape;
