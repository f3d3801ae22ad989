//! The images of the generators of a canonical resolution, made by several workers at a board of squares.
#![tactic(auto)]

mod by_workers;
mod inputs;
mod laws;
mod on_board;
mod stock;

pub use by_workers::{images_by, images_in_stems_by};
pub use inputs::{ImageInputs, ImageSubject, MadeImages};
pub use laws::images_are_unique;
pub use stock::ImageStock;
