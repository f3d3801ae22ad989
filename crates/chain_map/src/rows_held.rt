//! Rows of a resolution that are at hand.
use resolution_images::Images;
use square::Table;

/// The rows of a resolution that are at hand: squares with their kernels, or images alone, of all squares of a rectangle.
#[derive(Clone, Copy)]
pub enum Held<'a> {
    Squares(&'a Table),
    Images(&'a Images),
}
