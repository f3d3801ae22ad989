//! The images of the generators of a canonical resolution, made degree by degree, without its kernels. Only the kernel of the last
//! square is at hand, as a form from which its vectors are made when they are asked for.
#![tactic(auto)]

mod resolve;
mod row;
mod step;

pub use resolve::{Column, Extent, Images, degree, empty_rows, images_alone, images_in_stems};
pub use row::Row;
pub use step::Made;
