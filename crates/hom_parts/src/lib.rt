//! This crate tells whether rows are the parts of the reduction of a linear map's matrix. It does not make the matrix, so it takes
//! the memory of the rows and of a few vectors.
#![tactic(auto)]

mod parts;

pub use parts::are_parts_of;
