//! Vectors over the field with two elements, packed in words.
#![tactic(auto)]

mod bit_vec;
mod block;
mod fault;
mod packing;
mod words;

pub use bit_vec::BitVec;
pub use block::transposed_block;
pub use fault::BitsFault;
