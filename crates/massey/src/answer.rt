//! Brackets.
use f2_matrix::Matrix;
use f2_vec::BitVec;

/// A bracket: its square (s, t); the value that is zero at the pivots of the indeterminacy, with a coordinate for each generator of the
/// square; and the echelon rows of the indeterminacy.
#[derive(Debug, Drop)]
pub struct Bracket {
    pub s: i32,
    pub t: i32,
    pub value: BitVec,
    pub indeterminacy: Matrix,
}
