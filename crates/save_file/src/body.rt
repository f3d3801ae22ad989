//! What a body of a save file stands for.
use f2_matrix::Reduced;
use square::Square;

/// What was read of a body: a square, or a quasi-inverse for a square that is there.
#[derive(Drop)]
pub enum Body {
    /// A square, with its quasi-inverse if the body has one.
    Square(Square),
    /// The quasi-inverse of the square in row `s` and of degree `t`.
    Quasi {
        /// The square's row.
        s: u16,
        /// Its internal degree.
        t: i32,
        /// The reduction of the matrix of d_s in that degree.
        quasi: Reduced,
    },
}
