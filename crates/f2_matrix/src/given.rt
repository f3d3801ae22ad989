//! A reduction made of parts that were given. Surface: no run takes it; for it alone `Held` has rows that are not shared.
ghost use Rattle.std.specs.Prelude.{◌≡◌, length};
ghost use Rattle.f2_matrix.specs.Reduction.{IsReductionOf};
ghost use Rattle.f2_matrix.specs.Parts.{AreReductionParts};

use crate::held::Held;
use crate::matrix::Matrix;
use crate::reduced::Reduced;
use f2_vec::BitVec;

impl Reduced {
    /// The reduction of the matrix, which has these parts. Nothing is reduced, and no memory is taken.
    ///
    /// The image rows, of the matrix's width, and the kernel rows, with one coefficient for each row of the matrix, are
    /// reduced without zero rows, and together they are as many as the matrix has rows. Each kernel row is a vector of the
    /// kernel, and each chosen row is the preimage of its image row that is zero at the pivots of the kernel rows.
    pub fn from_parts(
        matrix: &Matrix,
        image: Vec<BitVec>,
        chosen: Vec<BitVec>,
        kernel: Vec<BitVec>,
    ) -> Reduced
        requires { AreReductionParts matrix.now.cols matrix.now.rows image.items chosen.items kernel.items }
        ensures parts { result
            ≡ record {
              cols = matrix.now.cols;
              height = length matrix.now.rows;
              image = image.items;
              chosen = chosen.items;
              kernel = kernel.items;
            } }
        ensures reduction { IsReductionOf matrix.now.cols matrix.now.rows result }
    {
        // The rows of a matrix have its width.
        let height = matrix.rows().len();
        Reduced {
            cols: matrix.cols(),
            height,
            image: Held::Given(image),
            chosen,
            kernel: Held::Given(kernel),
        }
    }
}
