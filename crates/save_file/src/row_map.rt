//! What the matrix of d_s is made from, row by row.
ghost use Rattle.f2_vec.specs.Spans.{HaveWidth};
ghost use Rattle.free_module.specs.FreeModule.{IsWithinReach};
ghost use Rattle.free_module.specs.LinearMap.{AreImages};
ghost use Rattle.square.specs.Below.{graded_of, reaches_of};
ghost use Rattle.square.specs.Squares.{target_width, over};
ghost use Rattle.save_file.specs.Inside.Reach.{reaches_of-prop};

use f2_vec::BitVec;
use free_module::Gens;
use milnor_basis::Basis;
use square::{Below, Inputs};

/// What the next square of a row is made from, and the images of its generators.
#[derive(Drop)]
pub(crate) struct RowMap {
    pub(crate) inputs: Inputs,
    pub(crate) images: Vec<BitVec>,
    ghost widths: { HaveWidth (target_width (over inputs.resolved) inputs.below inputs.squares) images.items },
}

/// The map d_s in the degree of a square that is there, with the square's generators.
#[derive(Drop)]
pub(crate) struct SquareMap<'a> {
    pub(crate) basis: &'a Basis,
    pub(crate) target: Below<'a>,
    pub(crate) gens: Gens,
    pub(crate) images: Vec<BitVec>,
    pub(crate) t: i32,
    ghost are_images: { AreImages (graded_of target) gens images.items },
    ghost source_reaches: { IsWithinReach basis.now gens t },
    ghost target_reaches: { reaches_of target basis.now t } by { reaches_of-prop target basis.now t },
}
