//! The step.
ghost use Rattle.std.specs.Prelude.{◌≡◌, IfOk};
ghost use Rattle.f2_vec.specs.Spans.{HaveWidth};
ghost use Rattle.f2_matrix.specs.Echelon.{IsReduced, HasNoZeroRow};
ghost use Rattle.free_module.specs.FreeModule.{IsWithinReach};
ghost use Rattle.free_module.specs.LinearMap.{AreImages};
ghost use Rattle.resolution_laws.specs.Resolution.{candidates_over};
ghost use Rattle.square.specs.Squares.{IsSquare, over};
ghost use Rattle.square.specs.Tables.{IsFooting};
ghost use Rattle.resolution_step.specs.Steps.{IsReducedStep, IsStepWith, IsStepOf};

use crate::units::unit_rows;
use f2_matrix::{Reduced, Rows};
use f2_vec::BitVec;
use free_hom::Hom;
use free_module::{Gens, Target};
use memory::Memory;
use milnor_basis::Basis;
use square::{Inputs, Square};
use std::alloc::Global;

/// The square that is the step on these inputs. It keeps the reduction of its matrix.
///
/// # Errors
/// `Memory` if allocation fails.
pub fn step(alloc: Global, inputs: &Inputs) -> Result<Square, Memory>
    ensures step { IfOk result (IsStepOf inputs.now) }
    ensures is_square { IfOk result IsSquare }
{
    let parts = parts_on(alloc, inputs)?;
    Ok(Square::reduced(inputs, parts.images, parts.quasi))
}

/// What a square holds: the images of its new generators, and the reduction of its matrix, which has its kernel rows.
#[derive(Drop)]
struct Parts {
    images: Vec<BitVec>,
    quasi: Reduced,
}

/// What the square that is the step on these inputs holds. The new generators have to cover the kernel of the square below,
/// or for row 0 all of the module.
fn parts_on(alloc: Global, inputs: &Inputs) -> Result<Parts, Memory>
    ensures is_footing { IsFooting inputs.now }
    ensures step { IfOk result (λ parts. IsStepWith inputs.now
        (record { images = parts.images.items; kernel = parts.quasi.kernel }) parts.quasi) }
{
    let t = inputs.t();
    match inputs.kernel_rows_below(alloc)? {
        Some(kernel) => parts_over(alloc, inputs, &kernel),
        None => {
            let units = unit_rows(alloc, inputs.module().dim_in(t))?;
            parts_over(alloc, inputs, &units)
        }
    }
}

/// The parts of the new square, if `candidates` are the vectors that d_s has to cover.
fn parts_over(alloc: Global, inputs: &Inputs, candidates: &Rows) -> Result<Parts, Memory>
    requires { candidates.now ≡ candidates_over (over inputs.now.resolved) inputs.now.below inputs.now.above }
    ensures is_footing { IsFooting inputs.now }
    ensures step { IfOk result (λ parts. IsStepWith inputs.now
        (record { images = parts.images.items; kernel = parts.quasi.kernel }) parts.quasi) }
{
    let t = inputs.t();
    let target = inputs.below(alloc)?;
    let source = inputs.generators(alloc)?;
    let images = inputs.images(alloc)?;
    reduced_step(
        alloc,
        inputs.basis(),
        &target,
        candidates,
        &source,
        images.as_slice(),
        t,
    )
}

/// The step in degree `t` over the generators `source` with these images. The candidates are the rows to cover, vectors of
/// degree `t` in `target`.
fn reduced_step<T: Target>(
    alloc: Global,
    basis: &Basis,
    target: &T,
    candidates: &Rows,
    source: &Gens,
    images: &[BitVec],
    t: i32,
) -> Result<Parts, Memory>
    requires images { AreImages (T.graded target.now) source.now images.now }
    requires widths { HaveWidth ((T.graded target.now).width t) candidates.now }
    requires reduced { IsReduced candidates.now }
    requires nonzero { HasNoZeroRow candidates.now }
    requires source_reach { IsWithinReach basis.now source.now t }
    requires target_reach { T.reaches target.now basis.now t }
    ensures { IfOk result (λ parts. IsReducedStep (T.graded target.now) source.now images.now candidates.now t
        (record { images = parts.images.items; kernel = parts.quasi.kernel }) parts.quasi) }
{
    let matrix = Hom::new(basis, source, target, images).matrix(alloc, t)?;
    let (images, quasi) = f2_choice::choose(alloc, matrix, candidates)?;
    Ok(Parts { images, quasi })
}
