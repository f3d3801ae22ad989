//! The step at one square.
ghost use Rattle.std.specs.Prelude.{◌≡◌, ℕ, ◌<◌, ◌++◌, replicate, length, IfOk};
ghost use Rattle.f2_vec.specs.Spans.{row as row_at, IsInSpan};
ghost use Rattle.f2_matrix.specs.Echelon.{IsKernelBasis};
ghost use Rattle.f2_choice.specs.Coordinates.{coordinates};
ghost use Rattle.free_module.specs.FreeModule.{IsWithinReach, free_width};
ghost use Rattle.free_module.specs.Graded.{free_graded};
ghost use Rattle.free_module.specs.LinearMap.{AreImages, map_rows};
ghost use Rattle.resolution_laws.specs.Resolution.{IsStepOver};

use crate::row::Row;
use f2_kernel::{Kernel, choose, choose_by_coordinates, kernel_of};
use f2_vec::BitVec;
use free_hom::Hom;
use free_module::{Gens, Target};
use memory::Memory;
use milnor_basis::Basis;
use std::alloc::Global;

/// The images of the new generators of a square, and its kernel.
#[derive(Drop)]
pub struct Made {
    pub images: Vec<BitVec>,
    pub kernel: Kernel,
}

/// The step in internal degree `t` over the generators of `row`, whose images are vectors of `target`. What has to be covered is `below`,
/// and each row of the matrix so far is a sum of its vectors.
///
/// # Errors
/// `Memory` if allocation fails.
pub(crate) fn step_over<T: Target>(
    alloc: Global,
    basis: &Basis,
    target: &T,
    below: &Kernel,
    row: &Row,
    t: i32,
) -> Result<Made, Memory>
    requires images { AreImages (T.graded target.now) row.now.degrees row.now.images }
    requires cols { below.now.cols ≡ (T.graded target.now).width t }
    requires covered { (i : ℕ) → i < length (map_rows (T.graded target.now) row.now.degrees row.now.images t) →
        IsInSpan ((T.graded target.now).width t) below.now.rows
        (row_at (map_rows (T.graded target.now) row.now.degrees row.now.images t) i) }
    requires source_reach { IsWithinReach basis.now row.now.degrees t }
    requires target_reach { T.reaches target.now basis.now t }
    ensures step { IfOk result
        (λ made. IsStepOver (T.graded target.now) row.now.degrees row.now.images below.now.rows t
        (record { images = made.images.items; kernel = made.kernel.rows })) }
    ensures cols { IfOk result
        (λ made. made.kernel.cols ≡ free_width (row.now.degrees ++ replicate (length made.images.items) t) t) }
{
    let matrix = Hom::new(basis, row.gens(), target, row.images()).matrix(alloc, t)?;
    prove!(below.cols() == matrix.cols());
    let (images, kernel) = choose(alloc, &matrix, below)?;
    Ok(Made { images, kernel })
}

/// The step in internal degree `t` over the generators of `row`, whose images are vectors of the free module on
/// `under`. What has to be covered is `below`, and each row of the matrix so far is a sum of its vectors. That matrix is
/// not made.
///
/// # Errors
/// `Memory` if allocation fails.
pub(crate) fn step_over_free(
    alloc: Global,
    basis: &Basis,
    under: &Gens,
    below: &Kernel,
    row: &Row,
    t: i32,
) -> Result<Made, Memory>
    requires images { AreImages (free_graded under.now) row.now.degrees row.now.images }
    requires cols { below.now.cols ≡ free_width under.now t }
    requires covered { (i : ℕ) → i < length (map_rows (free_graded under.now) row.now.degrees row.now.images t) →
        IsInSpan (free_width under.now t) below.now.rows
        (row_at (map_rows (free_graded under.now) row.now.degrees row.now.images t) i) }
    requires source_reach { IsWithinReach basis.now row.now.degrees t }
    requires target_reach { IsWithinReach basis.now under.now t }
    ensures step { IfOk result
        (λ made. IsStepOver (free_graded under.now) row.now.degrees row.now.images below.now.rows t
        (record { images = made.images.items; kernel = made.kernel.rows })) }
    ensures cols { IfOk result
        (λ made. made.kernel.cols ≡ free_width (row.now.degrees ++ replicate (length made.images.items) t) t) }
{
    // What is known of the vectors of `below`.
    let _cols = below.cols();
    let (height, form) = coordinates_on(alloc, basis, under, below, row, t)?;
    let (images, kernel) = choose_by_coordinates(alloc, height, form, below)?;
    Ok(Made { images, kernel })
}

/// The kernel, in internal degree `t`, of the map that takes the generators of `row` to its images, vectors of `target`.
///
/// # Errors
/// `Memory` if allocation fails.
pub(crate) fn kernel_over<T: Target>(
    alloc: Global,
    basis: &Basis,
    target: &T,
    row: &Row,
    t: i32,
) -> Result<Kernel, Memory>
    requires images { AreImages (T.graded target.now) row.now.degrees row.now.images }
    requires source_reach { IsWithinReach basis.now row.now.degrees t }
    requires target_reach { T.reaches target.now basis.now t }
    ensures cols { IfOk result (λ k. k.cols ≡ free_width row.now.degrees t) }
    ensures kernel { IfOk result (λ k. IsKernelBasis ((T.graded target.now).width t)
        (map_rows (T.graded target.now) row.now.degrees row.now.images t) k.rows) }
{
    let matrix = Hom::new(basis, row.gens(), target, row.images()).matrix(alloc, t)?;
    kernel_of(alloc, &matrix)
}

/// The kernel, in internal degree `t`, of the map that takes the generators of `row` to its images, vectors of the free
/// module on `under`. The columns of its matrix are made, and its rows are not.
///
/// # Errors
/// `Memory` if allocation fails.
pub(crate) fn kernel_over_free(
    alloc: Global,
    basis: &Basis,
    under: &Gens,
    row: &Row,
    t: i32,
) -> Result<Kernel, Memory>
    requires images { AreImages (free_graded under.now) row.now.degrees row.now.images }
    requires source_reach { IsWithinReach basis.now row.now.degrees t }
    requires target_reach { IsWithinReach basis.now under.now t }
    ensures cols { IfOk result (λ k. k.cols ≡ free_width row.now.degrees t) }
    ensures kernel { IfOk result (λ k. IsKernelBasis (free_width under.now t)
        (map_rows (free_graded under.now) row.now.degrees row.now.images t) k.rows) }
{
    let Ok(width) = usize::try_from(under.dim(basis, t)) else {
        // No memory holds a vector of that length.
        return Err(Memory);
    };
    // On all vectors the coordinates are the columns.
    let all = Kernel::whole(alloc, width)?;
    let (height, columns) = coordinates_on(alloc, basis, under, &all, row, t)?;
    Kernel::of_columns(alloc, height, columns)
}

/// How many rows the matrix in degree `t` of the map has that takes the generators of `row` to its images, and their
/// coordinates on the vectors of `below`: for each of these the coefficients of the rows, with the last row first. They
/// are the columns at its pivots, which alone are made.
///
/// # Errors
/// `Memory` if allocation fails.
fn coordinates_on(
    alloc: Global,
    basis: &Basis,
    under: &Gens,
    below: &Kernel,
    row: &Row,
    t: i32,
) -> Result<(usize, Vec<BitVec>), Memory>
    requires images { AreImages (free_graded under.now) row.now.degrees row.now.images }
    requires cols { below.now.cols ≡ free_width under.now t }
    requires source_reach { IsWithinReach basis.now row.now.degrees t }
    requires target_reach { IsWithinReach basis.now under.now t }
    ensures height { IfOk result
        (λ r. r.0 ≡ length (map_rows (free_graded under.now) row.now.degrees row.now.images t)) }
    ensures form { IfOk result (λ r. r.1.items ≡ coordinates below.now.rows
        (map_rows (free_graded under.now) row.now.degrees row.now.images t)) }
{
    // What is known of the vectors of `below`.
    let _cols = below.cols();
    let hom = Hom::new(basis, row.gens(), under, row.images());
    let height = hom.height(t)?;
    let form = hom.columns_at(alloc, t, below.pivots())?;
    Ok((height, form))
}
