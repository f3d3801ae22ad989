//! Choices from all unit vectors, and the kernels with what is chosen, against those that are written down.
ghost use Rattle.std.specs.Prelude.{◌≡◌, IfOk};

use crate::samples::{SEED, are_same, is_same, matrix_of, seeded};
use f2_kernel::{Kernel, choose};
use f2_matrix::{Matrix, Reduced};
use f2_vec::BitVec;
use memory::Memory;
use std::alloc::Global;
use std::test::Fail;

/// The reduction of all unit vectors of this length.
fn units(alloc: Global, n: usize) -> Result<Reduced, Memory>
    ensures { IfOk result (λ r. r.cols ≡ n) }
{
    let mut rows = Vec::new(alloc);
    for i in 0..n {
        rows.push(BitVec::unit(alloc, n, i)?)?;
    }
    Reduced::of(alloc, &matrix_of(n, rows))
}

/// The unit vectors that are chosen for the rows, and the reduction with them, which is written down.
fn chosen_with_units(alloc: Global, matrix: Matrix) -> Result<(Vec<BitVec>, Reduced), Memory> {
    let units = units(alloc, matrix.cols())?.image_rows(alloc)?;
    // So it is known that the rows are of the matrix's width.
    let _rows = matrix.rows();
    f2_choice::choose(alloc, matrix, &units)
}

/// Those that are chosen where the kernel is not written down.
fn chosen_in_all(alloc: Global, matrix: &Matrix) -> Result<(Vec<BitVec>, Kernel), Memory> {
    let all = Kernel::whole(alloc, matrix.cols())?;
    // As above.
    let _rows = matrix.rows();
    choose(alloc, matrix, &all)
}

/// Whether the kernel's basis is these rows.
fn has_rows(alloc: Global, kernel: &Kernel, rows: &[BitVec]) -> Result<bool, Memory> {
    let mut same = kernel.pivots().len() == rows.len();
    for i in 0..kernel.pivots().len() {
        same = same && i < rows.len() && is_same(&kernel.row(alloc, i)?, &rows[i]);
    }
    Ok(same)
}

/// Whether both choose the same vectors for rows that look random, with the same kernel.
fn agree(alloc: Global, height: usize, cols: usize, ones: u64) -> Result<bool, Memory> {
    let matrix = seeded(alloc, height, cols, ones, SEED)?;
    let (new, kernel) = chosen_in_all(alloc, &matrix)?;
    let (chosen, reduced) = chosen_with_units(alloc, matrix)?;
    Ok(are_same(new.as_slice(), chosen.as_slice()) && has_rows(alloc, &kernel, reduced.kernel())?)
}

// A kernel is held as one row for each column. Fewer than 256 are cleared one by one, and others by blocks.
#[test]
fn kernels_of_many_rows(rt: HostRuntime) -> Result<(), Fail> {
    assert!(rt; agree(rt.alloc(), 0, 0, 128)?);
    assert!(rt; agree(rt.alloc(), 5, 3, 128)?);
    assert!(rt; agree(rt.alloc(), 100, 64, 1)?);
    assert!(rt; agree(rt.alloc(), 300, 255, 128)?);
    assert!(rt; agree(rt.alloc(), 300, 256, 128)?);
    assert!(rt; agree(rt.alloc(), 340, 321, 3)?);
    Ok(())
}
