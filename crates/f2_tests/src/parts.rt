//! The tests of rows: by hand, and of the parts of reductions of many sizes.
use crate::samples::{SEED, seeded, written};
use f2_kernel::{are_parts, is_row_basis};
use f2_matrix::{Matrix, Reduced};
use memory::Memory;
use std::alloc::Global;
use std::test::Fail;

/// Whether the rows of length 3 are in reduced echelon form and none is zero.
fn are_basis(alloc: Global, rows: &[&str]) -> Result<bool, Memory> {
    let matrix = written(alloc, 3, rows)?;
    is_row_basis(alloc, matrix.cols(), matrix.rows())
}

#[test]
fn bases_by_hand(rt: HostRuntime) -> Result<(), Fail> {
    let alloc = rt.alloc();
    assert!(rt; are_basis(alloc, &[])?);
    assert!(rt; are_basis(alloc, &["101", "011"])?);
    // The pivot of the second row is not alone, the pivots do not rise, and a row is zero.
    assert!(rt; !are_basis(alloc, &["110", "011"])?);
    assert!(rt; !are_basis(alloc, &["011", "101"])?);
    assert!(rt; !are_basis(alloc, &["101", "000"])?);
    Ok(())
}

/// Whether these are the parts of the reduction of the rows.
fn are_parts_of(
    alloc: Global,
    rows: &Matrix,
    image: &Matrix,
    chosen: &Matrix,
    kernel: &Matrix,
) -> Result<bool, Memory> {
    let height = rows.rows().len();
    let fit = image.cols() == rows.cols() && chosen.cols() == height && kernel.cols() == height;
    if !fit || !is_row_basis(alloc, height, kernel.rows())? {
        return Ok(false);
    }
    are_parts(alloc, rows, image.rows(), chosen.rows(), kernel.rows())
}

/// Whether these are the parts of the reduction of the matrix with these rows of length 3.
fn have_parts(
    alloc: Global,
    rows: &[&str],
    image: &[&str],
    chosen: &[&str],
    kernel: &[&str],
) -> Result<bool, Memory> {
    let height = rows.len();
    let rows = written(alloc, 3, rows)?;
    let image = written(alloc, 3, image)?;
    let chosen = written(alloc, height, chosen)?;
    let kernel = written(alloc, height, kernel)?;
    are_parts_of(alloc, &rows, &image, &chosen, &kernel)
}

/// The first and the second, and their sum.
const ROWS: [&str; 3] = ["110", "011", "101"];

const IMAGE: [&str; 2] = ["101", "011"];

const CHOSEN: [&str; 2] = ["001", "010"];

#[test]
fn parts_by_hand(rt: HostRuntime) -> Result<(), Fail> {
    assert!(rt; have_parts(rt.alloc(), &ROWS, &IMAGE, &CHOSEN, &["111"])?);
    assert!(rt; have_parts(rt.alloc(), &["110", "011"], &IMAGE, &["11", "01"], &[])?);
    assert!(rt; have_parts(rt.alloc(), &["000"], &[], &[], &["1"])?);
    assert!(rt; have_parts(rt.alloc(), &[], &[], &[], &[])?);
    Ok(())
}

// A preimage with a 1 at the pivot of the relation, and preimages of the other rows; too few rows, one more, and a preimage too few.
#[test]
fn other_parts_by_hand(rt: HostRuntime) -> Result<(), Fail> {
    assert!(rt; !have_parts(rt.alloc(), &ROWS, &IMAGE, &["110", "010"], &["111"])?);
    assert!(rt; !have_parts(rt.alloc(), &ROWS, &IMAGE, &["010", "001"], &["111"])?);
    assert!(rt; !have_parts(rt.alloc(), &ROWS, &["101"], &["001"], &["111"])?);
    assert!(rt; !have_parts(rt.alloc(), &["110", "011"], &IMAGE, &["11", "01"], &["11"])?);
    assert!(rt; !have_parts(rt.alloc(), &ROWS, &IMAGE, &["001"], &["111"])?);
    Ok(())
}

// An image that is not reduced, one with a zero row, and no relation.
#[test]
fn images_and_relations_by_hand(rt: HostRuntime) -> Result<(), Fail> {
    let two = ["110", "011"];
    assert!(rt; !have_parts(rt.alloc(), &two, &two, &["10", "01"], &[])?);
    assert!(rt; !have_parts(rt.alloc(), &["000"], &["000"], &["1"], &[])?);
    assert!(rt; !have_parts(rt.alloc(), &ROWS, &IMAGE, &CHOSEN, &["110"])?);
    Ok(())
}

/// Whether the parts of the matrix's reduction pass the test.
fn reduction_passes(alloc: Global, matrix: &Matrix) -> Result<bool, Memory> {
    let reduced = Reduced::of(alloc, matrix)?;
    are_parts(
        alloc,
        matrix,
        reduced.image(),
        reduced.chosen(),
        reduced.kernel(),
    )
}

// Heights at which the products go by sums of 2 to 8 rows.
#[test]
fn reductions_pass(rt: HostRuntime) -> Result<(), Fail> {
    for height in [7, 100, 200, 400, 700, 1500, 2100] {
        assert!(rt; reduction_passes(rt.alloc(), &seeded(rt.alloc(), height, 70, 64, SEED)?)?);
    }
    Ok(())
}
