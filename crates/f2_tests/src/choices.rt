//! Small choices by hand.
ghost use Rattle.std.specs.Prelude.{◌≡◌, IfOk};

use crate::samples::{are_written, written};
use f2_choice::choose;
use f2_matrix::Reduced;
use f2_vec::BitVec;
use memory::Memory;
use std::alloc::Global;
use std::test::Fail;

/// The reduction of the candidates.
fn reduced(alloc: Global, candidates: &[&str]) -> Result<Reduced, Memory>
    ensures { IfOk result (λ r. r.cols ≡ 3) }
{
    Reduced::of(alloc, &written(alloc, 3, candidates)?)
}

/// What is chosen from the reduced rows that the candidates give, for these rows, and the reduction then.
fn chosen_for(
    alloc: Global,
    rows: &[&str],
    candidates: &[&str],
) -> Result<(Vec<BitVec>, Reduced), Memory> {
    let candidates = reduced(alloc, candidates)?.image_rows(alloc)?;
    let matrix = written(alloc, 3, rows)?;
    // So it is known that they are of the matrix's width.
    let _rows = matrix.rows();
    choose(alloc, matrix, &candidates)
}

/// Whether from the candidates these new ones are chosen, and these are the chosen preimages and the kernel.
fn is_chosen(
    alloc: Global,
    rows: &[&str],
    candidates: &[&str],
    new: &[&str],
    preimages: &[&str],
    kernel: &[&str],
) -> Result<bool, Memory> {
    let (chosen, reduced) = chosen_for(alloc, rows, candidates)?;
    Ok(
        are_written(chosen.as_slice(), new)
            && are_written(reduced.chosen(), preimages)
            && are_written(reduced.kernel(), kernel),
    )
}

const UNITS: [&str; 3] = ["100", "010", "001"];

// 100 is new; 010 and 001 are sums then.
#[test]
fn one_new(rt: HostRuntime) -> Result<(), Fail> {
    let preimages = ["001", "101", "111"];
    assert!(rt;
        is_chosen(
            rt.alloc(),
            &["110", "011"],
            &UNITS,
            &["100"],
            &preimages,
            &[]
        )?
    );
    Ok(())
}

// A row twice: the preimages have no row at the place where the relation begins.
#[test]
fn a_row_twice(rt: HostRuntime) -> Result<(), Fail> {
    let (rows, new) = (["110", "110"], ["100", "001"]);
    let preimages = ["0010", "0110", "0001"];
    assert!(rt; is_chosen(rt.alloc(), &rows, &UNITS, &new, &preimages, &["1100"])?);
    Ok(())
}

// Without rows all candidates are new. Then there are no candidates, and a row of zeros; and a row that is no sum of candidates.
#[test]
fn others(rt: HostRuntime) -> Result<(), Fail> {
    assert!(rt; is_chosen(rt.alloc(), &[], &UNITS, &UNITS, &UNITS, &[])?);
    assert!(rt; is_chosen(rt.alloc(), &["000"], &[], &[], &[], &["1"])?);
    assert!(rt; is_chosen(rt.alloc(), &["001"], &["110"], &["110"], &["01", "10"], &[])?);
    Ok(())
}
