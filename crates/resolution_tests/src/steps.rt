//! What no clause says: that there is memory for each call. The sphere's chart is known.
use crate::squares::is_one_row;
use bidegree::Range;
use finite_module::Module;
use memory::Memory;
use resolution_step::{resolve_alone, resolved, step};
use square::{KeepFault, MemKeep, NoKeep, Table};
use std::test::Fail;

// How many generators a square has, none where the square is not there.
fn generators(table: &Table, s: u16, t: i32) -> Option<usize> {
    let square = table.at(s, t)?;
    Some(square.gens().len())
}

// Whether row `s` has these generators from stem 0 through degree 8, one where there is a 1, and none before stem 0.
fn is_row(table: &Table, s: u16, row: &str) -> bool {
    let stem_0 = i32::from(s);
    for t in 0..stem_0 {
        if generators(table, s, t) != Some(0) {
            return false;
        }
    }
    (stem_0..9).zip(row.bytes()).all(|(t, digit)| generators(table, s, t)
        == Some(if digit == b'1' { 1 } else { 0 }))
}

#[test]
fn the_first_square_of_the_sphere(rt: HostRuntime) -> Result<(), Fail> {
    let alloc = rt.alloc();
    let table = Table::new(alloc, Module::sphere(alloc)?)?;
    let inputs = table.inputs(alloc, 0, 0)?;
    let square = step(alloc, &inputs)?;
    assert!(rt; is_one_row(square.gens()));
    assert_eq!(rt; square.kernel().len(), 0);
    match square.kept_quasi() {
        Some(quasi) => assert!(rt; is_one_row(quasi.image()) && is_one_row(quasi.chosen())),
        None => assert!(rt; false),
    }
    Ok(())
}

#[test]
fn the_sphere(rt: HostRuntime) -> Result<(), Fail> {
    let alloc = rt.alloc();
    let table = resolved(alloc, Module::sphere(alloc)?, Range { s: 2, t: 3 }, None)?;
    let Ok(table) = resolve_alone(alloc, table, Range { s: 4, t: 8 }, NoKeep).0 else {
        return Err(Memory)?;
    };
    for (s, row) in [
        (0, "1........"),
        (1, "11.1...1"),
        (2, "1.11..1"),
        (3, "1..1.."),
        (4, "1...."),
    ] {
        assert!(rt; table.front(s) == 9 && is_row(&table, s, row), "in row {s}");
    }
    assert_eq!(rt; table.front(5), 0);
    Ok(())
}

#[test]
fn a_keeper_that_fails(rt: HostRuntime) -> Result<(), Fail> {
    let alloc = rt.alloc();
    let table = Table::new(alloc, Module::sphere(alloc)?)?;
    let mut failing = Vec::new(alloc);
    failing.push(3)?;
    let keeper = MemKeep::new(alloc, failing)?;
    let (resolved, keeper) = resolve_alone(alloc, table, Range { s: 4, t: 8 }, keeper);
    assert!(rt; matches!(resolved, Err(KeepFault::Failed)));
    assert!(rt; !keeper.is_live());
    Ok(())
}
