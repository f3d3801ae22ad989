//! Tables that certify a range, and tables that do not. The modules are the sphere's and two cells, whose bottom is 5.
use crate::squares::one_row;
use bidegree::Range;
use cert_check::{CertFault, verify};
use finite_module::Module;
use memory::Memory;
use resolution_step::{resolve_alone, resolved};
use square::{NoKeep, Square, Table};
use std::alloc::Global;
use std::sync::Arc;
use std::test::Fail;

// The module that this number draws: generators in degrees 5 and 6, of which Sq1 takes the first to the second.
fn two_cells(alloc: Global) -> Result<Module, Memory> {
    Module::sample(alloc, 12)
}

// Whether the table certifies each range within this one.
fn certifies_all_within(table: &Table, range: Range) -> bool {
    for s in 0..=range.s {
        for t in 0..=range.t {
            if verify(table, Range { s, t }).is_err() {
                return false;
            }
        }
    }
    true
}

#[test]
fn tables_that_were_made(rt: HostRuntime) -> Result<(), Fail> {
    let alloc = rt.alloc();
    let range = Range { s: 3, t: 7 };
    let sphere = resolved(alloc, Module::sphere(alloc)?, range, None)?;
    assert!(rt; certifies_all_within(&sphere, range));
    let cells = resolved(alloc, two_cells(alloc)?, range, None)?;
    assert!(rt; certifies_all_within(&cells, range));
    Ok(())
}

#[test]
fn squares_that_are_missing(rt: HostRuntime) -> Result<(), Fail> {
    let alloc = rt.alloc();
    let table = Table::new(alloc, two_cells(alloc)?)?;
    assert_eq!(rt;
        verify(&table, Range { s: 0, t: 0 }),
        Err(CertFault::Missing { s: 0, t: 5 })
    );
    // Rows 0 and 1 go on to degree 8, row 2 ends in degree 7, and there is no row 3.
    let table = resolved(alloc, two_cells(alloc)?, Range { s: 2, t: 2 }, None)?;
    let Ok(table) = resolve_alone(alloc, table, Range { s: 1, t: 3 }, NoKeep).0 else {
        return Err(Memory)?;
    };
    assert_eq!(rt; verify(&table, Range { s: 1, t: 3 }), Ok(()));
    assert_eq!(rt; verify(&table, Range { s: 2, t: 2 }), Ok(()));
    for (s, t, row, degree) in [(2, 3, 2, 8), (3, 2, 3, 5), (3, 3, 2, 8), (3, 4, 0, 9)] {
        assert_eq!(rt;
            verify(&table, Range { s, t }),
            Err(CertFault::Missing { s: row, t: degree }),
            "through ({s},{t})"
        );
    }
    Ok(())
}

// The sphere's table of the square (0, 0), which was read, and so has no quasi-inverse.
fn table_of_one_read(alloc: Global) -> Result<Table, Memory> {
    let mut table = Table::new(alloc, Module::sphere(alloc)?)?;
    let square = Square::read(&table, 0, 0, one_row(alloc)?, Vec::new(alloc), None);
    let square = Arc::new(alloc, square)?;
    match table.push(square) {
        Ok(()) => Ok(table),
        Err(_) => Err(Memory),
    }
}

#[test]
fn a_square_that_was_read(rt: HostRuntime) -> Result<(), Fail> {
    let alloc = rt.alloc();
    let table = table_of_one_read(alloc)?;
    for (s, t) in [(0, 0), (0, 1), (1, 0)] {
        assert_eq!(rt;
            verify(&table, Range { s, t }),
            Err(CertFault::NoQuasi { s: 0, t: 0 }),
            "through ({s},{t})"
        );
    }
    Ok(())
}
