//! What no clause says: that there is memory for each call. The sphere's chart is known.
ghost use Rattle.std.specs.Prelude.{◌<◌};

use crate::boards::sphere_board;
use bidegree::Range;
use board_core::Cause;
use finite_module::Module;
use memory::Memory;
use square::{MemKeep, NoKeep, Table};
use square_board::{OpenGate, WorkEnd, work};
use square_worker::resolve_with;
use std::alloc::Global;
use std::sync::Wait;
use std::test::Fail;
use std::thread::Threads;
use std::time::Clock;

const RANGE: Range = Range { s: 2, t: 4 };

/// How many generators the sphere's rows 0 to 2 have in the degrees 0 to 4.
const SPHERE: [[usize; 5]; 3] = [[1, 0, 0, 0, 0], [0, 1, 1, 0, 1], [0, 0, 1, 0, 1]];

// How many generators a square has, none where the square is not there.
fn generators(table: &Table, s: u16, t: i32) -> Option<usize> {
    let square = table.at(s, t)?;
    Some(square.gens().len())
}

// Whether the table has just the squares of the range, with the sphere's generators.
fn is_sphere(table: &Table) -> bool {
    for (s, row) in (0..3).zip(SPHERE.iter()) {
        for (t, count) in (0..5).zip(row.iter()) {
            if generators(table, s, t) != Some(*count) {
                return false;
            }
        }
    }
    table.front(2) == 5 && table.front(3) == 0
}

// What so many workers make of the sphere, with a keeper that fails at these calls.
fn made_by<R: Threads + Wait + Clock + Sync>(
    rt: &R,
    alloc: Global,
    workers: usize,
    failing: Vec<u64>,
) -> Result<(Result<Table, Cause>, MemKeep), Memory>
    requires { 0 < workers }
{
    let table = Table::new(alloc, Module::sphere(alloc)?)?;
    let keeper = MemKeep::new(alloc, failing)?;
    Ok(resolve_with(rt, alloc, workers, table, RANGE, keeper, &OpenGate))
}

// Whether so many workers make the sphere.
fn make_sphere<R: Threads + Wait + Clock + Sync>(
    rt: &R,
    alloc: Global,
    workers: usize,
) -> Result<bool, Memory>
    requires { 0 < workers }
{
    let (made, keeper) = made_by(rt, alloc, workers, Vec::new(alloc))?;
    match made {
        Ok(table) => Ok(is_sphere(&table) && keeper.is_live()),
        Err(_) => Ok(false),
    }
}

// Whether so many workers stop where the keeper fails.
fn stop_at_a_failure<R: Threads + Wait + Clock + Sync>(
    rt: &R,
    alloc: Global,
    workers: usize,
) -> Result<bool, Memory>
    requires { 0 < workers }
{
    let (made, keeper) = made_by(rt, alloc, workers, vec![in alloc; 3; 1]?)?;
    Ok(matches!(made, Err(Cause::Failed)) && !keeper.is_live())
}

#[test]
fn so_many_workers_make_the_sphere(rt: HostRuntime) -> Result<(), Fail> {
    let alloc = rt.alloc();
    assert!(rt; make_sphere(&rt, alloc, 1)?);
    assert!(rt; make_sphere(&rt, alloc, 2)?);
    assert!(rt; make_sphere(&rt, alloc, 7)?);
    Ok(())
}

#[test]
fn a_keeper_fails_among_workers(rt: HostRuntime) -> Result<(), Fail> {
    let alloc = rt.alloc();
    assert!(rt; stop_at_a_failure(&rt, alloc, 1)?);
    assert!(rt; stop_at_a_failure(&rt, alloc, 2)?);
    Ok(())
}

#[test]
fn a_worker_finds_all_squares_done(rt: HostRuntime) -> Result<(), Fail> {
    let alloc = rt.alloc();
    let table = Table::new(alloc, Module::sphere(alloc)?)?;
    let (board, mut first, mut second) = sphere_board(alloc, table, NoKeep)?;
    assert_eq!(rt;
        work(&rt, alloc, &board, &mut first, &OpenGate),
        WorkEnd::Over
    );
    assert_eq!(rt; board.count(&mut first), 8);
    assert_eq!(rt;
        work(&rt, alloc, &board, &mut second, &OpenGate),
        WorkEnd::Over
    );
    Ok(())
}
