//! What no clause says: that there is memory for each call, and the history of a small board, worked by hand: the sphere through
//! row 1 and degree 1.
ghost use Rattle.std.specs.Prelude.{◌≡◌, IfOk};
ghost use Rattle.turn_lock.specs.Turns.{new_pass};
ghost use Rattle.square.specs.Keeping.{IsKeeperOf};
ghost use Rattle.square.specs.Tables.{Footing};
ghost use Rattle.square_board.specs.Jobs.{Taking};
ghost use Rattle.square_board.specs.Desks.{IsIdle, IsJobOf};
ghost use Rattle.square_board.specs.Boards.{IsPassOf, IsSamePass, state_seen};
ghost use Rattle.square_worker.specs.Kept.{kept_words};

use bidegree::Range;
use board_core::Cause;
use finite_module::Module;
use memory::Memory;
use resolution_step::step;
use square::{Inputs, Keep, MemKeep, NoKeep, Table};
use square_board::{Board, BoardPass, Entry, GiveFault, Job, Taken};
use square_worker::Kept;
use std::alloc::Global;
use std::process::Abort;
use std::sync::Wait;
use std::test::*;
use std::time::Clock;

const RANGE: Range = Range { s: 1, t: 1 };

/// What a take answers, without its job.
#[derive(Clone, Copy, Debug, PartialEq, Eq, Drop)]
enum Answer {
    Job,
    Idle,
    Over,
    Stopped(Cause),
    Memory,
}

// What a take answers. A job is handed back.
fn ask<R: Wait + Clock, K: Keep>(
    rt: &R,
    alloc: Global,
    board: &Board<Kept<K>>,
    pass: &mut BoardPass<Kept<K>>,
) -> Answer
    requires { IsPassOf board.now pass.old }
    ensures pass { IsPassOf board.now pass.new }
    ensures same { IsSamePass pass.old pass.new }
{
    match board.take(rt, alloc, pass) {
        Ok(Taken::Job(job)) => {
            board.back(rt, pass, job);
            Answer::Job
        }
        Ok(Taken::Idle) => Answer::Idle,
        Ok(Taken::Over) => Answer::Over,
        Ok(Taken::Stopped(cause)) => Answer::Stopped(cause),
        Err(Memory) => Answer::Memory,
    }
}

// A take that finds no square. The pass has its jobs still.
fn idle<R: Wait + Clock + Abort, K: Keep>(
    rt: &R,
    alloc: Global,
    board: &Board<Kept<K>>,
    pass: &mut BoardPass<Kept<K>>,
)
    requires { IsPassOf board.now pass.old }
    ensures pass { IsPassOf board.now pass.new }
    ensures same { IsSamePass pass.old pass.new }
    ensures jobs { (job : Taking Footing) → IsJobOf (kept_words K.telling) board.now.name pass.old.number pass.old.own job →
        IsJobOf (kept_words K.telling) board.now.name pass.new.number pass.new.own job }
    ensures told { IsIdle (state_seen (kept_words K.telling) pass.new) }
    ensures own { pass.new.own ≡ pass.old.own }
{
    match board.take(rt, alloc, pass) {
        Ok(Taken::Idle) => {}
        Ok(Taken::Job(job)) => {
            board.back(rt, pass, job);
            panic!(rt; "a job")
        }
        Ok(Taken::Over) | Ok(Taken::Stopped(_)) | Err(_) => panic!(rt; "not idle"),
    }
}

// The job that a take gives.
fn taken<R: Wait + Clock + Abort, K: Keep>(
    rt: &R,
    alloc: Global,
    board: &Board<Kept<K>>,
    pass: &mut BoardPass<Kept<K>>,
) -> Job<Inputs>
    requires { IsPassOf board.now pass.old }
    ensures pass { IsPassOf board.now pass.new }
    ensures same { IsSamePass pass.old pass.new }
    ensures job { IsJobOf (kept_words K.telling) board.now.name pass.new.number pass.new.own result }
{
    match board.take(rt, alloc, pass) {
        Ok(Taken::Job(job)) => job,
        Ok(Taken::Idle) | Ok(Taken::Over) | Ok(Taken::Stopped(_)) | Err(_) => panic!(rt; "no job"),
    }
}

// Makes the square of a job, and gives it.
fn give<R: Wait + Clock, K: Keep>(
    rt: &R,
    alloc: Global,
    board: &Board<Kept<K>>,
    pass: &mut BoardPass<Kept<K>>,
    job: Job<Inputs>,
) -> Result<(), GiveFault>
    requires pass { IsPassOf board.now pass.old }
    requires job { IsJobOf (kept_words K.telling) board.now.name pass.old.number pass.old.own job }
    ensures pass { IsPassOf board.now pass.new }
    ensures same { IsSamePass pass.old pass.new }
{
    match step(alloc, job.inputs()) {
        Ok(square) => board.give(rt, alloc, pass, job, square),
        Err(_) => {
            board.back(rt, pass, job);
            Err(GiveFault::Memory)
        }
    }
}

// The board of the sphere, with two passes.
pub(crate) fn sphere_board<K: Keep + Drop>(
    alloc: Global,
    table: Table,
    keeper: K,
) -> Result<(Board<Kept<K>>, BoardPass<Kept<K>>, BoardPass<Kept<K>>), Memory>
    requires live { (K.telling keeper).live }
    requires of_table { IsKeeperOf (K.telling keeper) table }
    ensures two { IfOk result (λ made. made.0.passes ≡ 2) }
    ensures rows { IfOk result (λ made. made.0.name.range.s ≡ 1) }
    ensures first { IfOk result (λ made. made.1 ≡ new_pass made.0 0) }
    ensures second { IfOk result (λ made. made.2 ≡ new_pass made.0 1) }
{
    let Ok((board, mut passes)) = Board::new(alloc, Kept { table, keeper }, RANGE, 2) else {
        return Err(Memory);
    };
    let Some(second) = passes.pop() else {
        return Err(Memory);
    };
    let Some(first) = passes.pop() else {
        return Err(Memory);
    };
    Ok((board, first, second))
}

// The table and the history of a board, at its end.
fn closed<K: Keep + Drop>(
    board: Board<Kept<K>>,
    mut first: BoardPass<Kept<K>>,
    second: BoardPass<Kept<K>>,
) -> (Table, Vec<Entry>)
    requires two { board.passes ≡ 2 }
    requires first { IsPassOf board first }
    requires second { IsPassOf board second }
    requires first_number { first.number ≡ 0 }
    requires second_number { second.number ≡ 1 }
{
    board.join(&mut first, second);
    let (kept, history) = board.close(first);
    let Kept { table, keeper: _ } = kept;
    (table, history)
}

// Two passes make all four squares.
#[test]
fn all_squares_are_given(rt: HostRuntime) -> Result<(), Fail> {
    let alloc = rt.alloc();
    let table = Table::new(alloc, Module::sphere(alloc)?)?;
    let (board, mut first, mut second) = sphere_board(alloc, table, NoKeep)?;
    let job = taken(&rt, alloc, &board, &mut first);
    assert_eq!(rt; (job.s(), job.t()), (0, 0));
    idle(&rt, alloc, &board, &mut second);
    assert_eq!(rt; give(&rt, alloc, &board, &mut first, job), Ok(()));
    board.rest(&rt, &mut second);
    let left = taken(&rt, alloc, &board, &mut first);
    let right = taken(&rt, alloc, &board, &mut second);
    assert_eq!(rt; (left.s(), left.t()), (1, 0));
    assert_eq!(rt; (right.s(), right.t()), (0, 1));
    idle(&rt, alloc, &board, &mut first);
    assert_eq!(rt; board.generators(&rt, &mut second, 1, 0), None);
    assert_eq!(rt; give(&rt, alloc, &board, &mut first, left), Ok(()));
    assert_eq!(rt; board.generators(&rt, &mut second, 1, 0), Some(0));
    assert_eq!(rt; give(&rt, alloc, &board, &mut second, right), Ok(()));
    let last = taken(&rt, alloc, &board, &mut second);
    assert_eq!(rt; (last.s(), last.t()), (1, 1));
    assert_eq!(rt; give(&rt, alloc, &board, &mut second, last), Ok(()));
    assert_eq!(rt; ask(&rt, alloc, &board, &mut first), Answer::Over);
    assert_eq!(rt; board.front(&mut first, 1), 2);
    assert_eq!(rt; board.count(&mut first), 8);
    let (table, history) = closed(board, first, second);
    assert_eq!(rt; (table.front(0), table.front(1)), (2, 2));
    assert_eq!(rt; history.len(), 8);
    assert_eq!(rt; history[7], Entry::Give { who: 1, s: 1, t: 1 });
    Ok(())
}

// A square is handed back: no more are given out.
#[test]
fn a_square_is_handed_back(rt: HostRuntime) -> Result<(), Fail> {
    let alloc = rt.alloc();
    let table = Table::new(alloc, Module::sphere(alloc)?)?;
    let (board, mut first, mut second) = sphere_board(alloc, table, NoKeep)?;
    let job = taken(&rt, alloc, &board, &mut first);
    board.back(&rt, &mut first, job);
    assert_eq!(rt;
        ask(&rt, alloc, &board, &mut second),
        Answer::Stopped(Cause::Memory)
    );
    assert_eq!(rt;
        ask(&rt, alloc, &board, &mut first),
        Answer::Stopped(Cause::Memory)
    );
    assert_eq!(rt; board.count(&mut first), 2);
    let (table, history) = closed(board, first, second);
    assert_eq!(rt; table.front(0), 0);
    assert_eq!(rt; history.len(), 2);
    Ok(())
}

// The keeper fails at a square while another is out.
#[test]
fn a_keeper_fails(rt: HostRuntime) -> Result<(), Fail> {
    let alloc = rt.alloc();
    let table = Table::new(alloc, Module::sphere(alloc)?)?;
    let keeper = MemKeep::new(alloc, vec![in alloc; 2; 1]?)?;
    let (board, mut first, mut second) = sphere_board(alloc, table, keeper)?;
    let job = taken(&rt, alloc, &board, &mut first);
    assert_eq!(rt; give(&rt, alloc, &board, &mut first, job), Ok(()));
    let left = taken(&rt, alloc, &board, &mut first);
    let right = taken(&rt, alloc, &board, &mut second);
    assert_eq!(rt;
        give(&rt, alloc, &board, &mut first, left),
        Err(GiveFault::Failed)
    );
    assert_eq!(rt;
        give(&rt, alloc, &board, &mut second, right),
        Err(GiveFault::Stopped(Cause::Failed))
    );
    assert_eq!(rt;
        ask(&rt, alloc, &board, &mut first),
        Answer::Stopped(Cause::Failed)
    );
    let (table, history) = closed(board, first, second);
    assert_eq!(rt; (table.front(0), table.front(1)), (1, 0));
    assert_eq!(rt; history.len(), 6);
    Ok(())
}
