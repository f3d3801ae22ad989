//! The squares of a range, made by several workers.
ghost use Rattle.std.specs.Prelude.{◌≡◌, ℕ, ◌<◌, ◌≤◌, None, Err, OnOk, IfErr, length};
ghost use Rattle.bidegree.specs.declared.range.TheConstants.{MAX_S, MAX_T};
ghost use Rattle.board_core.specs.declared.event.Cause as Cause;
ghost use Rattle.board_core.specs.Entries.{ArePairs};
ghost use Rattle.board_core.specs.Laws.{first_cause};
ghost use Rattle.turn_lock.specs.Turns.{HasAll};
ghost use Rattle.square_board.specs.Boards.{IsPassOf};
ghost use Rattle.square_board.specs.Workers.{AreItsPasses, IsWhy, HasMadeBy, HasConcluded};

use crate::board::{Board, BoardPass};
use crate::gate::Gate;
use crate::joining::join_all;
use crate::stock::Stock;
use crate::worker::work;
use bidegree::Range;
use board_core::{Cause, Entry};
use std::alloc::Global;
use std::snapshot::Snapshot;
use std::sync::Wait;
use std::thread;
use std::thread::Threads;
use std::time::Clock;

/// The stock with each square of the range. Those that are not there yet are made, and no others, by so many workers. Each worker
/// has a thread of its own where one can be made; a single worker runs on the caller's. One history led to the stock, in which each
/// worker took one square after the other, and there is nothing else in it.
///
/// # Errors
/// The cause why not all squares are there: `Failed` if one could not be kept, `Memory` if there is no memory for the board
/// or a square. The squares that were given are there.
pub fn made_by<R: Threads + Wait + Clock + Sync, T: Stock + Send, G: Gate + Sync>(
    wait: &R,
    alloc: Global,
    workers: usize,
    stock: T,
    range: Range,
    gate: &G,
) -> (Result<(), Cause>, T)
    requires some { 0 < workers }
    requires rows { range.s ≤ MAX_S }
    requires degrees { range.t ≤ MAX_T }
    requires reached { T.words.reaches (T.words.subject stock) range }
    requires takes { T.words.takes stock }
    ensures { HasMadeBy T.words workers stock range result.0 result.1 }
{
    let (board, mut passes) = match Board::new(alloc, stock, range, workers) {
        Ok(made) => made,
        Err((_, stock)) => {
            no_board(&stock, range);
            return (Err(Cause::Memory), stock);
        }
    };
    work_in_threads(wait, alloc, &board, passes.as_mut_slice(), gate);
    let pass = join_all(&board, passes);
    conclude(board, pass, range)
}

/// Each of these passes, which are all those of the board, works in a thread of its own.
fn work_in_threads<R: Threads + Wait + Clock + Sync, T: Stock + Send, G: Gate + Sync>(
    wait: &R,
    alloc: Global,
    board: &Board<T>,
    passes: &mut [BoardPass<T>],
    gate: &G,
)
    requires some { 0 < length passes.old }
    requires passes { AreItsPasses board.now passes.old }
    ensures count { length passes.new ≡ length passes.old }
    ensures passes { AreItsPasses board.now passes.new }
{
    let workers = passes.len();
    thread::for_each_mut(
        wait,
        passes,
        workers,
        &|_, pass: &mut BoardPass<T>|
            requires pass { IsPassOf board.now pass.now }
            requires pairs { ArePairs pass.now.own }
            ensures pass { IsPassOf board.entry.now pass.exit.now }
            ensures number { pass.exit.now.number ≡ pass.entry.now.number }
            ensures pairs { ArePairs pass.exit.now.own }
        {
            let _end = work(wait, alloc, board, pass, gate);
        },
    );
}

/// Ends a board with the pass that all others were joined into. It gives the stock, and why not all squares of the range are
/// there. The history has just the entries of these passes.
///
/// # Errors
/// The cause that stands, or `Memory` if none does. Then every worker stopped for lack of memory before it had a square.
pub fn conclude<T: Stock>(
    board: Board<T>,
    pass: BoardPass<T>,
    range: Range,
) -> (Result<(), Cause>, T)
    requires pass { IsPassOf board pass }
    requires joined { HasAll pass }
    requires range { board.name.range ≡ range }
    ensures { HasConcluded T.words board pass range result.0 result.1 }
{
    let (stock, history) = board.close(pass);
    (outcome(&stock, range, history.as_slice()), stock)
}

/// What a board came to whose stock and history are these: `Ok` if all squares of the range are done and no cause stands.
///
/// # Errors
/// The cause that stands, or `Memory` if none does.
fn outcome<T: Stock>(stock: &T, range: Range, history: &[Entry]) -> Result<(), Cause>
    ensures through { OnOk result (range.t < T.words.fronts stock.now range.s) }
    ensures no_cause { OnOk result (first_cause history.now ≡ None) }
    ensures why { IfErr result (IsWhy history.now) }
{
    let through = stock.front(range.s) > u64::from(range.t);
    match cause_in(history) {
        Some(cause) => Err(cause),
        None if through => Ok(()),
        None => Err(Cause::Memory),
    }
}

/// Where there is no memory for a board, the stock is made through the range by a history of no event: these calls say that the
/// stock may be one of a board.
pub fn no_board<T: Stock>(stock: &T, range: Range)
    requires rows { range.s ≤ MAX_S }
    requires degrees { range.t ≤ MAX_T }
    requires reached { T.words.reaches (T.words.subject stock.now) range }
    requires takes { T.words.takes stock.now }
    ensures { (workers : ℕ) → HasMadeBy T.words workers stock.now range (Err Cause.Memory) stock.now }
{
    let _rows = stock.rows();
    let _shape = stock.shape();
    let _first = Snapshot::of(stock);
}

/// The cause that the first handing back or failure brings, none where there is neither.
fn cause_in(history: &[Entry]) -> Option<Cause>
    ensures { result ≡ first_cause history.now }
{
    for entry in history {
        match entry {
            Entry::Back { .. } => return Some(Cause::Memory),
            Entry::Fail { .. } => return Some(Cause::Failed),
            Entry::Take { .. } | Entry::Give { .. } => {}
        }
    }
    None
}
