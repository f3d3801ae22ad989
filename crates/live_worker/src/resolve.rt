//! A range resolved by several workers, with reports of how far it is.
ghost use Rattle.std.specs.Prelude.{◌<◌, ◌≤◌, OnErr};
ghost use Rattle.bidegree.specs.declared.range.TheConstants.{MAX_S, MAX_T};
ghost use Rattle.board_core.specs.declared.event.Cause as Cause;
ghost use Rattle.resolution_step.specs.Alone.{AreApart, IsUntouched, HasResolved};
ghost use Rattle.square.specs.Keeping.{IsKeeperOf};
ghost use Rattle.square_worker.specs.Worked.{HasResolvedBy};
ghost use Rattle.live_worker.specs.Reports.{squares_of, HasReported};

use crate::making::made_live;
use bidegree::Range;
use board_core::Cause;
use edge::{Failed, Sink};
use square::{Keep, Table};
use square_board::Gate;
use square_worker::{Kept, outcome};
use std::alloc::Global;
use std::sync::Wait;
use std::thread::Threads;
use std::time::Clock;

/// The table with each square of the range, as `resolve_with` makes it, by so many workers. Meanwhile a watcher in a thread of
/// its own reports on `err` how many squares of the range are finished, each time that it finds more: some ten times a second at
/// most. The last report comes when the workers have ended. The last of what it gives says whether `err` failed; then nothing was
/// written to it since. The watcher makes no entry of the history.
///
/// # Errors
/// `Failed` if the keeper failed; it is then no longer live. `Memory` if there is no memory for the board, a square, or the line of
/// the last report; the keeper is then live. The squares that were given are kept.
pub fn resolve_live<
    R: Threads + Wait + Clock + Sync,
    K: Keep + Send,
    G: Gate + Sync,
    E: Sink + Send,
>(
    wait: &R,
    alloc: Global,
    workers: usize,
    table: Table,
    range: Range,
    keeper: K,
    gate: &G,
    err: &mut E,
) -> (Result<Table, Cause>, K, Result<(), Failed>)
    requires some { 0 < workers }
    requires rows { range.s ≤ MAX_S }
    requires degrees { range.t ≤ MAX_T }
    requires live { (K.telling keeper).live }
    requires of_table { IsKeeperOf (K.telling keeper) table }
    ensures resolved { HasResolved Cause.Failed Cause.Memory AreApart range table result.0 (K.telling keeper)
        (K.telling result.1) }
    ensures untouched { IsUntouched K.telling keeper result.1 }
    ensures worked { HasResolvedBy K.telling workers range table (OnErr result.0 ⊥) keeper result.1 }
    ensures reported { HasReported (squares_of range) result.0 result.2 (E.written err.old) (E.written err.new)
        (E.faults err.old) (E.faults err.new) }
{
    let first = Kept { table, keeper };
    let (made, last, told) = made_live(wait, alloc, workers, first, range, gate, err);
    let (table, keeper) = outcome(made, last);
    (table, keeper, told)
}
