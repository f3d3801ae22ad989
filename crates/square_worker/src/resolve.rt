//! A range resolved by several workers.
ghost use Rattle.std.specs.Prelude.{ℕ, ◌<◌, ◌≤◌, IfSome, OnOk, OnErr};
ghost use Rattle.bidegree.specs.declared.range.TheConstants.{MAX_S, MAX_T};
ghost use Rattle.board_core.specs.declared.event.Cause as Cause;
ghost use Rattle.resolution_step.specs.Alone.{AreApart, IsUntouched, HasResolved};
ghost use Rattle.square.specs.Keeping.{HoldsTable, IsKeeperOf};
ghost use Rattle.square_board.specs.Workers.{HasMade, HasMadeBy};
ghost use Rattle.square_worker.specs.Kept.{KeptTable, kept_words};
ghost use Rattle.square_worker.specs.Worked.{HasResolvedBy};

use crate::kept::Kept;
use bidegree::Range;
use board_core::Cause;
use square::{Keep, Table};
use square_board::{Gate, made_by};
use std::alloc::Global;
use std::sync::Wait;
use std::thread::Threads;
use std::time::Clock;

/// The table with each square of the range. Those that are not there yet are made, and no others, by so many workers, and each is
/// given to the keeper. Each worker has a thread of its own where one can be made; a single worker runs on the caller's. One history
/// led there, in which each worker took one square after the other and gave it before it took the next one, and there is nothing
/// else in it. The keeper was given the squares in the order in which that history has them.
///
/// # Errors
/// `Failed` if the keeper failed; it is then no longer live. `Memory` if there is no memory for the board or a square; the keeper is
/// then live. The squares that were given are kept.
pub fn resolve_with<R: Threads + Wait + Clock + Sync, K: Keep + Send, G: Gate + Sync>(
    wait: &R,
    alloc: Global,
    workers: usize,
    table: Table,
    range: Range,
    keeper: K,
    gate: &G,
) -> (Result<Table, Cause>, K)
    requires some { 0 < workers }
    requires rows { range.s ≤ MAX_S }
    requires degrees { range.t ≤ MAX_T }
    requires live { (K.telling keeper).live }
    requires of_table { IsKeeperOf (K.telling keeper) table }
    ensures resolved { HasResolved Cause.Failed Cause.Memory AreApart range table result.0 (K.telling keeper)
        (K.telling result.1) }
    ensures untouched { IsUntouched K.telling keeper result.1 }
    ensures worked { HasResolvedBy K.telling workers range table (OnErr result.0 ⊥) keeper result.1 }
{
    let first = Kept { table, keeper };
    let (made, last) = made_by(wait, alloc, workers, first, range, gate);
    outcome(made, last)
}

/// What the making of a range came to: the table, if it was made, and the keeper.
///
/// # Errors
/// The cause why it was not made.
pub fn outcome<K: Keep>(made: Result<(), Cause>, last: Kept<K>) -> (Result<Table, Cause>, K)
    ensures resolved { (first : KeptTable K) (range : Range) → (K.telling first.keeper).live →
        HasMade (kept_words K.telling) first range made last →
        HasResolved Cause.Failed Cause.Memory AreApart range first.table result.0 (K.telling first.keeper)
        (K.telling result.1) }
    ensures untouched { (first : KeptTable K) (range : Range) → (K.telling first.keeper).live →
        HasMade (kept_words K.telling) first range made last → IsUntouched K.telling first.keeper result.1 }
    ensures worked { (workers : ℕ) (first : KeptTable K) (range : Range) → (K.telling first.keeper).live →
        HasMadeBy (kept_words K.telling) workers first range made last →
        HasResolvedBy K.telling workers range first.table (OnErr result.0 ⊥) first.keeper result.1 }
    ensures only { OnOk result.0 (OnErr made ⊥) }
    ensures holds { IfSome (K.telling result.1).kept (λ list. HoldsTable list last.table.rows) }
{
    let Kept { table, keeper } = last;
    let _front = table.front(0);
    match made {
        Ok(()) => (Ok(table), keeper),
        Err(cause) => (Err(cause), keeper),
    }
}
