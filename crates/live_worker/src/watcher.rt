//! What the watcher does.
ghost use Rattle.std.specs.Prelude.{◌≡◌, ◌≤◌, false, IfOk};
ghost use Rattle.live_worker.specs.Inside.Roles.{CanWatch, HasWatched};

use crate::role::Watcher;
use edge::Sink;
use live_view::{Counted, publish};
use memory::Memory;
use square_board::Board;
use std::alloc::Global;
use std::sync::Wait;
use std::sync::atomic::{AtomicU64, Ordering};
use std::time::{Clock, Duration};

/// How long the watcher sleeps between two reports, in milliseconds. So there are some ten reports a second at most.
const NAP_MILLIS: u64 = 100;

/// Publishes what is finished, and reports it. It gives the number of the squares of the range that are finished.
///
/// # Errors
/// `Memory` if allocation fails.
pub(crate) fn report<R: Wait + Clock, T: Counted, E: Sink>(
    wait: &R,
    alloc: Global,
    board: &Board<T>,
    watcher: &mut Watcher<T, E>,
) -> Result<u64, Memory>
    requires { CanWatch T.words T.table_of board.now watcher.old }
    ensures watched { HasWatched T.words T.table_of E.written E.faults board.now watcher.old watcher.new }
    ensures told { IfOk result (λ n. watcher.new.reports.failed ≡ false → n ≤ watcher.new.reports.most) }
{
    let note = publish(wait, alloc, &mut watcher.writer, board, &mut watcher.pass)?;
    watcher.reader.learn(note);
    let squares = watcher.reader.squares();
    watcher.reports.tell(alloc, squares)?;
    Ok(squares)
}

/// Reports from time to time, until all squares are finished, or no worker is left, or there is no memory for a report.
pub(crate) fn watch<R: Wait + Clock, T: Counted, E: Sink>(
    wait: &R,
    alloc: Global,
    board: &Board<T>,
    watcher: &mut Watcher<T, E>,
    working: &AtomicU64,
)
    requires { CanWatch T.words T.table_of board.now watcher.old }
    ensures { HasWatched T.words T.table_of E.written E.faults board.now watcher.old watcher.new }
{
    for _ in wait.forever() {
        if is_last_report(wait, alloc, board, watcher) {
            return;
        }
        if nap(wait, working) {
            return;
        }
    }
    unreachable!()
}

/// Reports, and says whether no further report is to come: all squares are finished, or there was no memory for it.
fn is_last_report<R: Wait + Clock, T: Counted, E: Sink>(
    wait: &R,
    alloc: Global,
    board: &Board<T>,
    watcher: &mut Watcher<T, E>,
) -> bool
    requires can { CanWatch T.words T.table_of board.now watcher.old }
    ensures { HasWatched T.words T.table_of E.written E.faults board.now watcher.old watcher.new }
{
    match report(wait, alloc, board, watcher) {
        Ok(squares) => squares == watcher.reports.all,
        Err(Memory) => true,
    }
}

/// Sleeps until no worker is left, but no longer than until the next report. It says whether none is.
fn nap<R: Wait>(wait: &R, working: &AtomicU64) -> bool {
    let count = working.load(Ordering::SeqCst);
    if count == 0 {
        return true;
    }
    let low_bits = (count & 0xffff_ffff) as u32;
    working.park_timeout(wait, low_bits, Duration::from_millis(NAP_MILLIS));
    working.load(Ordering::SeqCst) == 0
}
