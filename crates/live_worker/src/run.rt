//! The roles at a board, each in a thread of its own.
ghost use Rattle.std.specs.Prelude.{◌≡◌, ℕ, ◌<◌, length, All, slice_index_or};
ghost use Rattle.live_worker.specs.Inside.Roles.{CanRun, HasRun};

use crate::role::Role;
use crate::watcher::watch;
use edge::Sink;
use live_view::Counted;
use square_board::{Board, Gate, work};
use std::alloc::Global;
use std::sync::Wait;
use std::sync::atomic::{AtomicU64, Ordering};
use std::thread;
use std::thread::Threads;
use std::time::Clock;

/// Runs the roles, each in a thread of its own where one can be made. `working` counts the workers that have not ended, and the
/// watcher ends when none is left. It is the last role, and is called as the first: where no thread can be made for the first
/// ones they run last, and a watcher that ran before a worker would wait for it for ever.
pub(crate) fn run_roles<
    R: Threads + Wait + Clock + Sync,
    T: Counted + Send,
    G: Gate + Sync,
    E: Sink + Send,
>(
    wait: &R,
    alloc: Global,
    board: &Board<T>,
    roles: &mut [Role<T, E>],
    gate: &G,
    working: &AtomicU64,
)
    requires some { 0 < length roles.old }
    requires can { All (CanRun T.words T.table_of board.now) roles.old }
    ensures count { length roles.new ≡ length roles.old }
    ensures ran { (i : ℕ) → i < length roles.old → (d : _) →
        HasRun T.words T.table_of E.written E.faults board.now (slice_index_or roles.old i d) (slice_index_or roles.new i d) }
{
    roles.reverse();
    run_each(wait, alloc, board, roles, gate, working);
    roles.reverse();
}

/// Runs the roles, each in a thread of its own where one can be made.
fn run_each<R: Threads + Wait + Clock + Sync, T: Counted + Send, G: Gate + Sync, E: Sink + Send>(
    wait: &R,
    alloc: Global,
    board: &Board<T>,
    roles: &mut [Role<T, E>],
    gate: &G,
    working: &AtomicU64,
)
    requires some { 0 < length roles.old }
    requires can { All (CanRun T.words T.table_of board.now) roles.old }
    ensures count { length roles.new ≡ length roles.old }
    ensures ran { (i : ℕ) → i < length roles.old → (d : _) →
        HasRun T.words T.table_of E.written E.faults board.now (slice_index_or roles.old i d) (slice_index_or roles.new i d) }
{
    let threads = roles.len();
    thread::for_each_mut(
        wait,
        roles,
        threads,
        &|_, role: &mut Role<T, E>|
            requires { CanRun T.words T.table_of board.now role.now }
            ensures { HasRun T.words T.table_of E.written E.faults board.entry.now role.entry.now role.exit.now }
        {
            run_role(wait, alloc, board, role, gate, working);
        },
    );
}

/// Runs one role. The last worker to end wakes the watcher.
fn run_role<R: Wait + Clock, T: Counted, G: Gate, E: Sink>(
    wait: &R,
    alloc: Global,
    board: &Board<T>,
    role: &mut Role<T, E>,
    gate: &G,
    working: &AtomicU64,
)
    requires { CanRun T.words T.table_of board.now role.old }
    ensures { HasRun T.words T.table_of E.written E.faults board.now role.old role.new }
{
    match role {
        Role::Work(pass) => {
            let _end = work(wait, alloc, board, pass, gate);
            if working.fetch_sub(1, Ordering::SeqCst) == 1 {
                working.wake_one();
            }
        }
        Role::Watch(watcher) => watch(wait, alloc, board, watcher, working),
    }
}
