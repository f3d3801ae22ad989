//! A range made by several workers at a board, with reports of how far it is.
ghost use Rattle.std.specs.Prelude.{◌≡◌, ◌<◌, ◌≤◌, true, false, OnOk, OnErr};
ghost use Rattle.bidegree.specs.declared.range.TheConstants.{MAX_S, MAX_T};
ghost use Rattle.bidegree.specs.declared.shape.Shape.TheVariants.{Rectangle};
ghost use Rattle.square_board.specs.Workers.{HasMadeBy};
ghost use Rattle.turn_lock.specs.Turns.{HasAll};
ghost use Rattle.live_worker.specs.Reports.{squares_of, HasReported};
ghost use Rattle.live_worker.specs.Inside.Opened.{IsMadeOrMemory};
ghost use Rattle.live_worker.specs.Inside.Roles.{CanWatch, HasGathered, HasTold};

use crate::gathering::{fill, gathered};
use crate::opening::{Opened, prepared};
use crate::reports::Reports;
use crate::role::Watcher;
use crate::run::run_roles;
use crate::watcher::report;
use bidegree::Range;
use board_core::Cause;
use core::mem::replace_with;
use edge::{Failed, Sink};
use live_view::{Counted, close};
use memory::Memory;
use square_board::{Board, Gate, Stock, conclude, no_board};
use std::alloc::Global;
use std::snapshot::Snapshot;
use std::sync::Wait;
use std::sync::atomic::AtomicU64;
use std::thread::Threads;
use std::time::Clock;

/// What is to be made, by whom.
struct Task<'a, R, T: Stock, G: Gate> {
    wait: &'a R,
    alloc: Global,
    workers: usize,
    stock: T,
    range: Range,
    gate: &'a G,
}

/// What a run came to: whether all was made, the stock, and whether its sink failed.
pub(crate) type Made<T> = (Result<(), Cause>, T, Result<(), Failed>);

/// The stock with each square of the range, as `made_by` makes it, by so many workers. Meanwhile a watcher in a thread of its own
/// reports on `err` how many squares of the range are finished, each time that it finds more: some ten times a second at most. The
/// last report comes when the workers have ended. The last of what it gives says whether `err` failed; then nothing was written to
/// it since.
///
/// The first of what it gives is the cause why not all squares are there: `Failed` if one could not be kept, `Memory` if there is no
/// memory for the board, for a square, or for the line of the last report. The squares that were given are there.
pub(crate) fn made_live<
    R: Threads + Wait + Clock + Sync,
    T: Counted + Send,
    G: Gate + Sync,
    E: Sink + Send,
>(wait: &R, alloc: Global, workers: usize, stock: T, range: Range, gate: &G, err: &mut E) -> Made<T>
    requires some { 0 < workers }
    requires rows { range.s ≤ MAX_S }
    requires degrees { range.t ≤ MAX_T }
    requires whole { T.words.shape (T.words.subject stock) ≡ Rectangle }
    requires reached { T.words.reaches (T.words.subject stock) range }
    requires takes { T.words.takes stock }
    ensures made { HasMadeBy T.words workers stock range result.0 result.1 }
    ensures reported { HasReported (squares_of range) result.0 result.2 (E.written err.old) (E.written err.new)
        (E.faults err.old) (E.faults err.new) }
{
    let task = Task {
        wait,
        alloc,
        workers,
        stock,
        range,
        gate,
    };
    replace_with(
        err,
        task,
        |err: E, task: Task<'_, R, T, G>|
            requires some { 0 < task.workers }
            requires rows { task.range.s ≤ MAX_S }
            requires degrees { task.range.t ≤ MAX_T }
            requires whole { T.words.shape (T.words.subject task.stock) ≡ Rectangle }
            requires reached { T.words.reaches (T.words.subject task.stock) task.range }
            requires takes { T.words.takes task.stock }
            ensures made { HasMadeBy T.words task.entry.workers task.entry.stock task.entry.range result.1.0
                result.1.1 }
            ensures reported { HasReported (squares_of task.entry.range) result.1.0 result.1.2 (E.written err)
                (E.written result.0) (E.faults err) (E.faults result.0) }
        { made_telling(err, task) },
    )
}

/// Makes the range of the task, and gives `err` back.
fn made_telling<
    R: Threads + Wait + Clock + Sync,
    T: Counted + Send,
    G: Gate + Sync,
    E: Sink + Send,
>(err: E, task: Task<'_, R, T, G>) -> (E, Made<T>)
    requires some { 0 < task.workers }
    requires rows { task.range.s ≤ MAX_S }
    requires degrees { task.range.t ≤ MAX_T }
    requires whole { T.words.shape (T.words.subject task.stock) ≡ Rectangle }
    requires reached { T.words.reaches (T.words.subject task.stock) task.range }
    requires takes { T.words.takes task.stock }
    ensures made { HasMadeBy T.words task.entry.workers task.entry.stock task.entry.range result.1.0 result.1.1 }
    ensures reported { HasReported (squares_of task.entry.range) result.1.0 result.1.2 (E.written err)
        (E.written result.0) (E.faults err) (E.faults result.0) }
{
    let Task {
        wait,
        alloc,
        workers,
        stock,
        range,
        gate,
    } = task;
    let Opened {
        board,
        passes,
        writer,
        reader,
        mut roles,
    } = match prepared(wait, alloc, workers, stock, range) {
        Ok(opened) => opened,
        Err(stock) => {
            no_board(&stock, range);
            return (err, (Err(Cause::Memory), stock, Ok(())));
        }
    };
    let reports = Reports {
        err,
        most: 0,
        all: squares_of(range),
        failed: false,
    };
    let first = Snapshot::of(&reports);
    fill(&board, &mut roles, passes, writer, reader, reports);
    let working = AtomicU64::new(workers as u64);
    run_roles(wait, alloc, &board, roles.as_mut_slice(), gate, &working);
    let watcher = gathered(&board, roles, &first);
    concluded(wait, alloc, board, watcher, range)
}

/// How many squares the range has.
fn squares_of(range: Range) -> u64
    ensures { result ≡ squares_of range }
{
    (u64::from(range.s) + 1) * (u64::from(range.t) + 1)
}

/// Reports once more and ends the board, with the watcher that all passes were joined into.
fn concluded<R: Wait + Clock, T: Counted, E: Sink>(
    wait: &R,
    alloc: Global,
    board: Board<T>,
    mut watcher: Watcher<T, E>,
    range: Range,
) -> (E, Made<T>)
    requires can { CanWatch T.words T.table_of board watcher }
    requires joined { HasAll watcher.pass }
    requires gathered { HasGathered board.passes watcher.pass }
    requires range { board.name.range ≡ range }
    ensures made { HasMadeBy T.words watcher.pass.number board.name.first.value range result.1.0 result.1.1 }
    ensures told { (start : Reports E) → start.most ≡ 0 → start.failed ≡ false → start.all ≡ squares_of range →
        HasTold E.written E.faults start watcher.reports →
        HasReported (squares_of range) result.1.0 result.1.2 (E.written start.err) (E.written result.0)
        (E.faults start.err) (E.faults result.0) }
{
    let _last = report(wait, alloc, &board, &mut watcher);
    let Watcher {
        pass,
        writer,
        reader,
        mut reports,
    } = watcher;
    close(wait, writer, reader);
    let (made, stock) = conclude(board, pass, range);
    let given = reported_whole(alloc, &mut reports, made);
    let Reports {
        err,
        most: _,
        all: _,
        failed,
    } = reports;
    (err, (given, stock, fault(failed)))
}

/// Whether all was made, once it was reported that all squares are finished.
///
/// # Errors
/// The cause why not all was made. `Memory` if there is none for the report; nothing is reported then.
#[tactic(auto, using(crate::proofs::Telling::told_none))]
fn reported_whole<E: Sink>(
    alloc: Global,
    reports: &mut Reports<E>,
    made: Result<(), Cause>,
) -> Result<(), Cause>
    ensures told { HasTold E.written E.faults reports.old reports.new }
    ensures whole { OnOk result (reports.new.failed ≡ false → reports.new.all ≤ reports.new.most) }
    ensures is { IsMadeOrMemory made result }
    ensures none { OnErr result (reports.new ≡ reports.old) }
{
    match made {
        Ok(()) => {}
        Err(cause) => return Err(cause),
    }
    let all = reports.all;
    match reports.tell(alloc, all) {
        Ok(()) => Ok(()),
        Err(Memory) => Err(Cause::Memory),
    }
}

/// Whether the sink failed, as an answer.
fn fault(failed: bool) -> Result<(), Failed>
    ensures well { OnOk result (failed ≡ false) }
    ensures fails { OnErr result (failed ≡ true) }
{
    if failed { Err(Failed) } else { Ok(()) }
}
