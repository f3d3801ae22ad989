//! The answer to words: from a command line, and a module file where the command reads one, to the text on a sink.
ghost use Rattle.std.specs.Prelude.{◌≡◌, ◌⊎◌, true, false, Ok, Err, IfOk, IfErr};
ghost use Rattle.ext_words.specs.Words.{texts_of, has_live};
ghost use Rattle.ext_report.specs.declared.failure.Failure as Failure;
ghost use Rattle.ext_report.specs.Failure.{status_of};
ghost use Rattle.ext_run.specs.Devices.{device_of, store_of};
ghost use Rattle.ext_run.specs.Plan.{asked_by};
ghost use Rattle.ext_run.specs.Ending.{HasGotWhole, HasGotPart};
ghost use Rattle.ext_run.specs.Run.{HasSaid, IsRun};

use crate::task::task_from;
use crate::texts::{text_alone, text_by_workers};
use edge::{Disk, Failed, Sink, Source, write_all};
use ext_report::{Failure, WRITTEN, report};
use square_worker::Gate;
use std::alloc::Global;
use std::sync::Wait;
use std::thread::Threads;
use std::time::Clock;

/// The end of a run: its status, and the disk that it was given.
#[derive(Drop)]
pub struct Ended<D> {
    pub status: u8,
    pub disk: D,
}

/// Answers the words after a program's name, and the module file that `source` has left where the command reads one:
/// the answer goes to `out`, and the line of a failure to `err`. Where the words say `--live`, lines with rising numbers go to `err`
/// before it, and the last one before a text has the number of all squares.
///
/// As many workers make squares as the words say, each in a thread of its own where one can be made, and each calls the gate with each
/// square that it has taken. One history led to the squares, in which each worker took one after the other, and there is nothing else
/// in it. Where the words say one worker and no `--live`, and where nothing is resolved, all is done as by `run_one`, which waits for no
/// thread and has no such history. The numbers of `--live` count the squares of the range that are
/// finished, some ten times a second at most, and after a failed write `err` gets nothing more.
///
/// Where the words say `--save`, the squares of the module's save file on `disk` are taken up, and each new one is kept there. Where they
/// ask for the file to be brought up to date or to be verified, its squares are taken up too, and no square is made. Else the disk gets
/// no call.
///
/// What is made of a resolution stays in memory until the process ends. Where the words say one worker and neither `--save` nor `--live`,
/// a chart, the differentials, a summary and products with a class of row 1 are made from the images of generators alone, which take
/// less of it.
///
/// The first argument is the runtime, without any bound, since no command asks anything of it. The second starts threads,
/// waits and tells the time; a program passes its runtime for both.
///
/// The status is 0 where the answer is written whole, 2 for words outside the grammar, 3 where what was read is no module
/// file, 4 where it describes no module, 6 where reading failed, 7 where writing failed, 8 where the disk failed, 9 where what it
/// holds is no save file of the module, 10 where a product of the classes that the words name has to be zero and is not, 11 where
/// one of them is not there or what is asked for is out of the range, 12 where memory ended, 13 where the save file is no certificate,
/// and 14 where what was to be built passes a limit.
pub fn run<
    R,
    W: Threads + Wait + Clock + Sync,
    S: Source,
    O: Sink,
    E: Sink + Send,
    D: Disk + Send,
    G: Gate + Sync,
>(
    _rt: &R,
    wait: &W,
    alloc: Global,
    words: &[&str],
    source: &mut S,
    out: &mut O,
    err: &mut E,
    disk: D,
    gate: &G,
) -> Ended<D>
    ensures { IsRun (device_of S.left S.faults) (device_of O.written O.faults) (device_of E.written E.faults)
        (store_of D.now D.moment D.images D.images_at D.since D.faults) (asked_by (texts_of words.now)) true
        result.status source.old source.new out.old out.new err.old err.new disk result.disk }
{
    match task_from(alloc, words, source) {
        Ok(task) => {
            let (text, disk, heard) = text_by_workers(wait, alloc, task, err, disk, gate);
            let status = outcome(text, heard, out, err);
            Ended { status, disk }
        }
        Err(failure) => {
            let status = failed(&failure, Ok(()), err);
            Ended { status, disk }
        }
    }
}

/// Answers the words as `run` does, by one worker, whatever the words say: squares are made on the caller's thread, and
/// nothing waits. `--live` is not among the words: `has_live` tells whether it is.
pub fn run_one<R, S: Source, O: Sink, E: Sink, D: Disk>(
    _rt: &R,
    alloc: Global,
    words: &[&str],
    source: &mut S,
    out: &mut O,
    err: &mut E,
    disk: D,
) -> Ended<D>
    requires { has_live words.now ≡ false }
    ensures { IsRun (device_of S.left S.faults) (device_of O.written O.faults) (device_of E.written E.faults)
        (store_of D.now D.moment D.images D.images_at D.since D.faults) (asked_by (texts_of words.now)) false
        result.status source.old source.new out.old out.new err.old err.new disk result.disk }
{
    match task_from(alloc, words, source) {
        Ok(task) => {
            let (text, disk) = text_alone(alloc, task, disk);
            let status = outcome(text, Ok(()), out, err);
            Ended { status, disk }
        }
        Err(failure) => {
            let status = failed(&failure, Ok(()), err);
            Ended { status, disk }
        }
    }
}

/// The status of a run that has a text, or a failure in its place. The text is written to `out`; the line of a failure goes to `err`,
/// unless that failed before.
#[tactic(auto, using(crate::proofs::Reporting::said_none))]
fn outcome<O: Sink, E: Sink>(
    text: Result<Vec<u8>, Failure>,
    heard: Result<(), Failed>,
    out: &mut O,
    err: &mut E,
) -> u8
    ensures text { IfOk text (λ t.
        (HasGotWhole O.written O.faults t.items out.old out.new × (result ≡ 0)
        × HasSaid (device_of E.written E.faults) heard (Ok t.items) err.old err.new)
        ⊎ (HasGotPart O.written O.faults t.items out.old out.new × (result ≡ status_of Failure.Writing)
        × HasSaid (device_of E.written E.faults) heard (Err Failure.Writing) err.old err.new)) }
    ensures failed { IfErr text (λ failure. (out.new ≡ out.old) × (result ≡ status_of failure)
        × HasSaid (device_of E.written E.faults) heard (Err failure) err.old err.new) }
{
    match text {
        Ok(text) => match write_all(out, text.as_slice()) {
            Ok(()) => WRITTEN,
            Err(Failed) => failed(&Failure::Writing, heard, err),
        },
        Err(failure) => failed(&failure, heard, err),
    }
}

/// The status of a failure, with its line written to `err`, unless that failed before.
fn failed<E: Sink>(failure: &Failure, heard: Result<(), Failed>, err: &mut E) -> u8
    ensures status { result ≡ status_of failure.now }
    ensures said { HasSaid (device_of E.written E.faults) heard (Err failure.now) err.old err.new }
{
    let status = failure.status();
    match heard {
        Ok(()) => report(failure, err),
        Err(Failed) => {}
    }
    status
}
