//! `ext` as a call: a program's arguments are answered on its standard streams, over the save file in the folder that it runs in.
//! The programs over it are what is run of it, each on words of its own: `ext_main` and `ext_spared`.
#![tactic(auto)]

ghost use Rattle.std.specs.Prelude.{◌≡◌, ◌≢◌, ◌∷◌, [], ◌↔◌, IsTrue, take, drop, map, string_bytes, codes, true, Err, IfOk, IfErr};
ghost use Rattle.std.specs.IoError.{error_kind};
ghost use Rattle.std.specs.Process.{exit_status};
ghost use Rattle.std.specs.Vec.Iter.{into_iter_items};
ghost use Rattle.ext_words.specs.Words.{texts_of};
ghost use Rattle.ext_report.specs.declared.failure.Failure.TheVariants.{Words as OutsideGrammar, Memory as OutOfMemory};
ghost use Rattle.ext_run.specs.Devices.{device_of, store_of};
ghost use Rattle.ext_run.specs.Plan.{asked_by};
ghost use Rattle.ext_run.specs.Ending.{HasTold};
ghost use Rattle.ext_run.specs.Run.{IsRun};
ghost use Rattle.ext_program.specs.SecondLine.{HasToldFault, HasRemarked};

mod second_line;

use edge::{Disk, FileDisk, Sink, Source, StdSink, StdSource};
use ext_run::{Ended, Failure, report, run};
use memory::Memory;
use path_file::{Access, HostFile, KnowsFault, PathFile};
use second_line::{finished, remarked};
use square_worker::OpenGate;
use std::alloc::Global;
use std::env::Args;
use std::io::{ErrorKind, Stderr, Stdin, Stdout};
use std::process::ExitCode;
use std::sync::Wait;
use std::thread::Threads;
use std::time::Clock;
use std::{env, io};

/// The save file, in the folder that the program runs in.
fn save_file() -> &'static str
    ensures { result.now ≡ codes "ext.save" }
{
    "ext.save"
}

/// The folder of the save file.
fn save_folder() -> &'static str
    ensures { result.now ≡ codes "." }
{
    "."
}

/// Answers the program's arguments on the standard streams; the program ends with the status of the run. What starts
/// threads, waits and tells the time is passed beside the runtime, since only `main` has the runtime as such. Where arguments,
/// streams and the save file are had, no function below has the runtime.
pub fn program<W: Threads + Wait + Clock + Sync>(rt: &HostRuntime, wait: &W) -> ExitCode {
    let arguments = arguments(rt.alloc(), env::args(rt));
    let access = access(&arguments);
    on_save_file::<
        W,
        StdSource<Stdin>,
        StdSink<Stdout>,
        StdSink<Stderr>,
        FileDisk<PathFile<HostFile<HostRuntime>>>,
    >(
        wait,
        rt.alloc(),
        arguments,
        &mut StdSource::new(rt.stdin()),
        &mut StdSink::new(rt.stdout()),
        &mut StdSink::new(rt.stderr()),
        FileDisk::over(PathFile::new(HostFile::new(rt, save_folder(), save_file(), access))),
    )
}

/// What a run with these arguments does with the save file.
fn access(arguments: &Result<Vec<String>, Failure>) -> Access {
    match arguments {
        Ok(all) if only_reads(all.as_slice()) => Access::Read,
        _ => Access::Write,
    }
}

/// Whether a run with these arguments only reads the save file: `verify` does.
fn only_reads(arguments: &[String]) -> bool
    ensures { IsTrue result ↔ (take 1 (map string_bytes arguments.now) ≡ codes "verify" ∷ []) }
{
    match arguments.first() {
        Some(word) => word.as_str() == "verify",
        None => false,
    }
}

/// Answers the arguments after the program's name on these streams, over a disk that knows its last fault. Where the run ends with the
/// status of a failed disk, a line behind that of the failure tells which call failed, and why.
fn on_save_file<
    W: Threads + Wait + Clock + Sync,
    S: Source,
    O: Sink,
    E: Sink + Send,
    D: Disk + KnowsFault + Send + Drop,
>(
    wait: &W,
    alloc: Global,
    arguments: Result<Vec<String>, Failure>,
    source: &mut S,
    out: &mut O,
    err: &mut E,
    disk: D,
) -> ExitCode
    ensures answered { IfOk arguments (λ all. (between : E) × (after : D) × IsRun (device_of S.left S.faults)
        (device_of O.written O.faults) (device_of E.written E.faults)
        (store_of D.now D.moment D.images D.images_at D.since D.faults) (asked_by (map string_bytes all.items)) true
        (exit_status result) source.old source.new out.old out.new err.old between disk after
        × ((behind : E) × HasToldFault E.written E.faults (exit_status result) (D.fault after) between behind
        × HasRemarked E.written E.faults (exit_status result) (map string_bytes all.items) behind err.new)) }
    ensures refused { IfErr arguments (λ failure. (source.new ≡ source.old) × (out.new ≡ out.old)
        × ((between : E) × HasTold E.written E.faults failure (exit_status result) err.old between
        × HasToldFault E.written E.faults (exit_status result) (D.fault disk) between err.new)) }
{
    let ended = on_streams(wait, alloc, &arguments, source, out, err, disk);
    let fault = ended.disk.fault();
    let exit = finished(ended.status, fault, err);
    commented(alloc, ended.status, &arguments, err);
    exit
}

/// Tells more of the arguments, where the run ended with a status that says that something is wrong with them.
fn commented<E: Sink>(
    alloc: Global,
    status: u8,
    arguments: &Result<Vec<String>, Failure>,
    err: &mut E,
)
    ensures given { IfOk arguments.now
        (λ all. HasRemarked E.written E.faults status (map string_bytes all.items) err.old err.new) }
    ensures none { IfErr arguments.now (λ _. err.new ≡ err.old) }
{
    if let Ok(all) = arguments {
        if let Ok(words) = words(alloc, all.as_slice()) {
            remarked(alloc, status, words.as_slice(), err);
        }
    }
}

/// Answers the arguments after the program's name on these streams, or tells the failure in their place.
fn on_streams<W: Threads + Wait + Clock + Sync, S: Source, O: Sink, E: Sink + Send, D: Disk + Send>(
    wait: &W,
    alloc: Global,
    arguments: &Result<Vec<String>, Failure>,
    source: &mut S,
    out: &mut O,
    err: &mut E,
    disk: D,
) -> Ended<D>
    ensures answered { IfOk arguments.now (λ all. IsRun (device_of S.left S.faults) (device_of O.written O.faults)
        (device_of E.written E.faults) (store_of D.now D.moment D.images D.images_at D.since D.faults)
        (asked_by (map string_bytes all.items)) true result.status
        source.old source.new out.old out.new err.old err.new disk result.disk) }
    ensures refused { IfErr arguments.now (λ failure. (source.new ≡ source.old) × (out.new ≡ out.old)
        × HasTold E.written E.faults failure result.status err.old err.new × (result.disk ≡ disk)) }
{
    match arguments {
        Ok(arguments) => answer(wait, alloc, arguments.as_slice(), source, out, err, disk),
        Err(failure) => Ended {
            status: refused(failure, err),
            disk,
        },
    }
}

/// Answers the arguments after the program's name: what `run` answers to their texts.
fn answer<W: Threads + Wait + Clock + Sync, S: Source, O: Sink, E: Sink + Send, D: Disk + Send>(
    wait: &W,
    alloc: Global,
    arguments: &[String],
    source: &mut S,
    out: &mut O,
    err: &mut E,
    disk: D,
) -> Ended<D>
    ensures { IsRun (device_of S.left S.faults) (device_of O.written O.faults) (device_of E.written E.faults)
        (store_of D.now D.moment D.images D.images_at D.since D.faults) (asked_by (map string_bytes arguments.now))
        true result.status source.old source.new out.old out.new err.old err.new disk result.disk }
{
    match words(alloc, arguments) {
        Ok(words) => run(
            wait,
            wait,
            alloc,
            words.as_slice(),
            source,
            out,
            err,
            disk,
            &OpenGate,
        ),
        Err(Memory) => Ended {
            status: refused(&Failure::Memory, err),
            disk,
        },
    }
}

/// The status of a failure, with its line written.
fn refused<E: Sink>(failure: &Failure, err: &mut E) -> u8
    ensures { HasTold E.written E.faults failure.now result err.old err.new }
{
    report(failure, err);
    failure.status()
}

/// The failure where there are no arguments: one of them is no text, and so no word of the grammar, or memory ended. The
/// status is 2 for the one, and 12 for the other.
fn failure_of(kind: ErrorKind) -> Failure
    ensures outside { kind ≡ ErrorKind.InvalidData → result ≡ OutsideGrammar }
    ensures memory { kind ≢ ErrorKind.InvalidData → result ≡ OutOfMemory }
{
    match kind {
        ErrorKind::InvalidData => Failure::Words,
        _ => Failure::Memory,
    }
}

/// The arguments after the program's name, of what the system gave; or why there are none.
fn arguments(alloc: Global, given: io::Result<Args>) -> Result<Vec<String>, Failure>
    ensures rest { IfOk given (λ all. IfOk result (λ rest. rest.items ≡ drop 1 (into_iter_items all))) }
    ensures memory { IfOk given (λ _. IfErr result (λ failure. failure ≡ OutOfMemory)) }
    ensures no_text { IfErr given (λ e. error_kind e ≡ ErrorKind.InvalidData → result ≡ Err OutsideGrammar) }
    ensures no_memory { IfErr given (λ e. error_kind e ≢ ErrorKind.InvalidData → result ≡ Err OutOfMemory) }
{
    match given {
        Ok(all) => Ok(behind_first(alloc, all)?),
        Err(e) => Err(failure_of(e.kind())),
    }
}

/// All but the first of them.
fn behind_first(alloc: Global, all: Args) -> Result<Vec<String>, Memory>
    ensures { IfOk result (λ rest. rest.items ≡ drop 1 (into_iter_items all)) }
{
    Ok(all.skip(1).collect(alloc)?)
}

/// The arguments' texts, as words.
fn words<'a>(alloc: Global, arguments: &'a [String]) -> Result<Vec<&'a str>, Memory>
    ensures { IfOk result (λ words. texts_of words.items ≡ map string_bytes arguments.now) }
{
    let mut words = Vec::new(alloc);
    for argument in arguments {
        words.push(argument.as_str())?;
    }
    Ok(words)
}
