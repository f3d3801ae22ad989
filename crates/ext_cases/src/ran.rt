//! Whole runs over a source, sinks and a disk in memory.
ghost use Rattle.std.specs.Prelude.{◌<◌, IfOk};

use cases::{Case, Differences, Fault};
use edge::{MemDisk, MemSink, MemSource};
use ext_run::run;
use square_worker::OpenGate;
use std::alloc::Global;
use std::str::from_utf8;
use std::sync::Wait;
use std::thread::Threads;
use std::time::Clock;

/// The fields of a run. Of those that name a call, none is named if they are not there.
const KEYS: [&str; 15] = [
    // what the source gives, how many bytes it gives a call, and the call in which it fails
    "module",
    "source-gives",
    "source-fails",
    // how many bytes standard output and standard error take a call, and the call in which each fails
    "out-takes",
    "out-fails",
    "err-takes",
    "err-fails",
    // the bytes of the disk as digits, or `left` for those that the run before left; the call in which it fails, and after how many
    // calls each fails
    "disk",
    "disk-fails",
    "disk-stops",
    // what comes of it: the status, the texts of standard output and standard error, the bytes of the disk as digits, or `same` if it
    // still has those that it had, and how often the disk was called
    "status",
    ">",
    "!",
    "left",
    "calls",
];

/// How many bytes a source gives and a sink takes a call where a case does not say.
const GIVEN: u64 = 7;

const TAKEN: u64 = 1000;

/// How many bytes a sink holds, and how many a disk holds, with those that were written and the calls.
const SINK_ROOM: usize = 10_000;

const DISK_ROOM: usize = 2_000_000;

/// What differs between what comes of a run of `ext` on the words of a case and its answer. `left` has the bytes of the disk that the
/// run before left, and then those that this one leaves. A sink or source that is to fail has to fail once. If the words do not use
/// the disk, it has to get no call.
pub(crate) fn ran_difference<W: Threads + Wait + Clock + Sync>(
    wait: &W,
    alloc: Global,
    case: &Case,
    left: &mut Vec<u8>,
) -> Result<Option<String>, Fault> {
    case.check_keys(&KEYS)?;
    let words = case.split_words(alloc)?;
    let mut source = source_of(alloc, case)?;
    let mut out = sink_of(alloc, case, "out-takes", "out-fails")?;
    let mut err = sink_of(alloc, case, "err-takes", "err-fails")?;
    let before = bytes_before(alloc, case, left.as_slice())?;
    let disk = disk_of(alloc, case, before.as_slice())?;
    let ended = run(
        wait,
        wait,
        alloc,
        words.as_slice(),
        &mut source,
        &mut out,
        &mut err,
        disk,
        &OpenGate,
    );
    let disk = ended.disk;
    let mut all = Differences::none(alloc);
    let status = case.number_answer("status")?;
    all.compare_numbers("status", u64::from(ended.status), status)?;
    all.compare_texts("text", text_of(&out), case.text_or_empty(">"))?;
    all.compare_texts("line", text_of(&err), case.text_or_empty("!"))?;
    compare_faults(&mut all, case, "source-fails", source.faults())?;
    compare_faults(&mut all, case, "out-fails", out.faults())?;
    compare_faults(&mut all, case, "err-fails", err.faults())?;
    match case.text("left") {
        None => {}
        Some("same") => compare_bytes(alloc, &mut all, disk.bytes(), before.as_slice())?,
        Some(digits) => {
            let bytes = bytes_of(alloc, case, digits)?;
            compare_bytes(alloc, &mut all, disk.bytes(), bytes.as_slice())?;
        }
    }
    if case.text("calls").is_some() || !use_the_disk(words.as_slice()) {
        let calls = case.number("calls", 0)?;
        all.compare_numbers("calls", disk.calls(), calls)?;
    }
    *left = disk.bytes().to_vec(alloc)?;
    Ok(all.into_line())
}

/// Whether the words use the disk: those that say `--save`, and those that bring a save file up to date or verify one.
fn use_the_disk(words: &[&str]) -> bool {
    words.contains(&"--save") || matches!(words.first(), Some(&"migrate" | &"verify"))
}

/// The source of a run.
fn source_of(alloc: Global, case: &Case) -> Result<MemSource, Fault> {
    let bytes = case.text_or_empty("module").as_bytes().to_vec(alloc)?;
    let piece = piece_of(case, "source-gives", GIVEN)?;
    let failing = calls_of(alloc, case, "source-fails")?;
    Ok(MemSource::new(alloc, bytes, piece, failing)?)
}

/// A sink of a run, whose fields have these names.
fn sink_of(alloc: Global, case: &Case, takes: &str, fails: &str) -> Result<MemSink, Fault> {
    let piece = piece_of(case, takes, TAKEN)?;
    let failing = calls_of(alloc, case, fails)?;
    Ok(MemSink::new(alloc, piece, SINK_ROOM, failing)?)
}

/// The disk of a run, which holds these bytes.
fn disk_of(alloc: Global, case: &Case, bytes: &[u8]) -> Result<MemDisk, Fault> {
    let bytes = bytes.to_vec(alloc)?;
    let failing = calls_of(alloc, case, "disk-fails")?;
    let stop_after = case.number("disk-stops", u64::MAX)?;
    Ok(MemDisk::new(alloc, bytes, DISK_ROOM, failing, stop_after)?)
}

/// The bytes of the disk before a run.
fn bytes_before(alloc: Global, case: &Case, left: &[u8]) -> Result<Vec<u8>, Fault> {
    match case.text_or_empty("disk") {
        "left" => Ok(left.to_vec(alloc)?),
        digits => bytes_of(alloc, case, digits),
    }
}

/// How many bytes a call gives or takes.
fn piece_of(case: &Case, key: &str, otherwise: u64) -> Result<usize, Fault>
    ensures { IfOk result (λ piece. 0 < piece) }
{
    let piece = case.number(key, otherwise)? as usize;
    if piece == 0 {
        return Err(case.refused("no byte a call"));
    }
    Ok(piece)
}

/// The call that fails, and none if the case does not name one. Calls are counted from 1.
fn calls_of(alloc: Global, case: &Case, key: &str) -> Result<Vec<u64>, Fault> {
    let mut calls = Vec::new(alloc);
    calls.push(case.number(key, 0)?)?;
    Ok(calls)
}

/// The bytes that have these hexadecimal digits, between which blanks may stand.
fn bytes_of(alloc: Global, case: &Case, digits: &str) -> Result<Vec<u8>, Fault> {
    let mut dense = String::new(alloc);
    for part in digits.split_whitespace() {
        dense.push_str(part)?;
    }
    hex::decode(alloc, dense.as_str()).map_err(|_| case.refused("no bytes"))
}

/// What a sink took.
fn text_of(sink: &MemSink) -> &str {
    from_utf8(sink.written()).unwrap_or("no text")
}

/// Compares how often a source or a sink failed with how often it has to: once if the case names a call that fails, and else never.
fn compare_faults(all: &mut Differences, case: &Case, key: &str, faults: u64) -> Result<(), Fault> {
    all.compare_numbers(key, faults, u64::from(case.text(key).is_some()))
}

/// Compares the bytes that a disk has with those that it has to have.
fn compare_bytes(
    alloc: Global,
    all: &mut Differences,
    got: &[u8],
    wanted: &[u8],
) -> Result<(), Fault> {
    let (got, wanted) = (hex::encode(alloc, got)?, hex::encode(alloc, wanted)?);
    all.compare_texts("left", got.as_str(), wanted.as_str())
}
