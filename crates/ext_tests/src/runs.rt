//! Runs over streams that give and take little a call, of each of which one call may fail, and over a disk.
use edge::{MemDisk, MemSink, MemSource};
use ext_run::run;
use square_worker::{Gate, OpenGate};
use std::alloc::Global;
use std::process::Abort;
use std::str::from_utf8;
use std::sync::Wait;
use std::test::Fail;
use std::thread::Threads;
use std::time::Clock;

/// The module of two cells.
pub(crate) const C2: &[u8] =
    br#"{"type":"finite dimensional module","p":2,"gens":{"x0":0,"x1":1},"actions":["Sq1 x0 = x1"]}"#;

/// What `sphere 4 8` prints.
pub(crate) const STEMS_8: &str =
    " 4 |1....\n 3 |1..1..\n 2 |1.11..1\n 1 |11.1...1\n 0 |1........\nstems 0..8\n";

/// The number of the call of each stream that fails, none for 0.
#[derive(Clone, Copy, Drop)]
pub(crate) struct Failing {
    pub(crate) read: u64,
    pub(crate) write: u64,
    pub(crate) report: u64,
}

pub(crate) const SOUND: Failing = Failing {
    read: 0,
    write: 0,
    report: 0,
};

/// What a run has to do with.
#[derive(Drop)]
pub(crate) struct Devices {
    pub(crate) source: MemSource,
    pub(crate) out: MemSink,
    pub(crate) err: MemSink,
    pub(crate) disk: MemDisk,
}

/// What a run came to.
#[derive(Drop)]
pub(crate) struct Outcome {
    pub(crate) status: u8,
    pub(crate) out: MemSink,
    pub(crate) err: MemSink,
    pub(crate) disk: MemDisk,
}

/// A disk that holds these bytes. It fails in one call, none for 0, and after so many calls.
pub(crate) fn disk(
    alloc: Global,
    bytes: &[u8],
    failing: u64,
    stop_after: u64,
) -> Result<MemDisk, Fail> {
    let failing = Vec::from_slice(alloc, &[failing])?;
    let bytes = bytes.to_vec(alloc)?;
    Ok(MemDisk::new(alloc, bytes, 100_000, failing, stop_after)?)
}

/// A disk that holds these bytes, and does not fail.
pub(crate) fn sound_disk(alloc: Global, bytes: &[u8]) -> Result<MemDisk, Fail> {
    disk(alloc, bytes, 0, u64::MAX)
}

/// A source that gives this file, a byte a call, standard output that takes five bytes a call, standard error that takes one, and a disk.
pub(crate) fn narrow_devices(
    alloc: Global,
    file: &[u8],
    failing: Failing,
    disk: MemDisk,
) -> Result<Devices, Fail> {
    let reads = Vec::from_slice(alloc, &[failing.read])?;
    let writes = Vec::from_slice(alloc, &[failing.write])?;
    let reports = Vec::from_slice(alloc, &[failing.report])?;
    Ok(Devices {
        source: MemSource::new(alloc, file.to_vec(alloc)?, 1, reads)?,
        out: MemSink::new(alloc, 5, 1000, writes)?,
        err: MemSink::new(alloc, 1, 1000, reports)?,
        disk,
    })
}

/// Runs these words, and has the workers enter their squares by a gate.
pub(crate) fn ran<W: Threads + Wait + Clock + Sync, G: Gate + Sync>(
    wait: &W,
    alloc: Global,
    words: &[&str],
    devices: Devices,
    gate: &G,
) -> Outcome {
    let Devices {
        mut source,
        mut out,
        mut err,
        disk,
    } = devices;
    let ended = run(
        wait,
        wait,
        alloc,
        words,
        &mut source,
        &mut out,
        &mut err,
        disk,
        gate,
    );
    Outcome {
        status: ended.status,
        out,
        err,
        disk: ended.disk,
    }
}

/// Compares the status, the text and the line of a run.
pub(crate) fn assert_outcome<R: Abort>(
    rt: &R,
    outcome: &Outcome,
    words: &[&str],
    ended: (u8, &str, &str),
) -> Result<(), Fail> {
    let (text, line) = (
        from_utf8(outcome.out.written())?,
        from_utf8(outcome.err.written())?,
    );
    assert_eq!(rt; (outcome.status, text, line), ended, "at {words:?}");
    Ok(())
}

/// Compares the status, the text and the line of these words, and gives the disk back.
pub(crate) fn run_over<W: Threads + Wait + Clock + Sync + Abort>(
    rt: &W,
    alloc: Global,
    words: &[&str],
    devices: Devices,
    ended: (u8, &str, &str),
) -> Result<MemDisk, Fail> {
    let outcome = ran(rt, alloc, words, devices, &OpenGate);
    assert_outcome(rt, &outcome, words, ended)?;
    Ok(outcome.disk)
}

/// As `run_over` over a sound source of no bytes and sound sinks.
pub(crate) fn run_over_disk<W: Threads + Wait + Clock + Sync + Abort>(
    rt: &W,
    alloc: Global,
    words: &[&str],
    disk: MemDisk,
    ended: (u8, &str, &str),
) -> Result<MemDisk, Fail> {
    run_over(
        rt,
        alloc,
        words,
        narrow_devices(alloc, b"", SOUND, disk)?,
        ended,
    )
}
