//! Runs of which one read or one write fails, each in turn.
use crate::runs::{C2, Failing, SOUND, STEMS_8, narrow_devices, run_over, sound_disk};
use std::alloc::Global;
use std::process::Abort;
use std::sync::Wait;
use std::test::Fail;
use std::thread::Threads;
use std::time::Clock;

/// Sq1 Sq1 is not 0 on it.
const NO_MODULE: &[u8] =
    br#"{"type":"finite dimensional module","gens":{"x0":0,"x1":1,"x2":2},"actions":["Sq1 x0 = x1","Sq1 x1 = x2"]}"#;

/// Compares how these words end where one call of a stream fails.
fn assert_ended<W: Threads + Wait + Clock + Sync + Abort>(
    rt: &W,
    alloc: Global,
    words: &[&str],
    file: &[u8],
    failing: Failing,
    ended: (u8, &str, &str),
) -> Result<(), Fail> {
    let devices = narrow_devices(alloc, file, failing, sound_disk(alloc, b"")?)?;
    let _ = run_over(rt, alloc, words, devices, ended)?;
    Ok(())
}

/// A byte a read, and one more read for the end.
#[test]
fn reads_that_fail(rt: HostRuntime) -> Result<(), Fail> {
    let failed = (6, "", "ext: reading the module failed\n");
    let accepted = (0, "accepted 2 generators, degrees 0..1\n", "");
    let reads = (C2.len() as u64).saturating_add(1);
    for before in 0..=reads {
        let ended = if before < reads { failed } else { accepted };
        let failing = Failing {
            read: before.saturating_add(1),
            ..SOUND
        };
        assert_ended(&rt, rt.alloc(), &["check"], C2, failing, ended)?;
    }
    Ok(())
}

/// Five bytes of the text a write: 15 writes for its 71 bytes.
#[test]
fn writes_that_fail(rt: HostRuntime) -> Result<(), Fail> {
    for written in 0..=15 {
        let ended = match STEMS_8.get(..5 * written) {
            Some(first) => (7, first, "ext: writing failed\n"),
            None => (0, STEMS_8, ""),
        };
        let failing = Failing {
            write: (written as u64).saturating_add(1),
            ..SOUND
        };
        assert_ended(&rt, rt.alloc(), &["sphere", "4", "8"], b"", failing, ended)?;
    }
    Ok(())
}

/// A byte of the line a write. The status stays.
#[test]
fn reports_that_fail(rt: HostRuntime) -> Result<(), Fail> {
    let line = "ext: not a module: Sq(1) Sq(1) on x0\n";
    for written in 0..=line.len() {
        let ended = (4, "", line.get(..written).unwrap_or(line));
        let failing = Failing {
            report: (written as u64).saturating_add(1),
            ..SOUND
        };
        assert_ended(&rt, rt.alloc(), &["check"], NO_MODULE, failing, ended)?;
    }
    Ok(())
}
