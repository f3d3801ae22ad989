//! Runs of which a call of the disk fails, alone or with all that come after it, by one worker, three and seven; and what they leave to
//! the next run.
use crate::runs::{STEMS_8, disk, run_over_disk, sound_disk};
use edge::MemDisk;
use std::alloc::Global;
use std::process::Abort;
use std::sync::Wait;
use std::test::Fail;
use std::thread::Threads;
use std::time::Clock;

/// How many calls of an empty disk the run takes: four to open it, and four for each square.
const CALLS: u64 = 184;

const ALONE: [&str; 6] = ["sphere", "4", "8", "--save", "--workers", "1"];

const THREE: [&str; 6] = ["sphere", "4", "8", "--save", "--workers", "3"];

const SEVEN: [&str; 6] = ["sphere", "4", "8", "--save", "--workers", "7"];

const SQUARES: u64 = 45;

/// How many squares an empty disk has got for good where so many calls of it did not fail.
fn kept_after(calls: u64) -> u64 {
    calls.saturating_sub(4) / 4
}

/// How many squares a run found on its disk, which was called three to five times to open it, and four times for each that was not there.
fn found_by(run: &MemDisk) -> u64 {
    SQUARES.saturating_sub(run.calls().saturating_sub(3) / 4)
}

/// A run over this disk fails, says so and prints nothing. Over each of three images of that disk the run prints all, and has found so
/// many squares, or one more.
fn assert_goes_on<W: Threads + Wait + Clock + Sync + Abort>(
    rt: &W,
    alloc: Global,
    words: &[&str],
    failing: MemDisk,
    kept: u64,
) -> Result<(), Fail> {
    let failed = (8, "", "ext: the save file failed\n");
    let left = run_over_disk(rt, alloc, words, failing, failed)?;
    for pick in 0..3 {
        let image = left.image(alloc, pick)?;
        let image = sound_disk(alloc, image.as_slice())?;
        let next = run_over_disk(rt, alloc, words, image, (0, STEMS_8, ""))?;
        let found = found_by(&next);
        assert!(rt;
            kept <= found && found.saturating_sub(kept) <= 1,
            "{kept} squares, of which image {pick} has {found}"
        );
    }
    Ok(())
}

/// Each call of an empty disk fails alone.
fn assert_each_failing<W: Threads + Wait + Clock + Sync + Abort>(
    rt: &W,
    alloc: Global,
    words: &[&str],
) -> Result<(), Fail> {
    for before in 0..CALLS {
        let failing = disk(alloc, b"", before + 1, u64::MAX)?;
        assert_goes_on(rt, alloc, words, failing, kept_after(before))?;
    }
    Ok(())
}

/// Each call of an empty disk fails, and all after it.
fn assert_each_stop<W: Threads + Wait + Clock + Sync + Abort>(
    rt: &W,
    alloc: Global,
    words: &[&str],
) -> Result<(), Fail> {
    for before in 0..CALLS {
        let failing = disk(alloc, b"", 0, before)?;
        assert_goes_on(rt, alloc, words, failing, kept_after(before))?;
    }
    Ok(())
}

#[test]
fn calls_that_fail_alone(rt: HostRuntime) -> Result<(), Fail> {
    assert_each_failing(&rt, rt.alloc(), &ALONE)
}

#[test]
fn calls_that_fail_among_three(rt: HostRuntime) -> Result<(), Fail> {
    assert_each_failing(&rt, rt.alloc(), &THREE)
}

#[test]
fn stops_alone(rt: HostRuntime) -> Result<(), Fail> {
    assert_each_stop(&rt, rt.alloc(), &ALONE)
}

#[test]
fn stops_among_three(rt: HostRuntime) -> Result<(), Fail> {
    assert_each_stop(&rt, rt.alloc(), &THREE)
}

#[test]
fn stops_among_seven(rt: HostRuntime) -> Result<(), Fail> {
    for before in [0, 5, 100, CALLS - 1] {
        let failing = disk(rt.alloc(), b"", 0, before)?;
        assert_goes_on(&rt, rt.alloc(), &SEVEN, failing, kept_after(before))?;
    }
    Ok(())
}

/// Past the last call nothing fails. A finished disk is called four times, and each of these may fail.
fn assert_finished<W: Threads + Wait + Clock + Sync + Abort>(
    rt: &W,
    alloc: Global,
    words: &[&str],
) -> Result<(), Fail> {
    let empty = disk(alloc, b"", CALLS + 1, CALLS)?;
    let whole = run_over_disk(rt, alloc, words, empty, (0, STEMS_8, ""))?;
    assert_eq!(rt; whole.calls(), CALLS);
    for call in 1..=4 {
        let failing = disk(alloc, whole.bytes(), call, u64::MAX)?;
        assert_goes_on(rt, alloc, words, failing, SQUARES)?;
    }
    let again = disk(alloc, whole.bytes(), 5, 4)?;
    let again = run_over_disk(rt, alloc, words, again, (0, STEMS_8, ""))?;
    assert_eq!(rt; again.bytes(), whole.bytes());
    Ok(())
}

#[test]
fn finished_disks(rt: HostRuntime) -> Result<(), Fail> {
    let alloc = rt.alloc();
    assert_finished(&rt, alloc, &ALONE)?;
    assert_finished(&rt, alloc, &THREE)?;
    assert_finished(&rt, alloc, &SEVEN)
}
