//! What `run_one` answers, whatever number of workers the words say; and laws.
use crate::runs::{
    C2, Devices, Outcome, SOUND, STEMS_8, assert_outcome, narrow_devices, sound_disk,
};
use edge::{MemDisk, MemSink, MemSource};
use ext_run::{
    answer_is_unique, certificate_is_decided, has_live, next_run_may_use_what_is_left,
    next_run_prints_the_same, run_one, short_disk_is_ours, verify_accepts_what_is_made,
};
use resolution_laws::canonical_table_is_unique;
use std::alloc::Global;
use std::process::Abort;
use std::test::Fail;

/// What these words come to, which have no `--live`.
fn ran_alone<R: Abort>(rt: &R, alloc: Global, words: &[&str], devices: Devices) -> Outcome {
    let Devices {
        mut source,
        mut out,
        mut err,
        disk,
    } = devices;
    assert!(rt; !has_live(words));
    let ended = run_one(rt, alloc, words, &mut source, &mut out, &mut err, disk);
    Outcome {
        status: ended.status,
        out,
        err,
        disk: ended.disk,
    }
}

#[test]
fn one_worker(rt: HostRuntime) -> Result<(), Fail> {
    let alloc = rt.alloc();
    for (line, status, text, refusal) in [
        ("sphere 4 8 --workers=7", 0, STEMS_8, ""),
        ("check", 0, "accepted 2 generators, degrees 0..1\n", ""),
        (
            "products 2 6 --by 1,1,0 --workers 3 --save",
            0,
            "(0,0,0) -> 0\n(1,2,0) -> 0\n(1,3,0) -> (2,4,0)\n(1,4,0) -> 0\n",
            "",
        ),
        (
            "massey 3 8 --a=0,0,0 --b=1,1,0 --c=0,0,0 --save",
            10,
            "",
            "ext: product ab is not zero: (1,1,0)\n",
        ),
        (
            "sphere 4",
            2,
            "",
            "ext: words outside the command grammar\n",
        ),
    ] {
        let words: Vec<&str> = line.split(' ').collect(alloc)?;
        let devices = narrow_devices(alloc, C2, SOUND, sound_disk(alloc, b"")?)?;
        let outcome = ran_alone(&rt, alloc, words.as_slice(), devices);
        assert_outcome(&rt, &outcome, words.as_slice(), (status, text, refusal))?;
    }
    Ok(())
}

// For runs in which one allocation is refused: all of the text, or nothing and the status for it.
#[test]
fn answers_without_memory(rt: HostRuntime) -> Result<(), Fail> {
    let alloc = rt.alloc();
    let devices = narrow_devices(alloc, C2, SOUND, sound_disk(alloc, b"")?)?;
    let words = ["resolve", "1", "2"];
    let outcome = ran_alone(&rt, alloc, &words, devices);
    let ended = if outcome.status == 12 {
        (12, "", "ext: out of memory\n")
    } else {
        (0, " 1 |.1\n 0 |1..\nstems 0..2\n", "")
    };
    assert_outcome(&rt, &outcome, &words, ended)
}

#[test]
fn laws(_rt: HostRuntime) {
    canonical_table_is_unique();
    answer_is_unique();
    next_run_may_use_what_is_left::<MemDisk>();
    next_run_prints_the_same::<MemSource, MemSink, MemSink, MemDisk>();
    verify_accepts_what_is_made::<MemSource, MemSink, MemSink, MemDisk>();
    short_disk_is_ours::<MemDisk>();
    certificate_is_decided();
}
