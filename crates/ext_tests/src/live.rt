//! What no clause says of runs with `--live`: that there is memory for them, that lines come while squares are made, and that standard
//! error which fails stops nothing else.
use crate::runs::{Failing, SOUND, STEMS_8, assert_outcome, narrow_devices, ran, sound_disk};
use edge::{Failed, Sink};
use ext_run::run;
use square_worker::{Gate, OpenGate};
use std::str::from_utf8;
use std::sync::atomic::{AtomicU64, Ordering};
use std::test::Fail;
use std::thread;

const WORDS: [&str; 6] = ["sphere", "4", "8", "--workers", "3", "--live"];

/// More bytes than the lines of 45 squares have.
const MOST_BYTES: u64 = 45 * 20;

/// How often a worker looks whether a line has come.
const MOST_TURNS: u64 = 200_000_000;

/// The number of finished squares in a line.
fn number_in(line: &str) -> Option<u64> {
    let rest = line.strip_prefix("live ")?;
    let number = rest.strip_suffix(" of 45")?;
    number.parse::<u64>().ok()
}

/// Whether the lines have rising numbers of 45 squares, and the last has all.
fn rise_to_all(text: &str) -> bool {
    let mut last = 0;
    for line in text.lines() {
        let Some(number) = number_in(line) else {
            return false;
        };
        if number <= last {
            return false;
        }
        last = number;
    }
    last == 45
}

#[test]
fn one_square(rt: HostRuntime) -> Result<(), Fail> {
    let alloc = rt.alloc();
    let words = ["sphere", "0", "0", "--live"];
    let devices = narrow_devices(alloc, b"", SOUND, sound_disk(alloc, b"")?)?;
    let outcome = ran(&rt, alloc, &words, devices, &OpenGate);
    assert_outcome(
        &rt,
        &outcome,
        &words,
        (0, " 0 |1\nstems 0..0\n", "live 1 of 1\n"),
    )
}

// Standard error takes a byte a call. Where its call k fails, it has got the k - 1 bytes before it; in the end no call is number k.
#[test]
fn standard_error_fails(rt: HostRuntime) -> Result<(), Fail> {
    let alloc = rt.alloc();
    let mut whole = false;
    for k in 1..MOST_BYTES {
        let failing = Failing { report: k, ..SOUND };
        let devices = narrow_devices(alloc, b"", failing, sound_disk(alloc, b"")?)?;
        let outcome = ran(&rt, alloc, &WORDS, devices, &OpenGate);
        let text = from_utf8(outcome.err.written())?;
        assert_eq!(rt;
            (outcome.status, from_utf8(outcome.out.written())?),
            (0, STEMS_8)
        );
        whole = rise_to_all(text);
        if whole {
            break;
        }
        assert_eq!(rt; text.len() as u64 + 1, k);
    }
    assert!(rt; whole);
    Ok(())
}

// The line of a failure stands behind the reports.
#[test]
fn a_failure_behind_reports(rt: HostRuntime) -> Result<(), Fail> {
    let alloc = rt.alloc();
    let failing = Failing { write: 1, ..SOUND };
    let devices = narrow_devices(alloc, b"", failing, sound_disk(alloc, b"")?)?;
    let outcome = ran(&rt, alloc, &WORDS, devices, &OpenGate);
    let text = from_utf8(outcome.err.written())?;
    assert_eq!(rt; (outcome.status, outcome.out.written().len()), (7, 0));
    assert!(rt;
        text.strip_suffix("ext: writing failed\n")
            .is_some_and(rise_to_all)
    );
    Ok(())
}

/// Standard error that counts the calls that it gets.
#[derive(Drop)]
struct Heard<'a> {
    calls: &'a AtomicU64,
}

impl Sink for Heard<'_> {
    ghost use Rattle.std.specs.Prelude.{None};

    ghost written = { λ heard. None };

    ghost faults = { λ heard. 0 };

    fn write(&mut self, bytes: &[u8]) -> Result<usize, Failed> {
        self.calls.fetch_add(1, Ordering::SeqCst);
        Ok(bytes.len())
    }
}

/// A gate that holds the square (1, 1) until standard error has had a call, and counts that it has.
#[derive(Drop)]
struct Listening<'a> {
    calls: &'a AtomicU64,
    heard: AtomicU64,
}

impl Gate for Listening<'_> {
    fn entered(&self, s: u16, t: i32) {
        if (s, t) != (1, 1) {
            return;
        }
        for _ in 0..MOST_TURNS {
            if self.calls.load(Ordering::SeqCst) > 0 {
                self.heard.fetch_add(1, Ordering::SeqCst);
                return;
            }
            thread::yield_now();
        }
    }
}

// A watcher that reports only when the workers have ended would not be heard here, nor where the gate is passed by.
#[test]
fn a_line_comes_while_a_square_is_held(rt: HostRuntime) -> Result<(), Fail> {
    let alloc = rt.alloc();
    let calls = AtomicU64::new(0);
    let gate = Listening {
        calls: &calls,
        heard: AtomicU64::new(0),
    };
    let mut err = Heard { calls: &calls };
    let devices = narrow_devices(alloc, b"", SOUND, sound_disk(alloc, b"")?)?;
    let mut source = devices.source;
    let mut out = devices.out;
    let ended = run(
        &rt,
        &rt,
        alloc,
        &["sphere", "1", "1", "--workers", "2", "--live"],
        &mut source,
        &mut out,
        &mut err,
        devices.disk,
        &gate,
    );
    assert_eq!(rt; (ended.status, gate.heard.load(Ordering::SeqCst)), (0, 1));
    Ok(())
}
