//! What no clause says: that two workers work at once, and pass the gate before they make a square.
use crate::runs::{SOUND, assert_outcome, narrow_devices, ran, sound_disk};
use square_worker::Gate;
use std::sync::atomic::{AtomicU64, Ordering};
use std::test::Fail;
use std::thread;

/// How often a worker looks whether the other has come.
const MOST_TURNS: u64 = 200_000_000;

/// How often the worker of the first square looks whether a later one was entered.
const FIRST_TURNS: u64 = 100_000;

/// A gate that holds each of the squares (0, 1) and (1, 0) until the other was entered, and counts who came for nothing. It
/// also holds the square (0, 0) for a while, and tells whether another was entered meanwhile, which none may be before it is
/// made.
#[derive(Drop)]
struct Meeting {
    early: AtomicU64,
    left: AtomicU64,
    right: AtomicU64,
    missed: AtomicU64,
}

impl Meeting {
    // Comes, and waits for the other.
    fn meets(&self, own: &AtomicU64, other: &AtomicU64) {
        own.store(1, Ordering::SeqCst);
        for _ in 0..MOST_TURNS {
            if other.load(Ordering::SeqCst) == 1 {
                return;
            }
            thread::yield_now();
        }
        self.missed.store(1, Ordering::SeqCst);
    }

    // Looks for a while whether one of the two was entered.
    fn waits_alone(&self) {
        for _ in 0..FIRST_TURNS {
            if self.left.load(Ordering::SeqCst) == 1 || self.right.load(Ordering::SeqCst) == 1 {
                self.early.store(1, Ordering::SeqCst);
            }
            thread::yield_now();
        }
    }
}

impl Gate for Meeting {
    fn entered(&self, s: u16, t: i32) {
        match (s, t) {
            (0, 0) => self.waits_alone(),
            (0, 1) => self.meets(&self.left, &self.right),
            (1, 0) => self.meets(&self.right, &self.left),
            _ => {}
        }
    }
}

// One worker after another would miss each other here, and a gate that is passed after a square was given would be early.
#[test]
fn two_workers_work_at_once(rt: HostRuntime) -> Result<(), Fail> {
    let alloc = rt.alloc();
    let meeting = Meeting {
        early: AtomicU64::new(0),
        left: AtomicU64::new(0),
        right: AtomicU64::new(0),
        missed: AtomicU64::new(0),
    };
    let words = ["sphere", "1", "1", "--workers", "2"];
    let devices = narrow_devices(alloc, b"", SOUND, sound_disk(alloc, b"")?)?;
    let outcome = ran(&rt, alloc, &words, devices, &meeting);
    assert_outcome(
        &rt,
        &outcome,
        &words,
        (0, " 1 |1\n 0 |1.\nstems 0..1\n", ""),
    )?;
    let entered = (
        meeting.left.load(Ordering::SeqCst),
        meeting.right.load(Ordering::SeqCst),
    );
    assert_eq!(rt; entered, (1, 1));
    assert_eq!(rt; meeting.missed.load(Ordering::SeqCst), 0);
    assert_eq!(rt; meeting.early.load(Ordering::SeqCst), 0);
    Ok(())
}
