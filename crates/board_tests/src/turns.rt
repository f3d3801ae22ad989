//! What no clause says: that there is memory for each call, and that turns are had, in one thread and in two.
ghost use Rattle.std.specs.Prelude.{◌≡◌, ℕ, ◌+◌, ◌<◌, false, true, [], ◌∷◌, ◌++◌, length, IfOk, All, slice_index_or};
ghost use Rattle.turn_lock.specs.Turns.{new_pass};

use memory::Memory;
use std::alloc::Global;
use std::marker::Model;
use std::sync::Wait;
use std::test::*;
use std::thread;
use std::thread::Threads;
use std::time::Clock;
use turn_lock::{Pass, Told, Turn};

/// Bytes, each with the number of the pass that added it. Its one front is how many there are.
#[derive(Drop)]
struct Log {
    bytes: Vec<(u64, u8)>,
}

impl Model for Log {
    ghost use Rattle.std.specs.Prelude.{ℕ, List};

    ghost Value = { List (ℕ × ℕ) };

    ghost view = { λ l. l.bytes.items };
}

impl Log {
    fn empty(alloc: Global) -> Log
        ensures { result ≡ [] }
    {
        Log {
            bytes: Vec::new(alloc),
        }
    }

    /// Adds a byte, where there is room.
    fn add(&mut self, by: u64, byte: u8) -> bool
        ensures added { result ≡ true → self.new ≡ self.old ++ (by, byte) ∷ [] }
        ensures full { result ≡ false → self.new ≡ self.old }
        ensures room { length self.new < 9223372036854775808 }
    {
        let room = self.bytes.reserve(1).is_ok() && self.bytes.len() < 1000000;
        if room {
            self.bytes.push_reserved((by, byte));
        }
        room
    }

    /// How many bytes the pass of this number added.
    fn of(&self, by: u64) -> usize {
        self.bytes.iter().filter(|entry| entry.0 == by).count()
    }
}

impl Told for Log {
    type Name = ();

    type Entry = u8;

    ghost name = { λ _. tt };

    ghost entries = { λ l. l };

    ghost front_of = { λ _ l _. length l };

    ghost width = { λ _. 1 };

    fn length(&self) -> u64 {
        self.bytes.len() as u64
    }

    fn front(&self, _i: usize) -> u64 {
        self.bytes.len() as u64
    }
}

/// A turn at no bytes, with its two passes.
fn opened(alloc: Global) -> Result<(Turn<Log>, Pass<Log>, Pass<Log>), Memory>
    ensures two { IfOk result (λ t. t.0.passes ≡ 2) }
    ensures first { IfOk result (λ t. t.1 ≡ new_pass t.0 0) }
    ensures second { IfOk result (λ t. t.2 ≡ new_pass t.0 1) }
{
    let Ok((turn, mut row)) = Turn::new(alloc, Log::empty(alloc), 1, 2) else {
        return Err(Memory);
    };
    let Some(second) = row.pop() else {
        return Err(Memory);
    };
    let Some(first) = row.pop() else {
        return Err(Memory);
    };
    Ok((turn, first, second))
}

/// One turn, which adds a byte where there is room.
fn add<R: Wait + Clock>(wait: &R, turn: &Turn<Log>, pass: &mut Pass<Log>, byte: u8) -> bool
    requires { (pass.old.turn ≡ turn.now) × (pass.old.holds ≡ false) }
    ensures same { (pass.new.turn ≡ turn.now) × (pass.new.holds ≡ false) × (pass.new.number ≡ pass.old.number) }
    ensures added { result ≡ true → pass.new.own ≡ pass.old.own ++ byte ∷ [] }
{
    let mut held = turn.acquire(wait, pass);
    let added = held.value.add(pass.number(), byte);
    turn.release(pass, held);
    added
}

/// One turn, which adds nothing.
fn look<R: Wait + Clock>(wait: &R, turn: &Turn<Log>, pass: &mut Pass<Log>)
    requires { (pass.old.turn ≡ turn.now) × (pass.old.holds ≡ false) }
    ensures { (pass.new.turn ≡ turn.now) × (pass.new.holds ≡ false) × (pass.new.number ≡ pass.old.number) }
{
    let held = turn.acquire(wait, pass);
    turn.release(pass, held);
}

/// Joins the second pass into the first, and ends the turn.
fn closed(turn: Turn<Log>, mut first: Pass<Log>, second: Pass<Log>) -> Log
    requires two { turn.passes ≡ 2 }
    requires first { (first.turn ≡ turn) × (first.holds ≡ false) × (first.number ≡ 0) }
    requires second { (second.turn ≡ turn) × (second.holds ≡ false) × (second.number ≡ 1) }
{
    turn.join(&mut first, second);
    turn.close(first)
}

/// Each pass adds bytes in a thread of its own, and looks at the count and the front after each.
fn add_in_threads<R: Threads + Wait + Clock + Sync>(
    rt: &R,
    turn: &Turn<Log>,
    row: &mut [Pass<Log>],
    times: u64,
)
    requires { All (λ p. (p.turn ≡ turn.now) × (p.holds ≡ false)) row.old }
    ensures { (i : ℕ) (d : _) → i < length row.old →
        ((slice_index_or row.new i d).turn ≡ turn.now) × ((slice_index_or row.new i d).holds ≡ false)
        × ((slice_index_or row.new i d).number ≡ (slice_index_or row.old i d).number) }
{
    thread::for_each_mut(
        rt,
        row,
        2,
        &|_i, pass: &mut Pass<Log>|
            requires { (pass.now.turn ≡ turn.now) × (pass.now.holds ≡ false) }
            ensures { (pass.exit.now.turn ≡ turn.entry.now) × (pass.exit.now.holds ≡ false)
                × (pass.exit.now.number ≡ pass.entry.now.number) }
        { add_often(rt, turn, pass, times) },
    );
}

/// Takes turns that add a byte each.
fn add_often<R: Wait + Clock>(wait: &R, turn: &Turn<Log>, pass: &mut Pass<Log>, times: u64)
    requires { (pass.old.turn ≡ turn.now) × (pass.old.holds ≡ false) }
    ensures { (pass.new.turn ≡ turn.now) × (pass.new.holds ≡ false) × (pass.new.number ≡ pass.old.number) }
{
    for _ in 0..times {
        let _added = add(wait, turn, pass, 7);
        let _front = turn.front(pass, 0);
        let _count = turn.count(pass);
    }
}

/// A log to which two threads added so many bytes each.
fn filled<R: Threads + Wait + Clock + Sync>(
    rt: &R,
    alloc: Global,
    times: u64,
) -> Result<Log, Memory> {
    let (turn, first, second) = opened(alloc)?;
    let mut pair = [first, second];
    add_in_threads(rt, &turn, &mut pair, times);
    let [first, second] = pair;
    Ok(closed(turn, first, second))
}

#[test]
fn one_entry(rt: HostRuntime) -> Result<(), Fail> {
    let (turn, mut pass, mut other) = opened(rt.alloc())?;
    assert_eq!(rt; turn.count(&mut pass), 0);
    assert!(rt; add(&rt, &turn, &mut pass, 7));
    assert_eq!(rt; turn.count(&mut pass), 1);
    assert_eq!(rt; turn.front(&mut pass, 0), 1);
    look(&rt, &turn, &mut pass);
    assert_eq!(rt; turn.count(&mut pass), 1);
    // the other pass has seen no entry yet, so its rest ends at once
    turn.rest(&rt, &mut other);
    assert_eq!(rt; turn.count(&mut other), 1);
    let log = closed(turn, pass, other);
    assert_eq!(rt; (log.of(0), log.of(1)), (1, 0));
    Ok(())
}

#[test]
fn two_threads(rt: HostRuntime) -> Result<(), Fail> {
    let log = filled(&rt, rt.alloc(), 2000)?;
    assert_eq!(rt; log.length(), 4000);
    assert_eq!(rt; log.front(0), 4000);
    assert_eq!(rt; (log.of(0), log.of(1)), (2000, 2000));
    Ok(())
}
