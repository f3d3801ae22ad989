//! Where bytes go.
ghost use Rattle.std.specs.Prelude.{◌≡◌, ℕ, ◌<◌, ◌≤◌, Option, Some, List, [], true, false, length, take, IfOk, OnOk, OnErr};
ghost use Rattle.edge.specs.Faults.{HasRisen};
ghost use Rattle.edge.specs.Sink.{with_more, HasPrefixMore, write_fails, write_count, after_write, after_failed_write};

use crate::faults::Failed;
use memory::Memory;
use std::alloc::Global;
use std::marker::Model;

/// What takes bytes.
pub trait Sink {
    /// What it got so far, none where it does not tell.
    ghost written: { Self → Option (List ℕ) };

    /// How often it has failed.
    ghost faults: { Self → ℕ };

    /// Takes some first bytes of `bytes`, at least one, and answers how many.
    ///
    /// # Errors
    /// `Failed` if the sink failed. It has taken none of them then.
    fn write(&mut self, bytes: &[u8]) -> Result<usize, Failed>
        requires { 0 < length bytes.now }
        ensures count { IfOk result (λ n. (0 < n) × (n ≤ length bytes.now)) }
        ensures taken { IfOk result (λ n. written self.new ≡ with_more (written self.old) (take n bytes.now)) }
        ensures refused { OnErr result (written self.new ≡ written self.old) }
        ensures never_fall { faults self.old ≤ faults self.new }
        ensures no_fault { OnOk result (faults self.new ≡ faults self.old) }
        ensures cause { OnErr result (HasRisen (faults self.old) (faults self.new)) };
}

/// Writes all of `bytes` to the sink, call by call. After an error it has got some first bytes of them.
///
/// # Errors
/// `Failed` if a call of the sink failed.
pub fn write_all<S: Sink>(sink: &mut S, bytes: &[u8]) -> Result<(), Failed>
    ensures whole { OnOk result (S.written sink.new ≡ with_more (S.written sink.old) bytes.now) }
    ensures no_fault { OnOk result (S.faults sink.new ≡ S.faults sink.old) }
    ensures never_fall { S.faults sink.old ≤ S.faults sink.new }
    ensures cause { OnErr result (HasRisen (S.faults sink.old) (S.faults sink.new)) }
    ensures prefix { HasPrefixMore bytes.now (S.written sink.old) (S.written sink.new) }
{
    let mut done = 0;
    while done < bytes.len() {
        let count = sink.write(&bytes[done..])?;
        done += count;
    }
    Ok(())
}

/// A sink in memory, which holds what it gets.
#[derive(Debug, Drop)]
pub struct MemSink {
    written: Vec<u8>,
    piece: usize,
    room: usize,
    failing: Vec<u64>,
    calls: u64,
    faults: u64,
}

impl Model for MemSink {
    ghost use Rattle.std.specs.Prelude.{◌<◌, ◌≤◌, vec_capacity, vec_len};
    ghost use Rattle.edge.specs.Sink.{Held};

    ghost Value = { Held };

    ghost view = { λ s. record {
      written = s.written.items;
      piece = s.piece;
      room = s.room;
      failing = s.failing.items;
      calls = s.calls;
      faults = s.faults;
    } };

    ghost invariant = { λ s. (0 < s.piece) × (s.room ≤ vec_capacity s.written) };
}

impl MemSink {
    /// A sink that takes at most `piece` bytes a call and holds at most `room` in all. The calls in `failing` fail,
    /// counted from 1.
    ///
    /// # Errors
    /// `Memory` if allocation fails.
    pub fn new(
        alloc: Global,
        piece: usize,
        room: usize,
        failing: Vec<u64>,
    ) -> Result<MemSink, Memory>
        requires { 0 < piece }
        ensures { IfOk result (λ sink. sink ≡ record {
          written = [];
          piece = piece;
          room = room;
          failing = failing.items;
          calls = 0;
          faults = 0;
        }) }
    {
        Ok(MemSink {
            written: Vec::with_capacity(alloc, room)?,
            piece,
            room,
            failing,
            calls: 0,
            faults: 0,
        })
    }

    /// What it holds.
    pub fn written(&self) -> &[u8]
        ensures { result.now ≡ self.now.written }
    {
        self.written.as_slice()
    }

    /// How often it has failed.
    pub fn faults(&self) -> u64
        ensures { result ≡ self.now.faults }
    {
        self.faults
    }

    /// Whether the next call fails.
    fn fails_next(&self) -> bool
        ensures { result ≡ write_fails self.now }
    {
        let call = self.calls.saturating_add(1);
        self.room <= self.written.len() || self.failing.contains(&call)
    }

    /// How many of `len` bytes the next call takes, where it does not fail.
    fn next_count(&self, len: usize) -> usize
        requires { write_fails self.now ≡ false }
        ensures count { result ≡ write_count self.now len }
        ensures some { 0 < len → 0 < result }
    {
        let left = self.room - self.written.len();
        len.min(self.piece).min(left)
    }
}

impl Sink for MemSink {
    ghost written = { λ s. Some s.written };

    ghost faults = { λ s. s.faults };

    fn write(&mut self, bytes: &[u8]) -> Result<usize, Failed>
        requires { 0 < length bytes.now }
        ensures count { IfOk result (λ n. (0 < n) × (n ≤ length bytes.now)) }
        ensures taken { IfOk result
            (λ n. Some self.new.written ≡ with_more (Some self.old.written) (take n bytes.now)) }
        ensures refused { OnErr result (Some self.new.written ≡ Some self.old.written) }
        ensures never_fall { self.old.faults ≤ self.new.faults }
        ensures no_fault { OnOk result (self.new.faults ≡ self.old.faults) }
        ensures cause { OnErr result (HasRisen self.old.faults self.new.faults) }
        ensures takes { IfOk result (λ n. (write_fails self.old ≡ false) × (n ≡ write_count self.old (length bytes.now))
            × (self.new ≡ after_write self.old bytes.now)) }
        ensures fails { OnErr result ((write_fails self.old ≡ true) × (self.new ≡ after_failed_write self.old)) }
    {
        let fails = self.fails_next();
        if fails {
            self.calls = self.calls.saturating_add(1);
            self.faults = self.faults.saturating_add(1);
            return Err(Failed);
        }
        let count = self.next_count(bytes.len());
        // The room is taken at the start, so this takes no memory.
        let taken = self.written.extend_from_slice(&bytes[..count]);
        self.calls = self.calls.saturating_add(1);
        match taken {
            Ok(()) => Ok(count),
            Err(_) => Err(Failed),
        }
    }
}
