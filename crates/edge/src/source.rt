//! Where bytes come from.
ghost use Rattle.std.specs.Prelude.{◌≡◌, ℕ, ◌<◌, ◌≤◌, ◌↔◌, Option, Some, List, [], ◌++◌, true, false, length, take, drop, IfSome, IfOk, IsOkAnd, OnOk, OnErr};
ghost use Rattle.edge.specs.Faults.{HasRisen};
ghost use Rattle.edge.specs.Source.{without_first, read_fails, read_count, after_read, after_failed_read};

use crate::faults::Failed;
use memory::Memory;
use std::alloc::Global;
use std::marker::Model;

/// What gives bytes.
pub trait Source {
    /// What it has left, none where it does not tell.
    ghost left: { Self → Option (List ℕ) };

    /// How often it has failed.
    ghost faults: { Self → ℕ };

    /// Moves some first bytes of what is left to the beginning of `into`, and answers how many: 0 only at the end.
    /// What `into` holds behind them is open.
    ///
    /// # Errors
    /// `Failed` if the source failed. Nothing has been moved then, and what `into` holds is open.
    fn read(&mut self, into: &mut [u8]) -> Result<usize, Failed>
        requires { 0 < length into.old }
        ensures count { IfOk result (λ n. n ≤ length into.old) }
        ensures given { IfOk result (λ n. IfSome (left self.old) (λ l. take n into.new ≡ take n l)) }
        ensures rest { IfOk result (λ n. left self.new ≡ without_first (left self.old) n) }
        ensures end { IfOk result (λ n. IfSome (left self.old) (λ l. (n ≡ 0) ↔ (l ≡ []))) }
        ensures refused { OnErr result (left self.new ≡ left self.old) }
        ensures never_fall { faults self.old ≤ faults self.new }
        ensures no_fault { OnOk result (faults self.new ≡ faults self.old) }
        ensures cause { OnErr result (HasRisen (faults self.old) (faults self.new)) };
}

/// A source of tests, which gives the bytes that it holds.
#[derive(Debug, Drop)]
pub struct MemSource {
    bytes: Vec<u8>,
    at: usize,
    piece: usize,
    failing: Vec<u64>,
    calls: u64,
    faults: u64,
}

impl Model for MemSource {
    ghost use Rattle.std.specs.Prelude.{◌<◌, ◌≤◌, drop, vec_len};
    ghost use Rattle.edge.specs.Source.{Supply};

    ghost Value = { Supply };

    ghost view = { λ s. record {
      left = drop s.at s.bytes.items;
      piece = s.piece;
      failing = s.failing.items;
      calls = s.calls;
      faults = s.faults;
    } };

    ghost invariant = { λ s. (0 < s.piece) × (s.at ≤ vec_len s.bytes) };
}

impl MemSource {
    /// A source of `bytes` that gives at most `piece` of them a call. The calls in `failing` fail, counted from 1. It needs
    /// no allocator, and takes one so that it is made as the sinks and disks of tests are.
    ///
    /// # Errors
    /// None: it takes over the memory that it needs.
    pub fn new(
        _alloc: Global,
        bytes: Vec<u8>,
        piece: usize,
        failing: Vec<u64>,
    ) -> Result<MemSource, Memory>
        requires { 0 < piece }
        ensures { IsOkAnd result (λ source. source ≡ record {
          left = bytes.items;
          piece = piece;
          failing = failing.items;
          calls = 0;
          faults = 0;
        }) }
    {
        Ok(MemSource {
            bytes,
            at: 0,
            piece,
            failing,
            calls: 0,
            faults: 0,
        })
    }

    /// What it has left.
    pub fn left(&self) -> &[u8]
        ensures { result.now ≡ self.now.left }
    {
        &self.bytes[self.at..]
    }

    /// How often it has failed.
    pub fn faults(&self) -> u64
        ensures { result ≡ self.now.faults }
    {
        self.faults
    }

    /// Whether the next read fails.
    fn read_fails(&self) -> bool
        ensures { result ≡ read_fails self.now }
    {
        let call = self.calls.saturating_add(1);
        self.failing.contains(&call)
    }

    /// How many bytes the next read gives, where it does not fail and `len` are asked for.
    fn read_count(&self, len: usize) -> usize
        ensures count { result ≡ read_count self.now len }
        ensures some { 0 < len → ((result ≡ 0) ↔ (self.now.left ≡ [])) }
    {
        let left = self.bytes.len() - self.at;
        len.min(self.piece).min(left)
    }
}

impl Source for MemSource {
    ghost left = { λ s. Some s.left };

    ghost faults = { λ s. s.faults };

    fn read(&mut self, into: &mut [u8]) -> Result<usize, Failed>
        requires { 0 < length into.old }
        ensures count { IfOk result (λ n. n ≤ length into.old) }
        ensures given { IfOk result (λ n. take n into.new ≡ take n self.old.left) }
        ensures rest { IfOk result (λ n. Some self.new.left ≡ without_first (Some self.old.left) n) }
        ensures end { IfOk result (λ n. (n ≡ 0) ↔ (self.old.left ≡ [])) }
        ensures refused { OnErr result (Some self.new.left ≡ Some self.old.left) }
        ensures never_fall { self.old.faults ≤ self.new.faults }
        ensures no_fault { OnOk result (self.new.faults ≡ self.old.faults) }
        ensures cause { OnErr result (HasRisen self.old.faults self.new.faults) }
        ensures gives { IfOk result (λ n. (read_fails self.old ≡ false) × (n ≡ read_count self.old (length into.old))
            × (self.new ≡ after_read self.old (length into.old))) }
        ensures fills { IfOk result (λ n. into.new ≡ take n self.old.left ++ drop n into.old) }
        ensures fails { OnErr result ((read_fails self.old ≡ true) × (self.new ≡ after_failed_read self.old)
            × (into.new ≡ into.old)) }
    {
        let fails = self.read_fails();
        if fails {
            self.calls = self.calls.saturating_add(1);
            self.faults = self.faults.saturating_add(1);
            return Err(Failed);
        }
        let count = self.read_count(into.len());
        let end = self.at + count;
        into[..count].copy_from_slice(&self.bytes[self.at..end]);
        self.at = end;
        self.calls = self.calls.saturating_add(1);
        Ok(count)
    }
}
