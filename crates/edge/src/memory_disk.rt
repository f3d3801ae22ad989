//! A disk of tests.
ghost use Rattle.std.specs.Prelude.{◌≡◌, ◌⊎◌, ℕ, ◌+◌, ◌-◌, ◌^◌, ◌<◌, ◌≤◌, ◌↔◌, Option, Some, List, [], ◌++◌, true, false, length, take, drop, replicate, max, vec_len, vec_capacity, IfOk, OnOk, OnErr, refl};
ghost use Rattle.edge.specs.Disk.{written, Torn, Follows, Only, AreTold, Elapses, Passes};
ghost use Rattle.edge.specs.Faults.{HasRisen, one_up};
ghost use Rattle.edge.specs.Inside.MemDisk.{content, last_synced, marked, IsSound, IsImage, ImageAt, age, Since, opened, wrote, synced, call_fails, after_failed_call, after_look, after_write, after_sync, image_of, shifted, content_is_image, at_now_in, some_image_in, since_is_in, counts_now_in, only_now_in, since_earlier_in};

use crate::disk::Disk;
use crate::faults::Failed;
use crate::history::Past;
use memory::Memory;
use std::alloc::{AllocError, Global};
use std::marker::Model;

/// A disk of tests, which holds its bytes in memory, and tells what a crash may leave of them. Its calls take no memory. All
/// room is taken when it is made: for the bytes, for those of the last sync, and for a mark at each place.
#[derive(Drop)]
pub struct MemDisk {
    bytes: Vec<u8>,
    /// The bytes of the last sync.
    synced: Vec<u8>,
    /// For each place whether it was written since the last sync.
    touched: Vec<bool>,
    past: Past,
    room: usize,
    /// How many bytes it was opened with and were written since.
    used: usize,
    failing: Vec<u64>,
    stop_after: u64,
    calls: u64,
    faults: u64,
}

impl Model for MemDisk {
    ghost use Rattle.std.specs.Prelude.{◌≡◌, ◌≤◌, vec_capacity, vec_len};
    ghost use Rattle.edge.specs.Inside.MemDisk.{Stored, content, last_synced, marked, IsSound};

    ghost Value = { Stored };

    ghost view = { λ s. record {
      history = s.past;
      room = s.room;
      used = s.used;
      failing = s.failing.items;
      stop_after = s.stop_after;
      calls = s.calls;
      faults = s.faults;
    } };

    ghost invariant = { λ s. record {
      bytes_are : s.bytes.items ≡ content s.past.first s.past.steps;
      synced_are : s.synced.items ≡ last_synced s.past.first s.past.steps;
      touched_are : s.touched.items ≡ marked s.past.first s.past.steps;
      sound : IsSound s.past.first s.past.steps;
      marks : vec_len s.touched ≡ vec_len s.bytes;
      within : vec_len s.bytes ≤ s.used;
      used_within : s.used ≤ s.room;
      room_bytes : s.room ≤ vec_capacity s.bytes;
      room_synced : s.room ≤ vec_capacity s.synced;
      room_touched : s.room ≤ vec_capacity s.touched;
    } };
}

/// Writes the bytes into the vector from `at` on, over what is there and past the end.
fn put(v: &mut Vec<u8>, at: usize, bytes: &[u8])
    requires at { at ≤ vec_len v.old }
    requires room { at + length bytes.now ≤ vec_capacity v.old }
    ensures items { v.new.items ≡ written at bytes.now v.old.items }
    ensures capacity { vec_capacity v.old ≤ vec_capacity v.new }
{
    let inside = bytes.len().min(v.len() - at);
    v[at..at + inside].copy_from_slice(&bytes[..inside]);
    // There is room.
    let _ = v.extend_from_slice(&bytes[inside..]);
}

/// Marks `n` places of the vector from `at` on, past the end too.
fn mark(v: &mut Vec<bool>, at: usize, n: usize)
    requires at { at ≤ vec_len v.old }
    requires room { at + n ≤ vec_capacity v.old }
    ensures items { v.new.items ≡ take at v.old.items ++ replicate n true ++ drop (at + n) v.old.items }
    ensures capacity { vec_capacity v.old ≤ vec_capacity v.new }
{
    let inside = n.min(v.len() - at);
    for k in 0..inside {
        v[at + k] = true;
    }
    if inside < n {
        // There is room.
        let _ = v.resize(at + n, true);
    }
}

/// Makes the vector hold these bytes, and no others.
fn copy_over(from: &[u8], into: &mut Vec<u8>)
    requires room { length from.now ≤ vec_capacity into.old }
    ensures items { into.new.items ≡ from.now }
    ensures capacity { vec_capacity into.old ≤ vec_capacity into.new }
{
    into.clear();
    // There is room.
    let _ = into.extend_from_slice(from);
}

/// Adds the number to each byte at a marked place.
fn shift(bytes: &mut [u8], marked: &[bool], by: u8)
    requires { length marked.now ≡ length bytes.old }
    ensures { bytes.new ≡ shifted by bytes.old marked.now }
{
    for i in 0..bytes.len() {
        if marked[i] {
            bytes[i] = bytes[i].wrapping_add(by);
        }
    }
}

impl MemDisk {
    /// A disk that holds these bytes. The calls in `failing`, counted from 1, and those after the first `stop_after` ones
    /// fail; and so does a call with which the bytes here, the bytes written and the calls would be more than `room`. Calls
    /// that fail are counted too. If `room` is not above the number of bytes here, each call fails.
    ///
    /// # Errors
    /// `Memory` if allocation fails.
    pub fn new(
        alloc: Global,
        bytes: Vec<u8>,
        room: usize,
        failing: Vec<u64>,
        stop_after: u64,
    ) -> Result<MemDisk, Memory>
        ensures { IfOk result (λ d. d ≡ record {
          history = opened bytes.items;
          room = max room (vec_len bytes);
          used = vec_len bytes;
          failing = failing.items;
          stop_after = stop_after;
          calls = 0;
          faults = 0;
        }) }
    {
        // With less room each call fails, as with just this much.
        let room = room.max(bytes.len());
        let mut held = Vec::with_capacity(alloc, room)?;
        held.extend_from_slice(&bytes)?;
        let mut synced = Vec::with_capacity(alloc, room)?;
        synced.extend_from_slice(&bytes)?;
        let mut touched = Vec::with_capacity(alloc, room)?;
        touched.resize(bytes.len(), false)?;
        let used = bytes.len();
        Ok(MemDisk {
            past: Past::opened(&bytes),
            bytes: held,
            synced,
            touched,
            room,
            used,
            failing,
            stop_after,
            calls: 0,
            faults: 0,
        })
    }

    /// Whether the next call fails, where it has `n` bytes to write.
    fn fails_next(&self, n: usize) -> bool
        ensures { result ≡ call_fails self.now n }
    {
        let call = self.calls.saturating_add(1);
        let room = self.room as u128;
        let need = self.used as u128 + call as u128 + n as u128;
        self.failing.contains(&call) || self.stop_after < call || room < need
    }

    /// The image that a number picks.
    fn picked(&self, alloc: Global, pick: u64) -> Result<Vec<u8>, AllocError>
        ensures picked { IfOk result (λ v. v.items ≡ image_of pick self.now.history) }
        ensures sound { IsSound self.now.history.first self.now.history.steps }
    {
        match pick {
            0 => self.synced.to_vec(alloc),
            1 => self.bytes.to_vec(alloc),
            _ => {
                let mut image = self.bytes.to_vec(alloc)?;
                shift(&mut image, &self.touched, (pick % 256) as u8);
                Ok(image)
            }
        }
    }

    /// One of the images now: for 0 the file as it was last synced, for 1 the file as it has been written since, and for any other
    /// number the latter, where each byte that is not settled is greater by that number, mod 256; so 256 gives what 1 gives.
    ///
    /// # Errors
    /// `Memory` if allocation fails.
    pub fn image(&self, alloc: Global, pick: u64) -> Result<Vec<u8>, Memory>
        ensures picked { IfOk result (λ v. v.items ≡ image_of pick self.now.history) }
        ensures image { IfOk result (λ v. IsImage self.now.history.first self.now.history.steps v.items) }
    {
        Ok(self.picked(alloc, pick)?)
    }

    /// What a read gives.
    pub fn bytes(&self) -> &[u8]
        ensures { result.now ≡ content self.now.history.first self.now.history.steps }
    {
        self.bytes.as_slice()
    }

    /// How often it was called.
    pub fn calls(&self) -> u64
        ensures { result ≡ self.now.calls }
    {
        self.calls
    }

    /// How often it has failed.
    pub fn faults(&self) -> u64
        ensures { result ≡ self.now.faults }
    {
        self.faults
    }
}

impl Disk for MemDisk {
    ghost now = { λ d. Some (content d.history.first d.history.steps) };

    ghost moment = { λ d. age d.history.first d.history.steps };

    ghost images = { λ d c. IsImage d.history.first d.history.steps c };

    ghost images_at = { λ d t c. ImageAt d.history.first d.history.steps t c };

    ghost since = { λ d t c. Since d.history.first d.history.steps t c };

    ghost faults = { λ d. d.faults };

    fn len(&mut self) -> Result<u64, Failed>
        ensures len { IfOk result (λ n. n ≡ length (content self.old.history.first self.old.history.steps)) }
        ensures limit { IfOk result (λ n. n < 2 ^ 63) }
        ensures done { OnOk result ((call_fails self.old 0 ≡ false) × (self.new ≡ after_look self.old)) }
        ensures fails { OnErr result ((call_fails self.old 0 ≡ true) × (self.new ≡ after_failed_call self.old)) }
        ensures never_fall { self.old.faults ≤ self.new.faults }
    {
        let fails = self.fails_next(0);
        self.calls = self.calls.saturating_add(1);
        if fails {
            self.faults = self.faults.saturating_add(1);
            return Err(Failed);
        }
        Ok(self.bytes.len() as u64)
    }

    fn read(&mut self, at: u64, into: &mut [u8]) -> Result<(), Failed>
        requires within { at + length into.old ≤ length (content self.old.history.first self.old.history.steps) }
        ensures read { OnOk result
            (into.new ≡ take (length into.old) (drop at (content self.old.history.first self.old.history.steps))) }
        ensures done { OnOk result ((call_fails self.old 0 ≡ false) × (self.new ≡ after_look self.old)) }
        ensures fails { OnErr result ((call_fails self.old 0 ≡ true) × (self.new ≡ after_failed_call self.old)) }
        ensures never_fall { self.old.faults ≤ self.new.faults }
    {
        let fails = self.fails_next(0);
        self.calls = self.calls.saturating_add(1);
        if fails {
            self.faults = self.faults.saturating_add(1);
            return Err(Failed);
        }
        let at = at as usize;
        let end = at + into.len();
        into.copy_from_slice(&self.bytes[at..end]);
        Ok(())
    }

    fn write_at(&mut self, at: u64, bytes: &[u8]) -> Result<(), Failed>
        requires within { at ≤ length (content self.old.history.first self.old.history.steps) }
        ensures limit { OnOk result (at + length bytes.now < 2 ^ 63) }
        ensures images { Follows (Torn at (length bytes.now))
            (λ c. IsImage self.old.history.first self.old.history.steps c)
            (λ c. IsImage self.new.history.first self.new.history.steps c) }
        ensures passes { Passes (age self.old.history.first self.old.history.steps)
            (age self.new.history.first self.new.history.steps)
            (λ t c. ImageAt self.old.history.first self.old.history.steps t c)
            (λ t c. ImageAt self.new.history.first self.new.history.steps t c)
            (λ c. IsImage self.new.history.first self.new.history.steps c) }
        ensures done { OnOk result ((call_fails self.old (length bytes.now) ≡ false)
            × (self.new ≡ after_write self.old at bytes.now)) }
        ensures fails { OnErr result ((call_fails self.old (length bytes.now) ≡ true)
            × (self.new ≡ after_failed_call self.old)) }
        ensures never_fall { self.old.faults ≤ self.new.faults }
    {
        let fails = self.fails_next(bytes.len());
        self.calls = self.calls.saturating_add(1);
        if fails {
            self.faults = self.faults.saturating_add(1);
            return Err(Failed);
        }
        put(&mut self.bytes, at as usize, bytes);
        mark(&mut self.touched, at as usize, bytes.len());
        self.used += bytes.len();
        self.past.wrote(at, bytes);
        Ok(())
    }

    fn sync(&mut self) -> Result<(), Failed>
        ensures images { (c : List ℕ) → IsImage self.new.history.first self.new.history.steps c →
            IsImage self.old.history.first self.old.history.steps c }
        ensures passes { Passes (age self.old.history.first self.old.history.steps)
            (age self.new.history.first self.new.history.steps)
            (λ t c. ImageAt self.old.history.first self.old.history.steps t c)
            (λ t c. ImageAt self.new.history.first self.new.history.steps t c)
            (λ c. IsImage self.new.history.first self.new.history.steps c) }
        ensures done { OnOk result ((call_fails self.old 0 ≡ false) × (self.new ≡ after_sync self.old)) }
        ensures fails { OnErr result ((call_fails self.old 0 ≡ true) × (self.new ≡ after_failed_call self.old)) }
        ensures never_fall { self.old.faults ≤ self.new.faults }
    {
        let fails = self.fails_next(0);
        self.calls = self.calls.saturating_add(1);
        if fails {
            self.faults = self.faults.saturating_add(1);
            return Err(Failed);
        }
        copy_over(&self.bytes, &mut self.synced);
        self.touched.fill(false);
        self.past.synced();
        Ok(())
    }

    ghost now_is_image = { λ d. content_is_image d.history.first d.history.steps };

    ghost images_at_now = { λ d c. at_now_in d.history.first d.history.steps c };

    ghost some_image = { λ d. some_image_in d.history.first d.history.steps };

    ghost since_is = { λ d t c. since_is_in d.history.first d.history.steps t c };

    ghost counts_now = { λ d c image. counts_now_in d.history.first d.history.steps c image };

    ghost only_now = { λ d c since. only_now_in d.history.first d.history.steps c since };

    ghost since_earlier = { λ d t u c le since. since_earlier_in d.history.first d.history.steps t u c le since };
}
