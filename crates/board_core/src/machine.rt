//! The board as the machine that its definition says.
ghost use Rattle.std.specs.Prelude.{◌≡◌, ℕ, ◌<◌, ◌≤◌, ◌+◌, ◌-◌, ◌^◌, ◌↔◌, ◌+ℤ◌, ◌≤ℤ◌, pos, Some, None, Ok, Err, true, false, ◌||◌, [], vec_capacity, vec_len, length, IfOk, IfSome, OnSome, OnOk, OnErr};
ghost use Rattle.std.specs.Bool.{Decides};
ghost use Rattle.bidegree.specs.Above.{above_of};
ghost use Rattle.bidegree.specs.LastDegrees.{last_degree};
ghost use Rattle.board_core.specs.Board.{IsSound, below_fronts, state_of, IsTaken, IsReadyAt, is_done_at, is_out_at};
ghost use Rattle.board_core.specs.Inside.{has_row, IsBounded, IsMarked};
ghost use Rattle.board_core.specs.Machine.{Squares, AllInRows, IsStart, IsAbove, opening, squares_of, stands_in, stands, is_meant, IsReady, IsRowNumber, IsRowNumberBelow, IsLegal, IsLegalTake, IsHeld, IsHeldWithoutCause, IsBegun, IsLegalStop, has_entry, has_failed, is_out, after, without};
ghost use Rattle.board_core.specs.declared.event.Event.TheVariants.{Take, Give, Back, Fail, Stop, Open};
ghost use Rattle.board_core.specs.declared.event.CoreFault as CoreFault;
ghost use Rattle.board_core.specs.declared.event.CoreFault.TheVariants.{NotLegal, Memory as NoMemory};

use crate::event::{Cause, CoreFault, Event, Out};
use crate::fronts::Fronts;
use bidegree::{Range, Shape, above_of};
use ghost_list::GhostList;
use memory::Memory;
use std::alloc::Global;
use std::marker::Model;
use std::mem::swap;

/// The board of the squares of a range: which are done, which are out and who has them, and why no more are given out.
/// Each event changes it as the machine's definition says.
///
/// Contracts see the fronts of its rows, and `state_of` is the state that these stand for: there the squares that are done
/// are a function, which is no value of a model.
#[derive(Drop)]
pub struct Core {
    shape: Shape,
    rows: u16,
    degrees: u16,
    bottom: i32,
    fronts: Fronts,
    out: Vec<Out>,
    /// Which rows of the range have a square that is out. It is the only one of its row, the first that is not done, so
    /// `ready` looks once at each row.
    busy: Vec<bool>,
    failed: Option<Out>,
    /// The squares that the save file has, each by its row and its degree, in their order.
    file: GhostList<(u16, i32)>,
    cause: Option<Cause>,
    running: bool,
    /// The squares of the file while the board does not run, and none while it does.
    aside: Fronts,
}

impl Model for Core {
    ghost use Rattle.std.specs.Prelude.{◌-◌, true, vec_capacity, vec_len, length};
    ghost use Rattle.board_core.specs.Board.{Board, below_fronts};
    ghost use Rattle.board_core.specs.Inside.{IsWellKept};

    ghost Value = { Board };

    ghost view = { λ c. record {
      shape = c.shape;
      rows = c.rows;
      degrees = c.degrees;
      bottom = c.bottom;
      fronts = c.fronts;
      out = c.out.items;
      failed = c.failed;
      file = c.file;
      cause = c.cause;
      running = c.running;
      spare = vec_capacity c.out - vec_len c.out;
    } };

    ghost invariant = { λ c. IsWellKept
        (record {
          shape = c.shape;
          rows = c.rows;
          degrees = c.degrees;
          bottom = c.bottom;
          done = below_fronts c.fronts;
          out = c.out.items;
          failed = c.failed;
          file = c.file;
          cause = c.cause;
          running = c.running;
        })
        (length c.fronts) c.busy.items c.aside };
}

impl Core {
    /// The board before the first event. Its range is of this shape, in the rows through `s` and the degrees from `m` through
    /// `m + t`. The squares of `start`, each given by its row and its degree, are done; they need not lie in the range. None of them
    /// lies below the bottom: of row 0 this does not follow from each standing after its parents, since a square there has
    /// none.
    ///
    /// # Errors
    /// `Memory` if allocation fails: there are two fronts for each row through the last of the range and of `start`, that of
    /// the done squares and that of the file's, and a mark for each row of the range. No front is added later, since the
    /// square of an event lies in the range.
    pub fn new(
        alloc: Global,
        shape: Shape,
        range: Range,
        m: i32,
        start: &[(u16, i32)],
    ) -> Result<Core, Memory>
        requires fits { (m +ℤ pos range.t) ≤ℤ pos (2 ^ 31 - 1) }
        requires start { IsStart (stands_in shape range.s range.t) m start.now }
        ensures { IfOk result (λ core. state_of core ≡ opening m shape range.s range.t start.now) }
    {
        let last = last_row(range.s, start);
        Ok(Core {
            shape,
            rows: range.s,
            degrees: range.t,
            bottom: m,
            fronts: fronts_of(alloc, m, last, start)?,
            out: Vec::new(alloc),
            busy: vec![in alloc; false; usize::from(range.s) + 1]?,
            failed: None,
            file: GhostList::of(start),
            cause: None,
            running: true,
            aside: Fronts::none(alloc, usize::from(last) + 1)?,
        })
    }

    /// Reserves room for `n` more squares that are out, so that the next `n` events cannot fail with `Memory`.
    ///
    /// # Errors
    /// `Memory` if allocation fails; the board is then as before.
    pub fn reserve(&mut self, n: usize) -> Result<(), Memory>
        ensures state { state_of self.new ≡ state_of self.old }
        ensures ok { OnOk result (n ≤ self.new.spare) }
        ensures spare { self.old.spare ≤ self.new.spare }
    {
        self.out.reserve(n)?;
        Ok(())
    }

    /// Does what the event says, where the machine accepts it.
    ///
    /// # Errors
    /// `NotLegal` with the event exactly where the machine does not accept it, and `Memory` if there is no room for one more
    /// square that is out and allocation fails. After either the board is as before.
    pub fn apply(&mut self, event: Event) -> Result<(), CoreFault>
        ensures accepts { OnOk result (IsLegal (state_of self.old) event) }
        ensures effect { OnOk result (state_of self.new ≡ after (state_of self.old) event) }
        ensures refuses { (result ≡ Err (NotLegal event)) ↔ (IsLegal (state_of self.old) event → ⊥) }
        ensures returned { (other : Event) → result ≡ Err (NotLegal other) → other ≡ event }
        ensures memory { result ≡ Err CoreFault.Memory → self.old.spare ≡ 0 }
        ensures unchanged { OnErr result (state_of self.new ≡ state_of self.old) }
        ensures spare { OnOk result (self.old.spare ≤ self.new.spare + 1) }
        ensures kept { OnErr result (self.old.spare ≤ self.new.spare) }
    {
        let accepted = match event {
            Event::Take {
                who,
                s,
                t,
                snapshot,
            } => self.take(who, s, t, snapshot)?,
            Event::Give { who, s, t } => self.give(who, s, t),
            Event::Back { who, s, t } => self.back(who, s, t),
            Event::Fail { who, s, t } => self.fail(who, s, t),
            Event::Stop { in_file } => self.stop(in_file),
            Event::Open => self.open(),
        };
        if !accepted {
            return Err(CoreFault::NotLegal { event });
        }
        Ok(())
    }

    /// A square that may be taken: one of the least degree in which there is such a square. None exactly where there is none.
    pub fn ready(&self) -> Option<(u16, i32)>
        ensures some { IfSome result (λ q. IsReadyAt (state_of self.now) q.0 q.1) }
        ensures least { IfSome result (λ q. (s k : ℕ) → IsReady (state_of self.now) s k →
            q.1 ≤ℤ (self.now.bottom +ℤ pos k)) }
        ensures none { result ≡ None → (s k : ℕ) → IsReady (state_of self.now) s k → ⊥ }
    {
        if !self.running || self.cause.is_some() {
            return None;
        }
        let (s, above) = self.least_open()?;
        Some((s, self.bottom + above as i32))
    }

    /// Whether the first square of row `s` that is not done is in the range and has its parents done. It may be out.
    pub fn has_next(&self, s: u16) -> bool
        requires { s ≤ self.now.rows }
        ensures { Decides result ((k : ℕ) × IsTaken (state_of self.now) s k) }
    {
        let front = self.fronts.front(s);
        if front > u64::from(self.degrees) || !self.is_meant(s, front) {
            return false;
        }
        s == 0 || !self.stands(s, front) || front < self.fronts.front(s - 1)
    }

    /// A row that has a square which may be taken while the board runs and no cause stands, with how many degrees the square is
    /// above the bottom. No such square of another row is of a lower degree.
    fn least_open(&self) -> Option<(u16, u64)>
        requires running { self.now.running ≡ true }
        requires no_cause { self.now.cause ≡ None }
        ensures some { IfSome result (λ q. IsReady (state_of self.now) q.0 q.1) }
        ensures least { IfSome result (λ q. (s k : ℕ) → IsReady (state_of self.now) s k → q.1 ≤ k) }
        ensures none { result ≡ None → (s k : ℕ) → IsReady (state_of self.now) s k → ⊥ }
    {
        let mut least = None;
        for s in 0..=self.rows {
            least = self.lesser(least, s);
        }
        least
    }

    /// The row that was found before, if there is one, or row `s` if that has a square which may be taken, of a lower degree.
    fn lesser(&self, found: Option<(u16, u64)>, s: u16) -> Option<(u16, u64)>
        requires row { s ≤ self.now.rows }
        requires running { self.now.running ≡ true }
        requires no_cause { self.now.cause ≡ None }
        requires found { IfSome found (λ q. IsReady (state_of self.now) q.0 q.1) }
        ensures some { IfSome result (λ q. IsReady (state_of self.now) q.0 q.1) }
        ensures before { IfSome found (λ p. IfSome result (λ q. q.1 ≤ p.1)) }
        ensures here { IfSome result (λ q. (k : ℕ) → IsReady (state_of self.now) s k → q.1 ≤ k) }
        ensures none { result ≡ None → found ≡ None }
        ensures none_here { result ≡ None → (k : ℕ) → IsReady (state_of self.now) s k → ⊥ }
    {
        if !self.is_open(s) {
            return found;
        }
        let front = self.fronts.front(s);
        match found {
            Some((_, least)) if least <= front => found,
            _ => Some((s, front)),
        }
    }

    /// Whether the square in row `s` and of degree `t` is done.
    pub fn done(&self, s: u16, t: i32) -> bool
        ensures done { result ≡ is_done_at (state_of self.now) s t }
        ensures is_sound { IsSound (state_of self.now) }
    {
        match above_of(self.bottom, t) {
            Some(above) => self.fronts.has(s, above),
            None => false,
        }
    }

    /// Whether the square in row `s` and of degree `t` is out.
    pub fn out(&self, s: u16, t: i32) -> bool
        ensures { result ≡ is_out_at (state_of self.now) s t }
    {
        match above_of(self.bottom, t) {
            Some(above) => self.is_out(s, above),
            None => false,
        }
    }

    /// Why no more squares are given out, none where they are.
    pub fn stopped(&self) -> Option<Cause>
        ensures { result ≡ self.now.cause }
    {
        self.cause
    }

    /// The square goes out to `who`, where it may be taken and the snapshot is right. Answers whether it did.
    fn take(&mut self, who: u64, s: u16, t: i32, snapshot: (u64, u64)) -> Result<bool, Memory>
        ensures accepts { result ≡ Ok true → IsLegalTake (state_of self.old) s t snapshot }
        ensures effect { result ≡ Ok true → state_of self.new ≡ after (state_of self.old) (Take who s t snapshot) }
        ensures refuses { result ≡ Ok false → IsLegalTake (state_of self.old) s t snapshot → ⊥ }
        ensures same { result ≡ Ok false → self.new ≡ self.old }
        ensures memory { OnErr result (IsLegalTake (state_of self.old) s t snapshot) }
        ensures full { OnErr result (self.old.spare ≡ 0) }
        ensures unchanged { OnErr result (state_of self.new ≡ state_of self.old) }
        ensures spare { OnOk result (self.old.spare ≤ self.new.spare + 1) }
    {
        let Some(above) = above_of(self.bottom, t) else {
            return Ok(false);
        };
        let may_take = self.is_ready(s, above) && self.is_seen(s, snapshot);
        if !may_take {
            return Ok(false);
        }
        self.out.push(Out { who, s, above })?;
        self.busy[usize::from(s)] = true;
        Ok(true)
    }

    /// Marks the square that `who` has as done. Returns false, and changes nothing, if `who` does not have it or a cause stands.
    fn give(&mut self, who: u64, s: u16, t: i32) -> bool
        ensures accepts { result ≡ true → IsHeldWithoutCause (state_of self.old) who s t }
        ensures effect { result ≡ true → state_of self.new ≡ after (state_of self.old) (Give who s t) }
        ensures refuses { result ≡ false → IsHeldWithoutCause (state_of self.old) who s t → ⊥ }
        ensures same { result ≡ false → state_of self.new ≡ state_of self.old }
        ensures spare { self.old.spare ≤ self.new.spare }
    {
        let Some(above) = self.held_without_cause(who, s, t) else {
            return false;
        };
        take_from(&mut self.out, &mut self.busy, s, above);
        self.fronts.add(s, above);
        self.file = self.file.then(&(s, t));
        true
    }

    /// The square that `who` has is out no more, and no more squares are given out. Answers whether `who` had it.
    fn back(&mut self, who: u64, s: u16, t: i32) -> bool
        ensures accepts { result ≡ true → IsHeld (state_of self.old) who s t }
        ensures effect { result ≡ true → state_of self.new ≡ after (state_of self.old) (Back who s t) }
        ensures refuses { result ≡ false → IsHeld (state_of self.old) who s t → ⊥ }
        ensures same { result ≡ false → state_of self.new ≡ state_of self.old }
        ensures spare { self.old.spare ≤ self.new.spare }
    {
        let Some(above) = self.held(who, s, t) else {
            return false;
        };
        take_from(&mut self.out, &mut self.busy, s, above);
        self.cause = Some(self.cause.unwrap_or(Cause::Memory));
        true
    }

    /// The square that `who` has is the one that failed. Answers whether it is, which it is not where a cause stands.
    fn fail(&mut self, who: u64, s: u16, t: i32) -> bool
        ensures accepts { result ≡ true → IsHeldWithoutCause (state_of self.old) who s t }
        ensures effect { result ≡ true → state_of self.new ≡ after (state_of self.old) (Fail who s t) }
        ensures refuses { result ≡ false → IsHeldWithoutCause (state_of self.old) who s t → ⊥ }
        ensures same { result ≡ false → state_of self.new ≡ state_of self.old }
        ensures spare { self.old.spare ≤ self.new.spare }
    {
        let Some(above) = self.held_without_cause(who, s, t) else {
            return false;
        };
        take_from(&mut self.out, &mut self.busy, s, above);
        self.failed = Some(Out { who, s, above });
        self.cause = Some(Cause::Failed);
        true
    }

    /// The run ends. The file gets the square, if one is named. Answers whether it ended, which it does not where the board does
    /// not run, nor where the square is neither out nor the one that failed.
    fn stop(&mut self, in_file: Option<(u16, i32)>) -> bool
        ensures accepts { result ≡ true → IsLegalStop (state_of self.old) in_file }
        ensures effect { result ≡ true → state_of self.new ≡ after (state_of self.old) (Stop in_file) }
        ensures refuses { result ≡ false → IsLegalStop (state_of self.old) in_file → ⊥ }
        ensures same { result ≡ false → state_of self.new ≡ state_of self.old }
        ensures spare { self.old.spare ≤ self.new.spare }
    {
        if !self.running {
            return false;
        }
        if let Some(last) = in_file {
            let Some(above) = self.begun(last.0, last.1) else {
                return false;
            };
            self.fronts.add(last.0, above);
            self.file = self.file.then(&last);
        }
        swap(&mut self.fronts, &mut self.aside);
        self.out.clear();
        unmark(&mut self.busy);
        self.failed = None;
        self.running = false;
        true
    }

    /// Another run begins, with the squares of the file. Answers whether it does, which it does not while the board runs.
    fn open(&mut self) -> bool
        ensures accepts { result ≡ true → self.old.running ≡ false }
        ensures effect { result ≡ true → state_of self.new ≡ after (state_of self.old) Open }
        ensures refuses { result ≡ false → self.old.running ≡ false → ⊥ }
        ensures same { result ≡ false → state_of self.new ≡ state_of self.old }
        ensures spare { self.old.spare ≤ self.new.spare }
    {
        if self.running {
            return false;
        }
        swap(&mut self.fronts, &mut self.aside);
        self.cause = None;
        self.running = true;
        true
    }

    /// How many degrees above the bottom the square is, where it is out or is the one that failed.
    fn begun(&self, s: u16, t: i32) -> Option<u64>
        ensures above { IfSome result (λ k. IsAbove self.now.bottom t k) }
        ensures begun { IfSome result (λ k. (is_out self.now.out s k || has_failed self.now.failed s k) ≡ true) }
        ensures taken { IfSome result (λ k. IsTaken (state_of self.now) s k) }
        ensures none { result ≡ None → IsBegun (state_of self.now) s t → ⊥ }
        ensures is_bounded { IsBounded self.now.rows self.now.degrees self.now.bottom (length self.now.fronts) }
    {
        let above = above_of(self.bottom, t)?;
        if !self.is_begun(s, above) {
            return None;
        }
        Some(above)
    }

    /// Whether the square is out, or is the one that failed.
    fn is_begun(&self, s: u16, k: u64) -> bool
        ensures { result ≡ (is_out self.now.out s k || has_failed self.now.failed s k) }
    {
        self.is_out(s, k) || has_failed(self.failed, s, k)
    }

    /// How many degrees above the bottom the square is, where the board runs and `who` has it.
    fn held(&self, who: u64, s: u16, t: i32) -> Option<u64>
        ensures running { OnSome result (self.now.running ≡ true) }
        ensures above { IfSome result (λ k. IsAbove self.now.bottom t k) }
        ensures held { IfSome result (λ k. has_entry self.now.out who s k ≡ true) }
        ensures taken { IfSome result (λ k. IsTaken (state_of self.now) s k) }
        ensures none { result ≡ None → IsHeld (state_of self.now) who s t → ⊥ }
        ensures is_bounded { IsBounded self.now.rows self.now.degrees self.now.bottom (length self.now.fronts) }
    {
        if !self.running {
            return None;
        }
        let above = above_of(self.bottom, t)?;
        if !has_entry(&self.out, who, s, above) {
            return None;
        }
        Some(above)
    }

    /// How many degrees above the bottom the square is that `who` has. `None` if the board is closed, if `who` does not have it, or if
    /// a cause stands.
    fn held_without_cause(&self, who: u64, s: u16, t: i32) -> Option<u64>
        ensures running { OnSome result (self.now.running ≡ true) }
        ensures no_cause { OnSome result (self.now.cause ≡ None) }
        ensures above { IfSome result (λ k. IsAbove self.now.bottom t k) }
        ensures held { IfSome result (λ k. has_entry self.now.out who s k ≡ true) }
        ensures taken { IfSome result (λ k. IsTaken (state_of self.now) s k) }
        ensures none { result ≡ None → IsHeldWithoutCause (state_of self.now) who s t → ⊥ }
        ensures is_bounded { IsBounded self.now.rows self.now.degrees self.now.bottom (length self.now.fronts) }
    {
        match self.cause {
            Some(_) => None,
            None => self.held(who, s, t),
        }
    }

    /// Whether the square may be taken.
    fn is_ready(&self, s: u16, k: u64) -> bool
        ensures decides { Decides result (IsReady (state_of self.now) s k) }
        ensures is_bounded { IsBounded self.now.rows self.now.degrees self.now.bottom (length self.now.fronts) }
    {
        if !self.running || self.cause.is_some() || s > self.rows {
            return false;
        }
        k == self.fronts.front(s) && self.has_next(s) && !self.is_out(s, k)
    }

    /// Whether a square of row `s` may be taken while the board runs and no cause stands.
    fn is_open(&self, s: u16) -> bool
        requires { s ≤ self.now.rows }
        ensures yes { result ≡ true → self.now.running ≡ true → self.now.cause ≡ None →
            (k : ℕ) × IsReady (state_of self.now) s k }
        ensures no { result ≡ false → (k : ℕ) → IsReady (state_of self.now) s k → ⊥ }
    {
        !self.busy[usize::from(s)] && self.has_next(s)
    }

    /// Whether the square is meant, where it is in the rows and degrees of the range.
    fn is_meant(&self, s: u16, k: u64) -> bool
        requires { s ≤ self.now.rows }
        ensures { result ≡ is_meant (state_of self.now) s k }
    {
        match self.shape {
            Shape::Rectangle => true,
            Shape::Stems => k < u64::from(self.last_degree(s)) + 2,
        }
    }

    /// Whether the square stands on the one of its degree in the row below.
    fn stands(&self, s: u16, k: u64) -> bool
        requires { s ≤ self.now.rows }
        ensures { result ≡ stands (state_of self.now) s k }
    {
        match self.shape {
            Shape::Rectangle => true,
            Shape::Stems => k < u64::from(self.last_degree(s)) + 1,
        }
    }

    /// The last degree of row `s`, above the bottom.
    fn last_degree(&self, s: u16) -> u16
        requires { s ≤ self.now.rows }
        ensures { result ≡ last_degree self.now.shape (record { s = self.now.rows; t = self.now.degrees }) s }
    {
        let range = Range {
            s: self.rows,
            t: self.degrees,
        };
        self.shape.last_degree(range, s)
    }

    /// Whether so many squares of row `s` and of the row below are done.
    fn is_seen(&self, s: u16, snapshot: (u64, u64)) -> bool
        ensures yes { result ≡ true → IsRowNumber (below_fronts self.now.fronts) s snapshot.0 }
        ensures yes_below { result ≡ true → IsRowNumberBelow (below_fronts self.now.fronts) s snapshot.1 }
        ensures no { IsRowNumber (below_fronts self.now.fronts) s snapshot.0 →
            IsRowNumberBelow (below_fronts self.now.fronts) s snapshot.1 → result ≡ true }
    {
        let below = if s == 0 { 0 } else { self.fronts.front(s - 1) };
        snapshot.0 == self.fronts.front(s) && snapshot.1 == below
    }

    /// Whether the square is out.
    fn is_out(&self, s: u16, k: u64) -> bool
        ensures { result ≡ is_out self.now.out s k }
    {
        self.out.iter().any(|e| e.s == s && e.above == k)
    }
}

/// Takes the square, which is the only one of its row that is out, from those that are.
fn take_from(out: &mut Vec<Out>, busy: &mut Vec<bool>, s: u16, k: u64)
    requires row { s < length busy.old.items }
    requires alone { has_row (without out.old.items s k) s ≡ false }
    ensures busy { (rows : ℕ) → IsMarked busy.old.items rows out.old.items →
        IsMarked busy.new.items rows out.new.items }
    ensures items { out.new.items ≡ without out.old.items s k }
    ensures len { vec_len out.new ≤ vec_len out.old }
    ensures capacity { vec_capacity out.new ≡ vec_capacity out.old }
{
    out.retain(|e| !(e.s == s && e.above == k));
    busy[usize::from(s)] = false;
}

/// Marks no row.
fn unmark(busy: &mut Vec<bool>)
    ensures { (rows : ℕ) → rows < length busy.old.items → IsMarked busy.new.items rows [] }
{
    busy.fill(false);
}

/// Whether the square is the one that failed.
fn has_failed(failed: Option<Out>, s: u16, k: u64) -> bool
    ensures { result ≡ has_failed failed s k }
{
    match failed {
        Some(e) => e.s == s && e.above == k,
        None => false,
    }
}

/// Whether `who` has the square.
fn has_entry(out: &[Out], who: u64, s: u16, k: u64) -> bool
    ensures { result ≡ has_entry out.now who s k }
{
    out.iter().any(|e| e.who == who && e.s == s && e.above == k)
}

/// The greatest of `s` and the rows of the start.
fn last_row(s: u16, start: &[(u16, i32)]) -> u16
    ensures range { s ≤ result }
    ensures start { AllInRows result start.now }
{
    let mut last = s;
    for (row, _) in start {
        last = last.max(*row);
    }
    last
}

/// The squares of the start, with a front for each row through `last`.
fn fronts_of(alloc: Global, bottom: i32, last: u16, start: &[(u16, i32)]) -> Result<Fronts, Memory>
    requires start { (places : Squares) × IsStart places bottom start.now }
    requires rows { AllInRows last start.now }
    ensures squares { IfOk result (λ fronts. below_fronts fronts ≡ squares_of bottom start.now) }
    ensures rows { IfOk result (λ fronts. length fronts ≡ last + 1) }
{
    let mut fronts = Fronts::none(alloc, usize::from(last) + 1)?;
    for (s, t) in start {
        if let Some(above) = above_of(bottom, *t) {
            fronts.add(*s, above);
        }
    }
    Ok(fronts)
}
