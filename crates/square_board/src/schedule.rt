//! The machine of the board, with the history that led to its state.
ghost use Rattle.std.specs.Prelude.{◌≡◌, ℕ, ◌+◌, ◌-◌, ◌*◌, ◌<◌, ◌≤◌, ◌^◌, ◌+ℤ◌, ◌≤ℤ◌, pos, suc, Some, None, [], ◌∷◌, ◌++◌, length, vec_len, vec_capacity, IfOk, IfSome, OnOk, OnErr};
ghost use Rattle.std.specs.Bool.{Decides};
ghost use Rattle.board_core.specs.Board.{Board, state_of as state_of_core, IsReadyAt, IsTaken};
ghost use Rattle.board_core.specs.Entries.{IsLegalEntry, after_entry};
ghost use Rattle.board_core.specs.Machine.{IsStart, stands_in, IsReady, IsLegalTake, IsHeld, IsHeldWithoutCause};
ghost use Rattle.board_core.specs.declared.event.Entry.TheVariants.{Take, Give, Back, Fail};
ghost use Rattle.square_board.specs.Courses.{Course, state_of, with_event, IsLegalCourse};

use bidegree::{Range, Shape};
use board_core::{Cause, Core, Entry, Event};
use ghost_list::GhostList;
use memory::Memory;
use std::alloc::Global;
use std::marker::Model;

/// The machine with its history: each event that it accepts is written down. Contracts see where it began, and the history.
///
/// There is room for the event that ends each square that is out, so that none of these events takes memory. The room is
/// made with each take, and not for the whole range at the opening.
#[derive(Drop)]
pub(crate) struct Schedule {
    core: Core,
    /// The squares that were done at the opening, each by its row and its degree.
    start: GhostList<(u16, i32)>,
    /// Each entry says who; the number that the turn puts beside it is the same.
    history: Vec<Entry>,
    /// How many squares are out.
    jobs: usize,
}

impl Model for Schedule {
    ghost use Rattle.std.specs.Prelude.{◌-◌, vec_len, vec_capacity};
    ghost use Rattle.square_board.specs.Courses.{Course};
    ghost use Rattle.square_board.specs.Inside.Schedules.{IsScheduled};

    ghost Value = { Course };

    ghost view = { λ s. record {
      shape = s.core.shape;
      rows = s.core.rows;
      degrees = s.core.degrees;
      bottom = s.core.bottom;
      start = s.start;
      history = s.history.items;
    } };

    ghost invariant = { λ s. IsScheduled s.core s.start s.history.items s.jobs
        (vec_capacity s.history - vec_len s.history) };
}

impl Schedule {
    /// The machine at its opening: its range is of this shape, in degrees from `m` on, and the squares of `start` are done.
    ///
    /// # Errors
    /// `Memory` if allocation fails.
    pub(crate) fn new(
        alloc: Global,
        shape: Shape,
        range: Range,
        m: i32,
        start: &[(u16, i32)],
    ) -> Result<Schedule, Memory>
        requires fits { (m +ℤ pos range.t) ≤ℤ pos (2 ^ 31 - 1) }
        requires start { IsStart (stands_in shape range.s range.t) m start.now }
        ensures { IfOk result (λ schedule. schedule ≡ record {
          shape = shape;
          rows = range.s;
          degrees = range.t;
          bottom = m;
          start = start.now;
          history = [];
        }) }
    {
        Ok(Schedule {
            core: Core::new(alloc, shape, range, m, start)?,
            start: GhostList::of(start),
            history: Vec::new(alloc),
            jobs: 0,
        })
    }

    /// How many events there were.
    pub(crate) fn len(&self) -> usize
        ensures length { result ≡ length self.now.history }
        ensures short { length self.now.history ≤ 2 * (suc self.now.rows * suc self.now.degrees) }
        ensures is_legal { IsLegalCourse self.now }
    {
        self.history.len()
    }

    /// A square that may be taken: one of the least degree in which there is such a square. None exactly where there is none.
    pub(crate) fn ready(&self) -> Option<(u16, i32)>
        ensures some { IfSome result (λ q. IsReadyAt (state_of self.now) q.0 q.1) }
        ensures least { IfSome result (λ q. (s k : ℕ) → IsReady (state_of self.now) s k →
            q.1 ≤ℤ (self.now.bottom +ℤ pos k)) }
        ensures none { result ≡ None → (s k : ℕ) → IsReady (state_of self.now) s k → ⊥ }
        ensures is_legal { IsLegalCourse self.now }
    {
        self.core.ready()
    }

    /// Whether a square of row `s`, which is in the range, is not done while those that it stands on are. It may be out.
    pub(crate) fn has_next(&self, s: u16) -> bool
        requires { s ≤ self.now.rows }
        ensures has { Decides result ((k : ℕ) × IsTaken (state_of self.now) s k) }
        ensures is_legal { IsLegalCourse self.now }
    {
        self.core.has_next(s)
    }

    /// Why no more squares are given out, none where they are.
    pub(crate) fn stopped(&self) -> Option<Cause>
        ensures cause { result ≡ (state_of self.now).cause }
        ensures is_legal { IsLegalCourse self.now }
    {
        self.core.stopped()
    }

    /// The square goes out to `who`, who may take it.
    ///
    /// # Errors
    /// `Memory` if allocation fails; nothing is taken then.
    pub(crate) fn take(
        &mut self,
        who: u64,
        s: u16,
        t: i32,
        snapshot: (u64, u64),
    ) -> Result<(), Memory>
        requires { IsLegalTake (state_of self.old) s t snapshot }
        ensures ok { OnOk result (self.new ≡ with_event self.old (Take who s t snapshot)) }
        ensures err { OnErr result (self.new ≡ self.old) }
    {
        let room = self.jobs + 2;
        self.core.reserve(room)?;
        self.history.reserve(room)?;
        let event = Entry::Take {
            who,
            s,
            t,
            snapshot,
        };
        enter(&mut self.core, &mut self.history, event);
        self.jobs += 1;
        Ok(())
    }

    /// The square that `who` has is done.
    pub(crate) fn give(&mut self, who: u64, s: u16, t: i32)
        requires { IsHeldWithoutCause (state_of self.old) who s t }
        ensures { self.new ≡ with_event self.old (Give who s t) }
    {
        enter(&mut self.core, &mut self.history, Entry::Give { who, s, t });
        self.jobs -= 1;
    }

    /// The square that `who` has is handed back.
    pub(crate) fn back(&mut self, who: u64, s: u16, t: i32)
        requires { IsHeld (state_of self.old) who s t }
        ensures { self.new ≡ with_event self.old (Back who s t) }
    {
        enter(&mut self.core, &mut self.history, Entry::Back { who, s, t });
        self.jobs -= 1;
    }

    /// `who` has failed at the square.
    pub(crate) fn fail(&mut self, who: u64, s: u16, t: i32)
        requires { IsHeldWithoutCause (state_of self.old) who s t }
        ensures { self.new ≡ with_event self.old (Fail who s t) }
    {
        enter(&mut self.core, &mut self.history, Entry::Fail { who, s, t });
        self.jobs -= 1;
    }

    /// The history alone.
    pub(crate) fn into_history(self) -> Vec<Entry>
        ensures history { result.items ≡ self.history }
        ensures is_legal { IsLegalCourse self }
    {
        let Schedule {
            core: _,
            start: _,
            history,
            jobs: _,
        } = self;
        history
    }
}

/// An event that the machine accepts happens, and is written down. There is room for it.
fn enter(core: &mut Core, history: &mut Vec<Entry>, event: Entry)
    requires legal { IsLegalEntry (state_of_core core.old) event }
    requires spare { 0 < core.old.spare }
    requires room { vec_len history.old < vec_capacity history.old }
    ensures state { state_of_core core.new ≡ after_entry (state_of_core core.old) event }
    ensures spare { core.old.spare ≤ core.new.spare + 1 }
    ensures items { history.new.items ≡ history.old.items ++ event ∷ [] }
    ensures len { vec_len history.new ≡ vec_len history.old + 1 }
    ensures capacity { vec_capacity history.new ≡ vec_capacity history.old }
{
    match core.apply(Event::from(event)) {
        Ok(()) => history.push_reserved(event),
        Err(_) => unreachable!(),
    }
}
