//! What lies behind the turn of a board: one plain value, in which every call of the board is a method.
ghost use Rattle.std.specs.Prelude.{◌≡◌, ◌⊎◌, ℕ, ◌+◌, ◌≤◌, ◌↔◌, ◌+ℤ◌, ◌≤ℤ◌, pos, Ok, Err, Some, true, [], IfOk, IfErr, IfSome};
ghost use Rattle.bidegree.specs.declared.range.TheConstants.{MAX_S, MAX_T};
ghost use Rattle.board_core.specs.declared.event.Cause.{Cause};
ghost use Rattle.board_core.specs.declared.event.Entry.TheVariants.{Back};
ghost use Rattle.board_core.specs.Entries.{events_by};
ghost use Rattle.board_core.specs.Laws.{HasUnfinished};
ghost use Rattle.board_core.specs.Machine.{IsInRange, IsReady, IsRowNumber, IsRowNumberBelow};
ghost use Rattle.square_board.specs.declared.job.GiveFault.TheVariants.{Stopped as HasStopped};
ghost use Rattle.square_board.specs.declared.job.Taken.TheVariants.{Job as AJob, Idle, Over, Stopped};
ghost use Rattle.square_board.specs.Stocks.{IsNextPlace, Goes};
ghost use Rattle.square_board.specs.Courses.{state_of, with_event, numbered, events_of};
ghost use Rattle.square_board.specs.Openings.{IsOpenedWith, subject_of, bottom_of, shape_of, front_after};
ghost use Rattle.square_board.specs.Jobs.{Taking};
ghost use Rattle.square_board.specs.Desks.{DeskState, IsDesk, IsOver, IsIdle, IsJobOf, MatchTaken, HasTaken, IsDeskState, having_entered};
ghost use Rattle.square_board.specs.Boards.{entry_of_give};

use crate::ahead::Ahead;
use crate::job::{GiveFault, Job, Taken};
use crate::opening::{Opening, squares_of};
use crate::schedule::Schedule;
use crate::stock::Stock;
use bidegree::Range;
use board_core::{Cause, Entry};
use ghost_list::GhostList;
use memory::Memory;
use std::alloc::Global;
use std::marker::Model;
use std::snapshot::Snapshot;
use turn_lock::Told;

/// The machine with its history, and the stock of the squares that are done.
#[derive(Drop)]
pub struct Desk<T: Stock> {
    pub(crate) schedule: Schedule,
    pub(crate) stock: T,
    pub(crate) opening: Opening<T>,
}

impl<T: Stock> Model for Desk<T> {
    ghost use Rattle.square_board.specs.Desks.{DeskState, IsDesk};

    ghost Value = { DeskState T };

    ghost view = { λ d. record { opening = d.opening; course = d.schedule; stock = d.stock } };

    ghost invariant = { λ d. IsDesk T.words d.opening d.schedule d.stock };
}

impl<T: Stock> Desk<T> {
    /// The desk before the first event, where the squares of the stock are done.
    ///
    /// # Errors
    /// `Memory` if allocation fails, with the stock.
    pub(crate) fn new(alloc: Global, stock: T, range: Range) -> Result<Desk<T>, (Memory, T)>
        requires rows { range.s ≤ MAX_S }
        requires degrees { range.t ≤ MAX_T }
        requires reached { T.words.reaches (T.words.subject stock) range }
        requires takes { T.words.takes stock }
        ensures opened { IfOk result (λ desk. IsOpenedWith T.words desk.opening stock range) }
        ensures empty { IfOk result (λ desk. desk.course.history ≡ []) }
        ensures stock { IfOk result (λ desk. desk.stock ≡ stock) }
        ensures err { IfErr result (λ e. e.1 ≡ stock) }
    {
        let Ok(start) = squares_of(alloc, &stock, range) else {
            return Err((Memory, stock));
        };
        let shape = stock.shape();
        let bottom = stock.bottom();
        let Ok(schedule) = Schedule::new(alloc, shape, range, bottom, start.as_slice()) else {
            return Err((Memory, stock));
        };
        let opening = Opening {
            first: Snapshot::of(&stock),
            range,
            start: GhostList::of(start.as_slice()),
        };
        Ok(Desk {
            schedule,
            stock,
            opening,
        })
    }

    /// Gives a ready square of the least degree out to `who`, with what it is made from.
    ///
    /// # Errors
    /// `Memory` if allocation fails; nothing is taken then.
    pub(crate) fn take(&mut self, alloc: Global, who: u64) -> Result<Taken<Job<T::Inputs>>, Memory>
        ensures job { MatchTaken result (λ job. HasTaken T.words self.old self.new who job) (self.new ≡ self.old) }
        ensures least { IfOk result (λ taken. (job : Taking T.Inputs) → taken ≡ AJob job → (i k : ℕ) →
            IsReady (state_of self.old.course) i k → job.t ≤ℤ (bottom_of T.words self.old.opening +ℤ pos k)) }
        ensures idle { (result ≡ Ok Idle) ↔ IsIdle (state_of self.old.course) }
        ensures over { (result ≡ Ok Over) ↔ IsOver (state_of self.old.course) }
        ensures stopped { (cause : Cause) →
            (result ≡ Ok (Stopped cause)) ↔ ((state_of self.old.course).cause ≡ Some cause) }
        ensures is_desk { IsDeskState T.words self.new }
    {
        if let Some(cause) = self.schedule.stopped() {
            return Ok(Taken::Stopped(cause));
        }
        let Some((s, t)) = self.schedule.ready() else {
            return Ok(self.without_ready());
        };
        let above = self.stock.front(s) as u16;
        let inputs = self.stock.inputs(alloc, s, above)?;
        let snapshot = self.snapshot(s);
        self.schedule.take(who, s, t, snapshot)?;
        Ok(Taken::Job(Job { who, s, t, inputs }))
    }

    /// What a take answers where no square is ready and no cause stands.
    fn without_ready(&self) -> Taken<Job<T::Inputs>>
        ensures idle { (result ≡ Idle) × HasUnfinished (state_of self.now.course)
            ⊎ (result ≡ Over)
            × ((s k : ℕ) → IsInRange (state_of self.now.course) s k → (state_of self.now.course).done s k ≡ true) }
    {
        if self.stock.front(self.opening.range.s) > u64::from(self.opening.range.t) {
            Taken::Over
        } else {
            Taken::Idle
        }
    }

    /// How many squares are done of row `s`, and of the row below it, 0 for row 0.
    fn snapshot(&self, s: u16) -> (u64, u64)
        ensures row { IsRowNumber (state_of self.now.course).done s result.0 }
        ensures below { IsRowNumberBelow (state_of self.now.course).done s result.1 }
    {
        let below = if s == 0 { 0 } else { self.stock.front(s - 1) };
        (self.stock.front(s), below)
    }

    /// Takes a square that was made: it is put into the stock, and then it is done.
    ///
    /// # Errors
    /// `Stopped` with the cause that stood before; then nothing is put. `Failed` if it could not be kept, and `Memory` if
    /// there is no memory. The square is out no more, and it is not done.
    pub(crate) fn give(
        &mut self,
        alloc: Global,
        job: &Job<T::Inputs>,
        made: T::Made,
    ) -> Result<(), GiveFault>
        requires job { IsJobOf T.words self.old.opening job.now.who (events_by job.now.who self.old.course.history)
            job.now }
        requires made { T.words.is_made job.now.inputs made }
        ensures opening { self.new.opening ≡ self.old.opening }
        ensures entered { self.new.course ≡ with_event self.old.course (entry_of_give result job.now) }
        ensures stopped { (cause : Cause) →
            (result ≡ Err (HasStopped cause)) ↔ ((state_of self.old.course).cause ≡ Some cause) }
        ensures unput { (cause : Cause) → result ≡ Err (HasStopped cause) → self.new.stock ≡ self.old.stock }
        ensures goes { Goes T.words self.old.stock (entry_of_give result job.now) self.new.stock }
        ensures is_desk { IsDeskState T.words self.new }
    {
        let (who, s, t) = (job.who, job.s, job.t);
        if let Some(cause) = self.schedule.stopped() {
            self.schedule.back(who, s, t);
            return Err(GiveFault::Stopped(cause));
        }
        let above = self.stock.front(s) as u16;
        match self.stock.put(alloc, s, above, &job.inputs, made) {
            Ok(()) => {
                self.schedule.give(who, s, t);
                Ok(())
            }
            Err(Cause::Failed) => {
                self.schedule.fail(who, s, t);
                Err(GiveFault::Failed)
            }
            Err(Cause::Memory) => {
                self.schedule.back(who, s, t);
                Err(GiveFault::Memory)
            }
        }
    }

    /// Takes a square back that was not made.
    pub(crate) fn back(&mut self, job: &Job<T::Inputs>)
        requires job { IsJobOf T.words self.old.opening job.now.who (events_by job.now.who self.old.course.history)
            job.now }
        ensures entered { self.new ≡ having_entered self.old (Back job.now.who job.now.s job.now.t) }
        ensures is_desk { IsDeskState T.words self.new }
    {
        self.schedule.back(job.who, job.s, job.t);
    }

    /// How many generators the square in row `s` and `above` degrees above the bottom has, none where it is not done.
    pub(crate) fn generators(&self, s: u16, above: u16) -> Option<usize>
        ensures none { (result ≡ None) ↔ (T.words.fronts self.now.stock s ≤ above) }
        ensures count { IfSome result (λ n. T.words.is_count (subject_of T.words self.now.opening) s above n) }
        ensures is_desk { IsDeskState T.words self.now }
    {
        self.stock.generators(s, above)
    }

    /// The products that the squares past the next one of a row will ask for. The row is the least from row `from` on that lacks
    /// squares of the range, and whose next square has what it stands on. None where there is no such row, or no memory.
    pub(crate) fn ahead(&self, alloc: Global, from: u16, worker: u64) -> Option<Ahead<T>>
        ensures row { IfSome result (λ ahead. from ≤ ahead.s) }
        ensures next { IfSome result (λ ahead. ahead.front ≡ T.words.fronts self.now.stock ahead.s) }
        ensures is_desk { IsDeskState T.words self.now }
    {
        let (s, front) = self.next_from(from)?;
        let Ok(inputs) = self.stock.inputs(alloc, s, front) else {
            return None;
        };
        Some(Ahead::new(inputs, s, front, self.opening.range.t, worker))
    }

    /// The next square of the least row from row `from` on that lacks squares of the range, and whose next square has what it
    /// stands on, by its row and how many degrees it is above the bottom.
    fn next_from(&self, from: u16) -> Option<(u16, u16)>
        ensures row { IfSome result (λ q. from ≤ q.0) }
        ensures next { IfSome result (λ q. IsNextPlace (shape_of T.words self.now.opening) self.now.opening.range
            (T.words.fronts self.now.stock) q.0 q.1) }
        ensures is_desk { IsDeskState T.words self.now }
    {
        for s in from..=self.opening.range.s {
            if self.schedule.has_next(s) {
                return Some((s, self.stock.front(s) as u16));
            }
        }
        None
    }

    /// The stock and the history.
    pub(crate) fn into_parts(self) -> (T, Vec<Entry>)
        ensures stock { result.0 ≡ self.stock }
        ensures history { result.1.items ≡ self.course.history }
        ensures is_desk { IsDeskState T.words self }
    {
        let Desk {
            schedule,
            stock,
            opening: _,
        } = self;
        (stock, schedule.into_history())
    }
}

impl<T: Stock> Told for Desk<T> {
    type Name = Opening<T>;

    type Entry = Entry;

    ghost name = { λ desk. desk.opening };

    ghost entries = { λ desk. numbered desk.course.history };

    ghost front_of = { λ opening entries i. front_after T.words opening (events_of entries) i };

    ghost width = { λ opening. opening.range.s + 1 };

    fn length(&self) -> u64 {
        self.schedule.len() as u64
    }

    fn front(&self, i: usize) -> u64 {
        self.stock.front(i as u16)
    }
}
