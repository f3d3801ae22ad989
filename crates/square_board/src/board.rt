//! The board: a desk behind a turn.
ghost use Rattle.std.specs.Prelude.{◌≡◌, ◌⊎◌, ℕ, ◌+◌, ◌<◌, ◌≤◌, ◌↔◌, Ok, Err, None, Some, false, [], ◌∷◌, ◌++◌, length, slice_get, All, IfOk, IfErr, IfSome};
ghost use Rattle.bidegree.specs.declared.range.TheConstants.{MAX_S, MAX_T};
ghost use Rattle.board_core.specs.declared.event.Cause.{Cause};
ghost use Rattle.board_core.specs.declared.event.Entry.{Entry};
ghost use Rattle.board_core.specs.declared.event.Entry.TheVariants.{Back};
ghost use Rattle.board_core.specs.Entries.{who_of, HasNoneOut};
ghost use Rattle.board_core.specs.Laws.{first_cause, IsHeldByAnother};
ghost use Rattle.turn_lock.specs.Turns.{new_pass, after_count, after_front, after_rest, after_join, Continues, HasAll};
ghost use Rattle.square_board.specs.declared.job.GiveFault.TheVariants.{Stopped as HasStopped};
ghost use Rattle.square_board.specs.declared.job.Taken.TheVariants.{Idle, Over, Stopped};
ghost use Rattle.square_board.specs.Courses.{numbered, events_of};
ghost use Rattle.square_board.specs.Openings.{IsOpenedWith, subject_of, course_of, front_after};
ghost use Rattle.square_board.specs.Desks.{IsDesk, IsOver, IsIdle, IsJobOf, MatchTaken};
ghost use Rattle.square_board.specs.Boards.{IsPassOf, IsSamePass, HasTurned, HasTakenJob, StoodBefore, AreStairs, entry_of_give, state_seen};

use crate::ahead::Ahead;
use crate::desk::Desk;
use crate::job::{GiveFault, Job, Taken};
use crate::stock::Stock;
use bidegree::Range;
use board_core::{Entry, idle_waits_for_another};
use memory::Memory;
use std::alloc::Global;
use std::marker::Model;
use std::sync::Wait;
use std::time::Clock;
use turn_lock::{Pass, Turn};

/// What a worker comes to a board with.
pub type BoardPass<T> = Pass<Desk<T>>;

/// The squares of a range, which several workers make. Each call looks at the board, or changes it, in a turn of its own, so the
/// history of what was taken and given is one list.
#[derive(Drop)]
pub struct Board<T: Stock> {
    turn: Turn<Desk<T>>,
}

impl<T: Stock> Model for Board<T> {
    ghost use Rattle.turn_lock.specs.Turns.{TurnId};
    ghost use Rattle.square_board.specs.declared.opening.Opening.{Opening};

    ghost Value = { TurnId (Opening T) };

    ghost view = { λ b. b.turn };
}

impl<T: Stock> Board<T> {
    /// A board of the squares of a range that the stock does not have yet, with its passes, in order of their numbers from 0.
    ///
    /// # Errors
    /// `Memory` if allocation fails, with the stock.
    pub fn new(
        alloc: Global,
        stock: T,
        range: Range,
        passes: usize,
    ) -> Result<(Board<T>, Vec<BoardPass<T>>), (Memory, T)>
        requires rows { range.s ≤ MAX_S }
        requires degrees { range.t ≤ MAX_T }
        requires reached { T.words.reaches (T.words.subject stock) range }
        requires takes { T.words.takes stock }
        requires some { 0 < passes }
        ensures opened { IfOk result (λ made. IsOpenedWith T.words made.0.name stock range) }
        ensures as_many { IfOk result (λ made. made.0.passes ≡ passes) }
        ensures count { IfOk result (λ made. length made.1.items ≡ passes) }
        ensures passes { IfOk result (λ made. (i : ℕ) → i < passes →
            slice_get made.1.items i ≡ Some (new_pass made.0 i)) }
        ensures err { IfErr result (λ refused. refused.1 ≡ stock) }
    {
        let desk = match Desk::new(alloc, stock, range) {
            Ok(desk) => desk,
            Err(refused) => return Err(refused),
        };
        match Turn::new(alloc, desk, usize::from(range.s) + 1, passes) {
            Ok((turn, row)) => Ok((Board { turn }, row)),
            Err((memory, desk)) => {
                let (stock, _) = desk.into_parts();
                Err((memory, stock))
            }
        }
    }

    /// Takes a square that may be taken. Which one, if there are several, is not said.
    ///
    /// `Stopped` comes exactly if a square was handed back or failed before, with the cause of the first of these; else `Over`
    /// exactly if all squares of the range are done, `Idle` exactly if some are not and none may be taken, and a job
    /// or `Memory` if one may be. `Idle` is judged by the history as the take found it: with a job the pass has seen its own
    /// entry too, so the clause on `Idle` asks that it has no new one. A pass that has no square out then waits for another, who
    /// has one.
    ///
    /// # Errors
    /// `Memory` if allocation fails; nothing is taken then.
    pub fn take<R: Wait + Clock>(
        &self,
        wait: &R,
        alloc: Global,
        pass: &mut BoardPass<T>,
    ) -> Result<Taken<Job<T::Inputs>>, Memory>
        requires { IsPassOf self.now pass.old }
        ensures pass { IsPassOf self.now pass.new }
        ensures same { IsSamePass pass.old pass.new }
        ensures job { MatchTaken result (λ job. HasTakenJob T.words pass.old pass.new job)
            (HasTurned T.words pass.old pass.new []) }
        ensures idle { (result ≡ Ok Idle) ↔ ((pass.new.own ≡ pass.old.own) × IsIdle (state_seen T.words pass.new)) }
        ensures over { (result ≡ Ok Over) ↔ IsOver (state_seen T.words pass.new) }
        ensures stopped { (cause : Cause) →
            (result ≡ Ok (Stopped cause)) ↔ (first_cause (events_of pass.new.seen) ≡ Some cause) }
        ensures waits { result ≡ Ok Idle → HasNoneOut pass.new.own →
            IsHeldByAnother (state_seen T.words pass.new) pass.new.number }
    {
        idle_waits_for_another();
        let mut held = self.turn.acquire(wait, pass);
        let taken = held.value.take(alloc, pass.number());
        self.turn.release(pass, held);
        self.wake_after(&taken);
        taken
    }

    /// Wakes whom it concerns what a take found: all where the board has ended, and one where a square was left for lack of memory.
    fn wake_after(&self, taken: &Result<Taken<Job<T::Inputs>>, Memory>) {
        match taken {
            Ok(Taken::Over) | Ok(Taken::Stopped(_)) => self.turn.wake_all(),
            Err(Memory) => self.turn.wake_one(),
            Ok(Taken::Job(_)) | Ok(Taken::Idle) => {}
        }
    }

    /// Gives what was made at the square of a job. It is put into the stock, and then the square is done. What it was made from is
    /// let go behind the turn.
    ///
    /// # Errors
    /// `Stopped` exactly if a square was handed back or failed before, with the cause of the first of these; then nothing
    /// is put, and the square is handed back. `Failed` if it could not be kept. `Memory` if there is no memory; then the square is
    /// handed back. In each case the job is spent, and the square is not done.
    pub fn give<R: Wait + Clock>(
        &self,
        wait: &R,
        alloc: Global,
        pass: &mut BoardPass<T>,
        job: Job<T::Inputs>,
        made: T::Made,
    ) -> Result<(), GiveFault>
        requires pass { IsPassOf self.now pass.old }
        requires job { IsJobOf T.words self.now.name pass.old.number pass.old.own job }
        requires made { T.words.is_made job.inputs made }
        ensures pass { IsPassOf self.now pass.new }
        ensures same { IsSamePass pass.old pass.new }
        ensures turned { HasTurned T.words pass.old pass.new (entry_of_give result job ∷ []) }
        ensures stopped { (cause : Cause) → (result ≡ Err (HasStopped cause)) ↔ StoodBefore pass.new cause }
    {
        let mut held = self.turn.acquire(wait, pass);
        let given = held.value.give(alloc, &job, made);
        self.turn.release(pass, held);
        self.turn.wake_one();
        job.spend();
        given
    }

    /// Hands back the square of a job for which there was no memory. From then on no square is given out.
    pub fn back<R: Wait + Clock>(&self, wait: &R, pass: &mut BoardPass<T>, job: Job<T::Inputs>)
        requires pass { IsPassOf self.now pass.old }
        requires job { IsJobOf T.words self.now.name pass.old.number pass.old.own job }
        ensures pass { IsPassOf self.now pass.new }
        ensures same { IsSamePass pass.old pass.new }
        ensures turned { HasTurned T.words pass.old pass.new (Back job.who job.s job.t ∷ []) }
    {
        let mut held = self.turn.acquire(wait, pass);
        held.value.back(&job);
        self.turn.release(pass, held);
        job.spend();
    }

    /// How many generators the square in row `s` and `above` degrees above the bottom has, none exactly if it is not done.
    pub fn generators<R: Wait + Clock>(
        &self,
        wait: &R,
        pass: &mut BoardPass<T>,
        s: u16,
        above: u16,
    ) -> Option<usize>
        requires { IsPassOf self.now pass.old }
        ensures pass { IsPassOf self.now pass.new }
        ensures same { IsSamePass pass.old pass.new }
        ensures turned { HasTurned T.words pass.old pass.new [] }
        ensures none { (result ≡ None) ↔ (front_after T.words self.now.name (events_of pass.new.seen) s ≤ above) }
        ensures not_done { (result ≡ None) ↔ ((state_seen T.words pass.new).done s above ≡ false) }
        ensures count { IfSome result (λ n. T.words.is_count (subject_of T.words self.now.name) s above n) }
        ensures stairs { AreStairs T.words self.now.name (events_of pass.new.seen) }
    {
        let held = self.turn.acquire(wait, pass);
        let found = held.value.generators(s, above);
        self.turn.release(pass, held);
        found
    }

    /// The products that the squares past the next one of a row will ask for. The row is the least from row `from` on that lacks
    /// squares of the range, and whose next square has what it stands on. None where there is no such row, or no memory. No product
    /// is made in the turn.
    pub fn ahead<R: Wait + Clock>(
        &self,
        wait: &R,
        alloc: Global,
        pass: &mut BoardPass<T>,
        from: u16,
    ) -> Option<Ahead<T>>
        requires { IsPassOf self.now pass.old }
        ensures pass { IsPassOf self.now pass.new }
        ensures same { IsSamePass pass.old pass.new }
        ensures turned { HasTurned T.words pass.old pass.new [] }
        ensures row { IfSome result (λ ahead. from ≤ ahead.s) }
        ensures next { IfSome result (λ ahead.
            ahead.front ≡ front_after T.words self.now.name (events_of pass.new.seen) ahead.s) }
    {
        let held = self.turn.acquire(wait, pass);
        let found = held.value.ahead(alloc, from, pass.number());
        self.turn.release(pass, held);
        found
    }

    /// Waits until more has happened than the pass saw when it last took, gave, handed back, looked, joined or rested. Each give
    /// wakes one that rests: it makes two squares ready at most, and who gave takes one of them. A take that finds the board ended wakes all.
    ///
    /// By what it has seen no square may be taken and some are not done, and it has none out itself. So it waits for another, who has a
    /// square (`waits` of `take`).
    pub fn rest<R: Wait + Clock>(&self, wait: &R, pass: &mut BoardPass<T>)
        requires pass { IsPassOf self.now pass.old }
        requires idle { IsIdle (state_seen T.words pass.old) }
        requires none { HasNoneOut pass.old.own }
        ensures pass { IsPassOf self.now pass.new }
        ensures same { IsSamePass pass.old pass.new }
        ensures rested { pass.new ≡ after_rest pass.old pass.new.seen }
        ensures continues { Continues pass.old pass.new.seen }
        ensures more { length pass.old.seen < length pass.new.seen }
    {
        self.turn.rest(wait, pass);
    }

    /// How many squares of row `s` are done, and never less than before. It waits for nobody.
    ///
    /// It is that of the history, or of the history with the one entry that a turn is adding.
    pub fn front(&self, pass: &mut BoardPass<T>, s: u16) -> u64
        requires pass { IsPassOf self.now pass.old }
        requires row { s ≤ self.now.name.range.s }
        ensures pass { IsPassOf self.now pass.new }
        ensures same { IsSamePass pass.old pass.new }
        ensures looked { pass.new ≡ after_front pass.old pass.new.latest s result }
        ensures continues { Continues pass.old pass.new.latest }
        ensures exact { (result ≡ front_after T.words self.now.name (events_of pass.new.latest) s)
            ⊎ ((e : ℕ × Entry)
            × (result ≡ front_after T.words self.now.name (events_of (pass.new.latest ++ e ∷ [])) s)) }
        ensures seen { front_after T.words self.now.name (events_of pass.old.seen) s ≤ result }
        ensures latest { front_after T.words self.now.name (events_of pass.old.latest) s ≤ result }
        ensures told { All (λ t. t.0 ≡ s → t.1 ≤ result) pass.old.told }
    {
        self.turn.front(pass, usize::from(s))
    }

    /// How many entries the history has, and never less than before. It waits for nobody.
    pub fn count(&self, pass: &mut BoardPass<T>) -> u64
        requires { IsPassOf self.now pass.old }
        ensures pass { IsPassOf self.now pass.new }
        ensures same { IsSamePass pass.old pass.new }
        ensures counted { pass.new ≡ after_count pass.old pass.new.latest }
        ensures continues { Continues pass.old pass.new.latest }
        ensures count { result ≡ length pass.new.latest }
        ensures seen { length pass.old.seen ≤ result }
        ensures latest { length pass.old.latest ≤ result }
    {
        self.turn.count(pass)
    }

    /// Takes in the other pass, with its entries and all that it has seen and was told.
    pub fn join(&self, pass: &mut BoardPass<T>, other: BoardPass<T>)
        requires pass { IsPassOf self.now pass.old }
        requires other { IsPassOf self.now other }
        ensures pass { IsPassOf self.now pass.new }
        ensures joined { pass.new ≡ after_join pass.old other pass.new.seen }
        ensures continues { Continues pass.old pass.new.seen }
        ensures other_continues { Continues other pass.new.seen }
    {
        self.turn.join(pass, other);
    }

    /// Ends the board with the pass that all others were joined into. It gives the stock with the squares that are done, and the
    /// whole history, which has the entries of these passes and no others.
    pub fn close(self, pass: BoardPass<T>) -> (T, Vec<Entry>)
        requires pass { IsPassOf self pass }
        requires joined { HasAll pass }
        ensures history { numbered result.1.items ≡ pass.seen }
        ensures continues { Continues pass (numbered result.1.items) }
        ensures only { All (λ e. who_of e < self.passes) result.1.items }
        ensures is_desk { IsDesk T.words self.name (course_of T.words self.name result.1.items) result.0 }
        ensures fronts { All (λ t. t.1 ≤ front_after T.words self.name result.1.items t.0) pass.told }
    {
        let Board { turn } = self;
        turn.close(pass).into_parts()
    }
}
