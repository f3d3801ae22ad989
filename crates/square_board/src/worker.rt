//! One worker at a board.
ghost use Rattle.std.specs.Prelude.{◌≡◌, ◌↔◌, Some};
ghost use Rattle.board_core.specs.declared.event.Cause.{Cause};
ghost use Rattle.board_core.specs.Entries.{HasNoneOut};
ghost use Rattle.board_core.specs.Laws.{first_cause};
ghost use Rattle.square_board.specs.Courses.{events_of};
ghost use Rattle.square_board.specs.Desks.{IsIdle, IsOver, IsJobOf};
ghost use Rattle.square_board.specs.Boards.{IsPassOf, IsSamePass, state_seen};
ghost use Rattle.square_board.specs.Workers.{HasSeenNoLess, HasEnded, HasWorked};
ghost use Rattle.square_board.specs.declared.worker.WorkEnd.TheVariants.{Over, Stopped, Memory as NoMemory};

use crate::ahead::Ahead;
use crate::board::{Board, BoardPass};
use crate::gate::Gate;
use crate::job::{Job, Taken};
use crate::stock::Stock;
use bidegree::MAX_S;
use board_core::Cause;
use memory::Memory;
use std::alloc::Global;
use std::sync::Wait;
use std::time::Clock;

/// Why a worker stopped.
#[derive(Clone, Copy, Debug, PartialEq, Eq, Drop)]
pub enum WorkEnd {
    /// All squares of the range are done.
    Over,
    /// The board gives no more squares out: this is why.
    Stopped(Cause),
    /// There is no memory to take a square with. The worker has none out then.
    Memory,
}

/// Takes squares, makes each and gives it, until no more are given out. Where none may be taken it makes products that the next
/// squares will ask for, and once there are none left to make it rests until something has happened at the board. A square for
/// which there is no memory is handed back, and that stops the board. So its entries are pairs: it takes one square after the other,
/// and has ended each before it takes the next one, rests or returns. It does not leave while it is idle: where it returns for lack of
/// memory a square might have been taken.
pub fn work<R: Wait + Clock, T: Stock, G: Gate>(
    wait: &R,
    alloc: Global,
    board: &Board<T>,
    pass: &mut BoardPass<T>,
    gate: &G,
) -> WorkEnd
    requires pass { IsPassOf board.now pass.old }
    requires none { HasNoneOut pass.old.own }
    ensures pass { IsPassOf board.now pass.new }
    ensures same { IsSamePass pass.old pass.new }
    ensures no_less { HasSeenNoLess pass.old pass.new }
    ensures worked { HasWorked pass.old pass.new }
    ensures over { (result ≡ Over) ↔ IsOver (state_seen T.words pass.new) }
    ensures stopped { (cause : Cause) →
        (result ≡ Stopped cause) ↔ (first_cause (events_of pass.new.seen) ≡ Some cause) }
    ensures stays { result ≡ NoMemory → IsIdle (state_seen T.words pass.new) → ⊥ }
{
    let mut spare = Spare::first(pass.number());
    let mut made = [0; ALL_ROWS];
    for _ in wait.forever() {
        match board.take(wait, alloc, pass) {
            Ok(Taken::Job(job)) => {
                gate.entered(job.s(), job.t());
                make(wait, alloc, board, pass, job);
                spare = Spare::first(pass.number());
            }
            Ok(Taken::Idle) => spare = prepare(wait, alloc, board, pass, spare, &mut made),
            Ok(Taken::Over) => return WorkEnd::Over,
            Ok(Taken::Stopped(cause)) => return WorkEnd::Stopped(cause),
            Err(Memory) => return WorkEnd::Memory,
        }
    }
    unreachable!()
}

/// How many workers make products before they rest: those of the lowest numbers.
const HELPERS: u64 = 4;

/// For how many rows a worker makes products before it rests.
const ROWS: u16 = 3;

/// How many rows a range can have.
const ALL_ROWS: usize = MAX_S as usize + 1;

/// What a worker does next while no square may be taken.
#[derive(Drop)]
enum Spare<T: Stock> {
    /// It looks for a row, from this one on, whose squares will ask for products. So many rows are left to look for.
    Look { from: u16, rows: u16 },
    /// It makes some of these, and then looks for so many rows.
    Make { ahead: Ahead<T>, rows: u16 },
}

impl<T: Stock> Spare<T> {
    /// What the worker of this number does first.
    fn first(number: u64) -> Self {
        let rows = if number < HELPERS { ROWS } else { 0 };
        Spare::Look { from: 0, rows }
    }
}

/// Makes some products that squares will ask for which may not be taken yet, or rests where none are left. Between any two parts
/// of this, which are short, the worker tries to take a square: so it rests only right after a take that found none. `made` has
/// the front of each row at which the products were made.
#[tactic(auto, using(crate::proofs::Seen::by_turn))]
fn prepare<R: Wait + Clock, T: Stock>(
    wait: &R,
    alloc: Global,
    board: &Board<T>,
    pass: &mut BoardPass<T>,
    spare: Spare<T>,
    made: &mut [u16; ALL_ROWS],
) -> Spare<T>
    requires pass { IsPassOf board.now pass.old }
    requires idle { IsIdle (state_seen T.words pass.old) }
    requires none { HasNoneOut pass.old.own }
    ensures pass { IsPassOf board.now pass.new }
    ensures same { IsSamePass pass.old pass.new }
    ensures no_less { HasSeenNoLess pass.old pass.new }
    ensures own { pass.new.own ≡ pass.old.own }
{
    match spare {
        Spare::Look { rows: 0, .. } => {
            board.rest(wait, pass);
            Spare::first(pass.number())
        }
        Spare::Look { from, rows } => match board.ahead(wait, alloc, pass, from) {
            Some(ahead) => Spare::Make {
                ahead,
                rows: rows.saturating_sub(1),
            },
            None => Spare::Look { from, rows: 0 },
        },
        Spare::Make { mut ahead, rows } => {
            if make_ahead(alloc, &mut ahead, made) {
                return Spare::Make { ahead, rows };
            }
            Spare::Look {
                from: ahead.s().saturating_add(1),
                rows,
            }
        }
    }
}

/// Makes some of these products, and says whether any were left. Where none were, that is noted in `made`.
fn make_ahead<T: Stock>(alloc: Global, ahead: &mut Ahead<T>, made: &mut [u16; ALL_ROWS]) -> bool {
    let Some(front) = made.get_mut(usize::from(ahead.s())) else {
        return false;
    };
    if ahead.make_some(alloc, *front) {
        return true;
    }
    *front = ahead.front();
    false
}

/// Makes the square of a job and gives it, or hands it back if there is no memory for it. If it is not done then, the board has
/// stopped, and its next take says why.
fn make<R: Wait + Clock, T: Stock>(
    wait: &R,
    alloc: Global,
    board: &Board<T>,
    pass: &mut BoardPass<T>,
    job: Job<T::Inputs>,
)
    requires pass { IsPassOf board.now pass.old }
    requires job { IsJobOf T.words board.now.name pass.old.number pass.old.own job }
    ensures pass { IsPassOf board.now pass.new }
    ensures same { IsSamePass pass.old pass.new }
    ensures no_less { HasSeenNoLess pass.old pass.new }
    ensures ended { HasEnded pass.old pass.new job }
{
    match T::make(alloc, job.inputs()) {
        Ok(made) => {
            let _given = board.give(wait, alloc, pass, job, made);
        }
        Err(Memory) => board.back(wait, pass, job),
    }
}
