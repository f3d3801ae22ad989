//! The squares that are done, by the fronts of their rows.
ghost use Rattle.std.specs.Prelude.{◌≡◌, ℕ, suc, ◌<◌, ◌^◌, false, true, nat_lt, length, IfOk};
ghost use Rattle.board_core.specs.Board.{below_fronts};
ghost use Rattle.board_core.specs.Machine.{IsNumber, insert_square};

use memory::Memory;
use std::alloc::Global;
use std::marker::Model;

/// The squares that are done. In each row they are those below a front, so the fronts are all that is kept. A row that has no
/// front here has no square done. Fronts have 64 bits, so a start may hold any degree.
#[derive(Drop)]
pub(crate) struct Fronts {
    fronts: Vec<u64>,
}

impl Model for Fronts {
    ghost use Rattle.std.specs.Prelude.{ℕ, List};

    ghost Value = { List ℕ };

    ghost view = { λ f. f.fronts.items };
}

impl Fronts {
    /// No square is done, and there is a front for each of so many rows.
    pub(crate) fn none(alloc: Global, rows: usize) -> Result<Fronts, Memory>
        ensures squares { IfOk result (λ fronts. below_fronts fronts ≡ (λ s k. false)) }
        ensures rows { IfOk result (λ fronts. length fronts ≡ rows) }
    {
        Ok(Fronts {
            fronts: vec![in alloc; 0; rows]?,
        })
    }

    /// Whether the square is done.
    pub(crate) fn has(&self, s: u16, k: u64) -> bool
        ensures { result ≡ below_fronts self.now s k }
    {
        match self.fronts.get(usize::from(s)) {
            Some(front) => k < *front,
            None => false,
        }
    }

    /// How many squares of row `s` are done.
    pub(crate) fn front(&self, s: u16) -> u64
        ensures number { IsNumber (below_fronts self.now s) result }
        ensures done { (k : ℕ) → below_fronts self.now s k ≡ nat_lt k result }
    {
        match self.fronts.get(usize::from(s)) {
            Some(front) => *front,
            None => 0,
        }
    }

    /// Makes one square more done, the next of its row.
    pub(crate) fn add(&mut self, s: u16, k: u64)
        requires row { s < length self.old }
        requires few { k < 2 ^ 63 }
        requires before { (j : ℕ) → suc j ≡ k → below_fronts self.old s j ≡ true }
        requires absent { below_fronts self.old s k ≡ false }
        ensures squares { below_fronts self.new ≡ insert_square (below_fronts self.old) s k }
        ensures rows { length self.new ≡ length self.old }
    {
        self.fronts[usize::from(s)] = k + 1;
    }
}
