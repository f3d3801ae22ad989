//! Quasi-inverses of the maps of a resolution.
ghost use Rattle.std.specs.Prelude.{◌≡◌, ◌≤ℤ◌, length, None, IfOk, IfSome, IsSome};
ghost use Rattle.square.specs.Squares.{bottom_of};
ghost use Rattle.square.specs.Tables.{square_at};
ghost use Rattle.chain_map.specs.Lifting.{IsInverseAt, chosen_preimage};

use f2_matrix::Reduced;
use f2_vec::BitVec;
use memory::Memory;
use square::Table;
use std::alloc::Global;
use std::marker::Model;

/// The quasi-inverse of d_k of a resolution in one degree. Below the bottom degree there is nothing to invert.
#[derive(Drop)]
pub struct Inverse {
    reduced: Option<Reduced>,
}

impl Model for Inverse {
    ghost use Rattle.std.specs.Prelude.{Option};
    ghost use Rattle.f2_matrix.specs.Reduction.{Reduction};

    ghost Value = { Option Reduction };

    ghost view = { λ i. i.reduced };
}

impl Inverse {
    /// The quasi-inverse in a degree in which nothing has to be inverted.
    pub fn none() -> Self
        ensures { result ≡ None }
    {
        Inverse { reduced: None }
    }

    /// The quasi-inverse at the square in row `k` and of degree `t` of the table: a copy if the square kept it, and made again otherwise.
    ///
    /// # Errors
    /// `Memory` if allocation fails.
    pub fn of(alloc: Global, table: &Table, k: u16, t: i32) -> Result<Self, Memory>
        requires { bottom_of table.now.resolved ≤ℤ t → IsSome (square_at table.now k t) }
        ensures { IfOk result (IsInverseAt table.now k t) }
    {
        if t < table.module().bottom() {
            return Ok(Inverse::none());
        }
        let reduced = table.quasi(alloc, k, t)?;
        Ok(Inverse {
            reduced: Some(reduced),
        })
    }

    /// The preimage that it chooses of `v`, where `v` has any.
    ///
    /// # Errors
    /// `Memory` if allocation fails.
    pub fn preimage(&self, alloc: Global, v: &BitVec) -> Result<BitVec, Memory>
        requires { IfSome self.now (λ r. length v.now ≡ r.cols) }
        ensures preimage { IfOk result (λ w. w ≡ chosen_preimage self.now v.now) }
        ensures length { IfOk result (λ w. IfSome self.now (λ r. length w ≡ r.height)) }
    {
        match &self.reduced {
            Some(reduced) => reduced.quasi(alloc, v),
            None => BitVec::zero(alloc, 0),
        }
    }
}
