//! Lifts of classes.
ghost use Rattle.std.specs.Prelude.{◌≡◌, ◌+ℤ◌, ◌<◌, ◌++◌, [], ◌∷◌, pos, length, ℕ, OnOk};
ghost use Rattle.f2_vec.specs.Spans.{row};
ghost use Rattle.chain_map.specs.Lifting.{HasValue, row_values, joined, square_values};

use crate::values::Values;
use f2_vec::BitVec;
use memory::Memory;
use std::alloc::Global;
use std::marker::Model;

/// A lift of a class: chain maps phi_k from F_(s+k) of a module's resolution to F_k of the sphere's, through some k and
/// some degree, that lower degrees by the class's, by their values on the generators.
#[derive(Drop)]
pub struct Lift {
    bottom: i32,
    rows: Vec<Values>,
}

impl Model for Lift {
    ghost use Rattle.chain_map.specs.Lifting.{LiftValues};

    ghost Value = { LiftValues };

    ghost view = { λ l. record { bottom = l.bottom; rows = l.rows.items } };
}

impl Lift {
    /// The value of phi_k on number `i` of the generators of degree `t` of row s + k, a vector of F_k of the sphere's
    /// resolution in the degree that is lower by the class's.
    pub fn value(&self, k: u16, t: i32, i: usize) -> &BitVec
        requires { HasValue self.now k t i }
        ensures { (above : ℕ) → t ≡ self.now.bottom +ℤ pos above →
            result.now ≡ row (square_values (row_values self.now k) above) i }
    {
        match bidegree::above_of(self.bottom, t) {
            Some(above) => self.rows[usize::from(k)].at(above as usize, i),
            None => unreachable!(),
        }
    }

    /// The values of phi_k on all generators that it has them for, in their order.
    pub fn vectors(&self, k: u16) -> &[BitVec]
        requires { k < length self.now.rows }
        ensures { result.now ≡ joined (row_values self.now k) }
    {
        self.rows[usize::from(k)].vectors()
    }

    /// No rows.
    pub(crate) fn new(alloc: Global, bottom: i32) -> Self
        ensures { result ≡ record { bottom = bottom; rows = [] } }
    {
        Lift {
            bottom,
            rows: Vec::new(alloc),
        }
    }

    /// Puts a row more behind the others.
    ///
    /// # Errors
    /// `Memory` if allocation fails.
    pub(crate) fn push(&mut self, row: Values) -> Result<(), Memory>
        ensures { OnOk result (self.new ≡ record { bottom = self.old.bottom; rows = self.old.rows ++ row ∷ [] }) }
    {
        self.rows.push(row)?;
        Ok(())
    }
}
