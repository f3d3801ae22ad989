//! A table with its keeper, as what lies on the desk of a board.
ghost use Rattle.std.specs.Prelude.{◌≡◌};
ghost use Rattle.square_worker.specs.Kept.{kept_words};

use crate::products::{has_generators, make_products};
use bidegree::{MAX_S, Shape};
use board_core::Cause;
use memory::Memory;
use resolution_step::step;
use square::{Inputs, Keep, KeepFault, Square, Table, put};
use square_board::Stock;
use std::alloc::Global;
use std::marker::Model;

/// A table, and the keeper that its new squares are given to.
#[derive(Drop)]
pub struct Kept<K: Keep> {
    pub table: Table,
    pub keeper: K,
}

impl<K: Keep> Model for Kept<K> {
    ghost use Rattle.square.specs.Keeping.{IsKeeperOf};
    ghost use Rattle.square_worker.specs.Kept.{KeptTable};

    ghost Value = { KeptTable K };

    ghost view = { λ k. record { table = k.table; keeper = k.keeper } };

    ghost invariant = { λ k. IsKeeperOf (K.telling k.keeper) k.table };
}

impl<K: Keep> Stock for Kept<K> {
    type Subject = Table;

    type Inputs = Inputs;

    type Made = Square;

    ghost words = { kept_words K.telling };

    fn bottom(&self) -> i32 {
        self.table.module().bottom()
    }

    fn shape(&self) -> Shape {
        Shape::Rectangle
    }

    fn rows(&self) -> u16 {
        let _last = self.table.front(MAX_S);
        MAX_S + 1
    }

    fn front(&self, s: u16) -> u64 {
        let _bottom = self.table.module().bottom();
        self.table.front(s) as u64
    }

    fn generators(&self, s: u16, above: u16) -> Option<usize> {
        let square = self.table.square(s, above)?;
        Some(square.gens().len())
    }

    fn inputs(&self, alloc: Global, s: u16, above: u16) -> Result<Inputs, Memory> {
        self.table.inputs(alloc, s, self.table.degree(above))
    }

    fn make(alloc: Global, inputs: &Inputs) -> Result<Square, Memory> {
        step(alloc, inputs)
    }

    fn put(
        &mut self,
        alloc: Global,
        s: u16,
        _above: u16,
        _inputs: &Inputs,
        made: Square,
    ) -> Result<(), Cause> {
        let _front = self.table.front(s);
        match put(alloc, &mut self.table, &mut self.keeper, made) {
            Ok(()) => Ok(()),
            Err(KeepFault::Failed) => Err(Cause::Failed),
            Err(KeepFault::Memory) => Err(Cause::Memory),
        }
    }

    fn reach(inputs: &Inputs) -> u16 {
        inputs.basis().max()
    }

    fn has_generators(inputs: &Inputs, a: u16) -> bool {
        has_generators(inputs, a)
    }

    fn make_products(alloc: Global, inputs: &Inputs, a: u16, above: u16) -> Result<(), Memory> {
        make_products(alloc, inputs, a, above)
    }
}
