//! A row of squares, from the bottom degree up.
ghost use Rattle.std.specs.Prelude.{◌≡◌, ◌≤◌, ◌<◌, ◌+◌, ◌-◌, ◌++◌, ◌^◌, ◌≤ℤ◌, pos, negsuc, [], ◌∷◌, length, take, slice_get, slice_set, option_map, SomeIff, IfOk, OnOk, OnErr, IsOk, IfErr};
ghost use Rattle.std.specs.Arc.{arc_value};
ghost use Rattle.bidegree.specs.declared.range.TheConstants.{MAX_T};
ghost use Rattle.resolution_laws.specs.Resolution.{degrees_from, images_of};
ghost use Rattle.square.specs.Tables.{contents, row_width};

use crate::square::Square;
use f2_vec::BitVec;
use free_module::Gens;
use memory::Memory;
use milnor_basis::Counts;
use std::alloc::Global;
use std::marker::Model;
use std::sync::Arc;

/// A row of squares, each shared. It is seen as what they hold, and how many more have room.
#[derive(Drop)]
pub(crate) struct Row {
    squares: Vec<Arc<Square>>,
}

impl Model for Row {
    ghost use Rattle.std.specs.Prelude.{◌-◌, map, vec_len, vec_capacity};
    ghost use Rattle.std.specs.Arc.{arc_value};
    ghost use Rattle.square.specs.Tables.{Shelf};

    ghost Value = { Shelf };

    ghost view = { λ r. record {
      squares = map arc_value r.squares.items;
      room = vec_capacity r.squares - vec_len r.squares;
    } };
}

impl Row {
    /// The row of no square.
    pub(crate) fn new(alloc: Global) -> Row
        ensures { result.squares ≡ [] }
    {
        Row {
            squares: Vec::new(alloc),
        }
    }

    /// How many squares there are.
    pub(crate) fn len(&self) -> usize
        ensures { result ≡ length self.now.squares }
    {
        self.squares.len()
    }

    /// The square at place `k`, none where there are fewer.
    pub(crate) fn get(&self, k: usize) -> Option<&Arc<Square>>
        ensures { option_map (λ a. arc_value a.now) result ≡ slice_get self.now.squares k }
    {
        self.squares.get(k)
    }

    /// Puts one more square at the end.
    ///
    /// # Errors
    /// The square, where there is no memory for it; the row then has the squares that it had.
    pub(crate) fn push(&mut self, square: Arc<Square>) -> Result<(), Arc<Square>>
        ensures ok { OnOk result (self.new.squares ≡ self.old.squares ++ arc_value square ∷ []) }
        ensures err { OnErr result (self.new.squares ≡ self.old.squares) }
        ensures room { self.old.room ≤ self.new.room + 1 }
        ensures kept { OnErr result (self.old.room ≤ self.new.room) }
        ensures returned { IfErr result (λ a. a ≡ square) }
        ensures succeeds { 0 < self.old.room → IsOk result }
    {
        match self.squares.push(square) {
            Ok(()) => Ok(()),
            Err(failed) => Err(failed.value),
        }
    }

    /// Puts a square in the place of another.
    pub(crate) fn replace(&mut self, k: usize, square: Arc<Square>)
        requires { k < length self.old.squares }
        ensures squares { self.new.squares ≡ slice_set self.old.squares k (arc_value square) }
        ensures room { self.new.room ≡ self.old.room }
    {
        self.squares[k] = square;
    }

    /// Makes room for `n` squares more.
    ///
    /// # Errors
    /// `Memory` if allocation fails; the row is then as before.
    pub(crate) fn reserve(&mut self, n: usize) -> Result<(), Memory>
        ensures squares { self.new.squares ≡ self.old.squares }
        ensures ok { OnOk result (n ≤ self.new.room) }
        ensures room { self.old.room ≤ self.new.room }
    {
        self.squares.reserve(n)?;
        Ok(())
    }

    /// The first `n` squares, shared.
    pub(crate) fn share(&self, alloc: Global, n: usize) -> Result<Row, Memory>
        requires { n ≤ length self.now.squares }
        ensures { IfOk result (λ row. row.squares ≡ take n self.now.squares) }
    {
        let mut row = Row::new(alloc);
        for square in &self.squares[..n] {
            let Ok(shared) = Arc::try_clone(square) else {
                return Err(Memory);
            };
            let Ok(()) = row.push(shared) else {
                return Err(Memory);
            };
        }
        Ok(row)
    }

    /// The dimension, in degree `k` above the bottom, of the free module on the generators of the first `n` squares, none where
    /// it does not fit 64 bits.
    pub(crate) fn width(&self, counts: &Counts, n: u16, k: u16) -> Option<u64>
        requires within { n ≤ length self.now.squares }
        requires degree { n ≤ k + 1 }
        requires counts { k ≤ counts.now }
        ensures { SomeIff result (row_width (take n (contents self.now.squares)) k < 2 ^ 64)
            (row_width (take n (contents self.now.squares)) k) }
    {
        let mut width: u64 = 0;
        for i in 0..n {
            let generators = self.squares[usize::from(i)].gens().len() as u64;
            let elements = counts.elements(k - i) as u64;
            width = width.checked_add(generators.checked_mul(elements)?)?;
        }
        Some(width)
    }

    /// The generators of the first `n` squares, the first of which is of degree `bottom`.
    pub(crate) fn generators(&self, alloc: Global, bottom: i32, n: u16) -> Result<Gens, Memory>
        requires within { n ≤ length self.now.squares }
        requires few { n ≤ MAX_T + 1 }
        requires not_below { negsuc 127 ≤ℤ bottom }
        requires not_above { bottom ≤ℤ pos 128 }
        ensures { IfOk result (λ gens. gens ≡ degrees_from bottom (take n (contents self.now.squares))) }
    {
        let mut gens = Gens::new(alloc);
        for i in 0..n {
            let count = self.squares[usize::from(i)].gens().len();
            gens.push_many(count, bottom + i32::from(i))?;
        }
        Ok(gens)
    }

    /// The images of those generators.
    pub(crate) fn images(&self, alloc: Global, n: u16) -> Result<Vec<BitVec>, Memory>
        requires { n ≤ length self.now.squares }
        ensures { IfOk result (λ images. images.items ≡ images_of (take n (contents self.now.squares))) }
    {
        let mut images = Vec::new(alloc);
        for i in 0..n {
            images.extend_with_clones(self.squares[usize::from(i)].gens())?;
        }
        Ok(images)
    }
}
