//! The values of a map on the generators of a row.
ghost use Rattle.std.specs.Prelude.{◌≡◌, ◌<◌, ◌++◌, [], ◌∷◌, length, OnOk, OnErr};
ghost use Rattle.f2_vec.specs.Spans.{row};
ghost use Rattle.chain_map.specs.Inside.{with_value};
ghost use Rattle.chain_map.specs.Lifting.{joined, square_values};

use f2_vec::BitVec;
use memory::Memory;
use std::alloc::Global;
use std::marker::Model;

/// The values of a map on the generators of a row of squares, square by square from the bottom degree on.
#[derive(Drop)]
pub(crate) struct Values {
    vectors: Vec<BitVec>,
    firsts: Vec<usize>,
}

impl Model for Values {
    ghost use Rattle.std.specs.Prelude.{◌≡◌, List, Bool, length, slice_index_or};
    ghost use Rattle.chain_map.specs.Inside.{by_square, AreInOrder};

    ghost Value = { List (List (List Bool)) };

    ghost view = { λ v. by_square v.firsts.items v.vectors.items };

    ghost invariant = { λ v. (slice_index_or v.firsts.items 0 0 ≡ 0)
        × AreInOrder v.firsts.items (length v.vectors.items) };
}

impl Values {
    /// No square, and no values.
    pub(crate) fn new(alloc: Global) -> Self
        ensures { result ≡ [] }
    {
        Values {
            vectors: Vec::new(alloc),
            firsts: Vec::new(alloc),
        }
    }

    /// The next square, with no values so far.
    ///
    /// # Errors
    /// `Memory` if allocation fails.
    pub(crate) fn begin_square(&mut self) -> Result<(), Memory>
        ensures ok { OnOk result (self.new ≡ self.old ++ [] ∷ []) }
        ensures err { OnErr result (self.new ≡ self.old) }
    {
        self.firsts.push(self.vectors.len())?;
        Ok(())
    }

    /// The value on the next generator of the last square.
    ///
    /// # Errors
    /// `Memory` if allocation fails.
    pub(crate) fn push(&mut self, value: BitVec) -> Result<(), Memory>
        requires { 0 < length self.old }
        ensures ok { OnOk result (self.new ≡ with_value self.old value) }
        ensures err { OnErr result (self.new ≡ self.old) }
    {
        self.vectors.push(value)?;
        Ok(())
    }

    /// The values on all generators, in their order.
    pub(crate) fn vectors(&self) -> &[BitVec]
        ensures { result.now ≡ joined self.now }
    {
        self.vectors.as_slice()
    }

    /// The value on number `i` of the square that is `above` degrees above the bottom.
    pub(crate) fn at(&self, above: usize, i: usize) -> &BitVec
        requires { i < length (square_values self.now above) }
        ensures { result.now ≡ row (square_values self.now above) i }
    {
        &self.vectors[self.firsts[above] + i]
    }
}
