//! What lies on a desk: the squares that are done, as far as the next ones are made from them.
ghost use Rattle.std.specs.Prelude.{◌≡◌, ℕ, ◌≤◌, ◌-◌, ◌^◌, ◌↔◌, ◌+ℤ◌, ◌≤ℤ◌, pos, Err, None, IfOk, IfSome, OnOk, OnErr};
ghost use Rattle.bidegree.specs.declared.range.Range.{Range};
ghost use Rattle.bidegree.specs.declared.shape.Shape.TheVariants.{Stems};
ghost use Rattle.board_core.specs.declared.event.Cause as Cause;
ghost use Rattle.board_core.specs.Machine.{IsStaircase, stands_in};
ghost use Rattle.square_board.specs.Openings.{below_fronts};
ghost use Rattle.square_board.specs.Stocks.{StockWords, IsNextOf, HasOneMore, degree_of};

use bidegree::Shape;
use board_core::Cause;
use memory::Memory;
use std::alloc::Global;

/// Squares that are done, and what the next ones are made from. Each row has its squares from the bottom degree on.
///
/// What a square is made from is shared with the stock, or copied, so that it can be used while the stock goes on.
pub trait Stock {
    /// What its squares are squares of. It stays the same, and exists in contracts alone.
    type Subject;

    /// What a square is made from.
    type Inputs: Drop + Send;

    /// What is made at a square.
    type Made: Drop + Send;

    /// What contracts see of stocks of this kind. It is one record, so that what is so of a board has it as one argument.
    ghost words: { StockWords Self Self.Subject Self.Inputs Self.Made };

    /// The least degree.
    fn bottom(&self) -> i32
        ensures bottom { result ≡ words.bottom (words.subject self.now) }
        ensures fits { (range : Range) → words.reaches (words.subject self.now) range →
            (result +ℤ pos range.t) ≤ℤ pos (2 ^ 31 - 1) };

    /// Which squares of a range are meant. In stems those of a row are followed by one more, at which the kernel is made that the
    /// last square of the next row covers.
    fn shape(&self) -> Shape
        ensures shape { result ≡ words.shape (words.subject self.now) }
        ensures corner { (range : Range) → words.reaches (words.subject self.now) range → result ≡ Stems →
            range.s ≤ range.t };

    /// In how many rows squares may be done.
    fn rows(&self) -> u16
        ensures rows { (i : ℕ) → result ≤ i → words.fronts self.now i ≡ 0 }
        ensures stairs { (range : Range) → words.reaches (words.subject self.now) range →
            IsStaircase (stands_in (words.shape (words.subject self.now)) range.s range.t)
            (below_fronts (words.fronts self.now)) };

    /// How many squares of row `s` are done.
    fn front(&self, s: u16) -> u64
        ensures front { result ≡ words.fronts self.now s }
        ensures short { result ≤ 2 ^ 16 }
        ensures fits { (words.bottom (words.subject self.now) +ℤ pos result) ≤ℤ pos (2 ^ 31) };

    /// How many generators the square in row `s` and `above` degrees above the bottom has, none exactly where it is not done.
    fn generators(&self, s: u16, above: u16) -> Option<usize>
        ensures none { (result ≡ None) ↔ (words.fronts self.now s ≤ above) }
        ensures count { IfSome result (λ n. words.is_count (words.subject self.now) s above n) };

    /// What the next square of row `s`, which is `above` degrees above the bottom, is made from.
    ///
    /// # Errors
    /// `Memory` if allocation fails.
    fn inputs(&self, alloc: Global, s: u16, above: u16) -> Result<Self::Inputs, Memory>
        requires next { IsNextOf words self.now s above }
        ensures inputs { IfOk result (λ inputs. words.is_for (words.subject self.now) s above inputs) };

    /// Makes a square.
    ///
    /// # Errors
    /// `Memory` if allocation fails.
    fn make(alloc: Global, inputs: &Self::Inputs) -> Result<Self::Made, Memory>
        ensures { IfOk result (λ made. words.is_made inputs.now made) };

    /// Puts what was made at the next square of row `s`, which is `above` degrees above the bottom, behind the others of its
    /// row.
    ///
    /// # Errors
    /// `Failed` if it could not be kept; then the stock takes no more. `Memory` if there is no memory. In both cases the square is
    /// not done.
    fn put(
        &mut self,
        alloc: Global,
        s: u16,
        above: u16,
        inputs: &Self::Inputs,
        made: Self::Made,
    ) -> Result<(), Cause>
        requires takes { words.takes self.old }
        requires next { IsNextOf words self.old s above }
        requires inputs { words.is_for (words.subject self.old) s above inputs.now }
        requires made { words.is_made inputs.now made }
        ensures subject { words.subject self.new ≡ words.subject self.old }
        ensures fronts { OnOk result (HasOneMore s (words.fronts self.old) (words.fronts self.new)) }
        ensures same { OnErr result ((i : ℕ) → words.fronts self.new i ≡ words.fronts self.old i) }
        ensures takes { OnOk result (words.takes self.new) }
        ensures takes_still { result ≡ Err Cause.Memory → words.takes self.new }
        ensures gives { OnOk result
            (words.gives self.old s (degree_of words (words.subject self.old) above) self.new) }
        ensures lacks { result ≡ Err Cause.Memory →
            words.lacks self.old s (degree_of words (words.subject self.old) above) self.new }
        ensures fails { result ≡ Err Cause.Failed →
            words.fails self.old s (degree_of words (words.subject self.old) above) self.new };

    /// The greatest degree above the bottom for which products can be made ahead.
    fn reach(inputs: &Self::Inputs) -> u16;

    /// Whether the row has generators `a` degrees above the bottom.
    fn has_generators(inputs: &Self::Inputs, a: u16) -> bool;

    /// Makes the products that the square `above` degrees above the bottom will ask for, with the generators that are `a`
    /// degrees above it. They are kept with the Milnor bases, and what is made of them is in no contract.
    ///
    /// # Errors
    /// `Memory` if allocation fails.
    fn make_products(
        alloc: Global,
        inputs: &Self::Inputs,
        a: u16,
        above: u16,
    ) -> Result<(), Memory>;
}
