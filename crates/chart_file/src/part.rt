//! Parts of columns.
ghost use Rattle.std.specs.Prelude.{◌≡◌, ◌+◌, ◌≤◌, [], ◌∷◌, ◌++◌, All, length, OnOk, OnErr};
ghost use Rattle.bidegree.specs.declared.range.TheConstants.{MAX_S, MAX_T};
ghost use Rattle.f2_vec.specs.Spans.{HaveWidth};
ghost use Rattle.chart_file.specs.Parts.{IsBare, IsPart};

use f2_vec::BitVec;
use memory::Memory;
use std::alloc::Global;
use std::marker::Model;

/// The kind of a record that is a part of a column.
pub(crate) const COLUMN: u8 = 1;

/// What a chart file has of a square: the images of its new generators, and how many coordinates each has.
#[derive(Debug, Drop)]
pub struct BareSquare {
    width: usize,
    images: Vec<BitVec>,
}

impl Model for BareSquare {
    ghost use Rattle.chart_file.specs.Parts.{Bare, IsBare};

    ghost Value = { Bare };

    ghost view = { λ q. record { width = q.width; images = q.images.items } };

    ghost invariant = { λ q. IsBare (record { width = q.width; images = q.images.items }) };
}

impl BareSquare {
    /// The square with these images, each with `width` coordinates.
    pub fn new(width: usize, images: Vec<BitVec>) -> BareSquare
        requires widths { HaveWidth width images.items }
        requires few { length images.items ≤ width }
        ensures { result ≡ record { width = width; images = images.items } }
    {
        BareSquare { width, images }
    }

    /// How many coordinates an image has.
    pub fn width(&self) -> usize
        ensures { result ≡ self.now.width }
    {
        self.width
    }

    /// The images, in the order of the generators.
    pub fn images(&self) -> &[BitVec]
        ensures images { result.now ≡ self.now.images }
        ensures bare { IsBare self.now }
    {
        self.images.as_slice()
    }
}

/// A part of a column: squares of one degree, in rows one above the other.
#[derive(Debug, Drop)]
pub struct ColumnPart {
    above: u16,
    first: u16,
    squares: Vec<BareSquare>,
}

impl Model for ColumnPart {
    ghost use Rattle.chart_file.specs.Parts.{Part, IsPart};

    ghost Value = { Part };

    ghost view = { λ p. record { above = p.above; first = p.first; squares = p.squares.items } };

    ghost invariant = { λ p. IsPart (record { above = p.above; first = p.first; squares = p.squares.items }) };
}

impl ColumnPart {
    /// The part of no squares, `above` degrees above the bottom, whose first square is to be in row `first`.
    pub fn new(alloc: Global, above: u16, first: u16) -> ColumnPart
        requires degree { above ≤ MAX_T }
        requires row { first ≤ MAX_S }
        ensures { result ≡ record { above = above; first = first; squares = [] } }
    {
        ColumnPart {
            above,
            first,
            squares: Vec::new(alloc),
        }
    }

    /// How many degrees above the bottom its squares are.
    pub fn above(&self) -> u16
        ensures above { result ≡ self.now.above }
        ensures within { result ≤ MAX_T }
    {
        self.above
    }

    /// The row of its first square.
    pub fn first(&self) -> u16
        ensures first { result ≡ self.now.first }
        ensures within { result + length self.now.squares ≤ MAX_S + 1 }
    {
        self.first
    }

    /// Its squares, by row.
    pub fn squares(&self) -> &[BareSquare]
        ensures squares { result.now ≡ self.now.squares }
        ensures is_part { IsPart self.now }
    {
        self.squares.as_slice()
    }

    /// Its squares alone, by row.
    pub fn into_squares(self) -> Vec<BareSquare>
        ensures { result.items ≡ self.squares }
    {
        self.squares
    }

    /// Puts the square of the next row behind the others.
    ///
    /// # Errors
    /// `Memory` if allocation fails; the part is then as before.
    pub fn push(&mut self, square: BareSquare) -> Result<(), Memory>
        requires { self.old.first + length self.old.squares ≤ MAX_S }
        ensures ok { OnOk result (self.new ≡ record {
          above = self.old.above;
          first = self.old.first;
          squares = self.old.squares ++ square ∷ [];
        }) }
        ensures err { OnErr result (self.new ≡ self.old) }
    {
        square.images(); // It has the shape of one, which proofs learn here.
        self.squares.push(square)?;
        Ok(())
    }
}
