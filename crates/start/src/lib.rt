//! A start: the squares that were read from a save file, as contracts alone see them.
#![tactic(auto)]

ghost use Rattle.std.specs.Prelude.{◌≡◌, [], ◌∷◌, ◌++◌};

use f2_vec::BitVec;
use ghost_list::GhostList;
use std::marker::Model;

/// A square that was read: its place, the images of its generators and its kernel rows.
#[derive(Drop)]
struct Read {
    s: u16,
    above: u16,
    images: Vec<BitVec>,
    kernel: Vec<BitVec>,
}

impl Model for Read {
    ghost use Rattle.resolution_laws.specs.Start.{Entry};

    ghost Value = { Entry };

    ghost view = { λ r. record {
      s = r.s;
      above = r.above;
      content = record { images = r.images.items; kernel = r.kernel.items };
    } };
}

/// A list of squares that were read: for each its place, the images of its generators and its kernel rows. It has no
/// bytes, and is made without memory.
#[derive(Drop)]
pub struct Start {
    squares: GhostList<Read>,
}

impl Model for Start {
    ghost use Rattle.std.specs.Prelude.{List};
    ghost use Rattle.resolution_laws.specs.Start.{Entry};

    ghost Value = { List Entry };

    ghost view = { λ s. s.squares };
}

impl Start {
    /// The start of no square.
    pub fn empty() -> Start
        ensures { result ≡ [] }
    {
        Start {
            squares: GhostList::empty(),
        }
    }

    /// A copy of the start. It takes no memory.
    pub fn again(&self) -> Start
        ensures { result ≡ self.now }
    {
        Start {
            squares: GhostList::picked(self),
        }
    }

    /// This start, and then the square in row `s` and `above` degrees above the bottom, with these images and kernel rows.
    pub fn then(&self, s: u16, above: u16, images: &[BitVec], kernel: &[BitVec]) -> Start
        ensures { result ≡ self.now
            ++ record { s = s; above = above; content = record { images = images.now; kernel = kernel.now } } ∷ [] }
    {
        Start {
            squares: GhostList::picked(&(self, s, above, images, kernel)),
        }
    }
}
