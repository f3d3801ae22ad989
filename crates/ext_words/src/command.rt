//! What a command line asks for.
ghost use Rattle.std.specs.Prelude.{◌≡◌};
ghost use Rattle.ext_words.specs.declared.command.WordsFault.TheVariants.{Memory as WantOfMemory};

use bidegree::{Class, Range, Shape};
use memory::Memory;
use monomial::Mono;
use std::marker::Model;
use thiserror::Error;

/// The greatest number of workers.
pub const MAX_WORKERS: u16 = 64;

/// The greatest number of squares in a product.
pub const MAX_SQUARES: usize = 16;

/// The greatest degree of a product of squares, which is the sum of their numbers.
pub const MAX_SQUARES_DEGREE: u16 = 127;

/// The greatest number of degrees that a module is shifted by, up or down.
pub const MAX_SHIFT: u16 = 256;

/// What every command has that resolves a module.
#[derive(Clone, Copy, Debug, PartialEq, Eq)]
pub struct Common {
    pub range: Range,
    /// Which squares of the range are meant. With `--stems`, which all but `massey` have, they are those of its stems, and the
    /// range is neither kept in a save file nor told of while it is made.
    pub shape: Shape,
    /// How many workers make squares: from 1 to `MAX_WORKERS`, and 1 where the words do not say.
    pub workers: u32,
    /// Whether the squares are kept in the save file, and those that it has are taken up.
    pub save: bool,
    /// Whether lines on standard error say how far the run is. `sphere` and `resolve` alone have the option.
    pub live: bool,
}

/// What is built from the modules on standard input.
#[derive(Clone, Copy, Debug, PartialEq, Eq)]
pub enum Build {
    /// `sum`: the direct sum of two modules.
    Sum,
    /// `tensor`: the tensor product of two modules.
    Tensor,
    /// `dual`: the dual of a module.
    Dual,
    /// `shift --degrees N`: a module whose degrees are N greater, from -`MAX_SHIFT` to `MAX_SHIFT`.
    Shift(i32),
}

/// Classes in the order in which words name them, seen as their list. A class that is named twice stands in it twice.
#[derive(Debug, Drop)]
pub struct Classes {
    list: Vec<Class>,
}

impl Model for Classes {
    ghost use Rattle.std.specs.Prelude.{List};
    ghost use Rattle.bidegree.specs.declared.class.Class.{Class};

    ghost Value = { List Class };

    ghost view = { λ classes. classes.list.items };
}

impl Classes {
    /// These classes.
    pub fn of(list: Vec<Class>) -> Self
        ensures { result ≡ list.items }
    {
        Classes { list }
    }

    /// The classes, the first one first.
    pub fn as_slice(&self) -> &[Class]
        ensures { result.now ≡ self.now }
    {
        self.list.as_slice()
    }
}

/// What the words of a command line ask for. It is no `Copy` type, since `Classes` and the numbers of `sq`, a `Mono`, have memory.
/// The contract of `parse` hands on the bounds of the numbers.
#[derive(Debug, Drop)]
pub enum Command {
    /// `sphere S T`: the chart of the sphere.
    Sphere(Common),
    /// `resolve S T`: the chart of the module on standard input.
    Resolve(Common),
    /// `dump S T`: the differentials of the resolution of the module on standard input.
    Dump(Common),
    /// `products S T --by C ..`: the products of the classes `by` of the sphere with the classes of the module on standard input.
    Products {
        common: Common,
        by: Classes,
    },
    /// `massey S T --a C --b C --c C`: the bracket of the classes `a` and `b` of the sphere with the class `c` of the module on
    /// standard input.
    Massey {
        common: Common,
        a: Class,
        b: Class,
        c: Class,
    },
    /// `product --a C --x C`: the product of the class `a` of the sphere with the class `x` of the module on standard input, through the
    /// least range that has its squares.
    Product {
        workers: u32,
        a: Class,
        x: Class,
    },
    /// `bracket --a C --b C --c C`: the bracket that `massey` tells, through the least range that has its squares.
    Bracket {
        workers: u32,
        a: Class,
        b: Class,
        c: Class,
    },
    /// `check`: a line on the module on standard input.
    Check,
    /// `build OP`: the file of the module that is built from those on standard input.
    Build(Build),
    /// `sample N S T`: the summary of the resolution of the module that N draws.
    Sample {
        n: u32,
        common: Common,
    },
    /// `sq W`: the product of these squares, in Milnor's basis and as a sum of admissible monomials.
    Sq(Mono),
    /// `migrate`: the save file of the module on standard input gets the quasi-inverses that it lacks.
    Migrate,
    /// `verify S T`: the chart of the module on standard input, if its save file is a certificate of that chart.
    Verify(Range),
    /// `table S T --by C ..`: the squares of the module on standard input that have classes, and the products of these with the classes
    /// `by` of the sphere, of which there may be none.
    Table {
        common: Common,
        by: Classes,
    },
}

/// Why words gave no command.
#[derive(Clone, Copy, Debug, PartialEq, Eq, Error)]
pub enum WordsFault {
    /// The words are outside the grammar.
    #[error("words outside the command grammar")]
    Words,
    /// There was no memory to read them.
    #[error("out of memory")]
    Memory,
}

impl From<Memory> for WordsFault {
    ghost from_gives = { λ _ fault. fault ≡ WantOfMemory };

    fn from(_: Memory) -> Self {
        WordsFault::Memory
    }
}
