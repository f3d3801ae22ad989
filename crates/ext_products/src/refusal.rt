//! Why there is nothing to tell of classes: one refusal serves products and brackets.
ghost use Rattle.std.specs.Prelude.{◌≡◌};
ghost use Rattle.ext_products.specs.declared.refusal.ClassesFault.TheVariants.{Memory as OutOfMemory};

use bidegree::Class;
use f2_vec::BitVec;
use memory::Memory;
use thiserror::Error;

/// Which of the classes that are asked for.
#[derive(Clone, Copy, Debug, PartialEq, Eq)]
pub enum Named {
    /// The class of the sphere that classes are multiplied by.
    By,
    /// The first class of a bracket <a, b, c>, of the sphere.
    A,
    /// The second, of the sphere.
    B,
    /// The third, of the module.
    C,
    /// The class of the module that one of the sphere is multiplied with.
    X,
}

/// A product of two of the classes of a bracket <a, b, c>.
#[derive(Clone, Copy, Debug, PartialEq, Eq)]
pub enum Pair {
    /// ab, of the sphere.
    Ab,
    /// bc, of the module.
    Bc,
}

/// What has to be in the range.
#[derive(Clone, Copy, Debug, PartialEq, Eq)]
pub enum Target {
    /// A product of two of the classes.
    Product(Pair),
    /// The bracket.
    Bracket,
    /// The product of a class of the sphere with one of the module.
    Ax,
}

/// Why there is nothing to tell of the classes that are asked for.
#[derive(Debug, Drop, Error)]
pub enum Refusal {
    /// The resolution has not this class through the range. There are `count` classes at its place, and 0 outside of the range.
    #[error("no such class, {count} there")]
    NoClass {
        named: Named,
        class: Class,
        count: usize,
    },
    /// The square (s, t) of the target is past the range.
    #[error("({s},{t}) is out of range")]
    OutOfRange {
        target: Target,
        s: i32,
        t: i32,
    },
    /// The product, a vector over the classes of the square (s, t), is not zero.
    #[error("a product at ({s},{t}) is not zero")]
    Nonzero {
        pair: Pair,
        s: i32,
        t: i32,
        product: BitVec,
    },
}

/// Why there is no text on classes.
#[derive(Debug, Drop, Error)]
pub enum ClassesFault {
    /// There is nothing to tell of the classes that are asked for.
    #[error("{0}")]
    Refused(Refusal),
    /// Memory allocation failed.
    #[error("out of memory")]
    Memory,
}

impl From<Memory> for ClassesFault {
    ghost from_gives = { λ _ e. e ≡ OutOfMemory };

    fn from(_: Memory) -> Self {
        ClassesFault::Memory
    }
}
