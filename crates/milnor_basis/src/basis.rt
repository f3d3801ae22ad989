//! The basis of each degree, in right lexicographic order.
ghost use Rattle.std.specs.Prelude.{◌≡◌, ℕ, suc, ◌+◌, ◌-◌, ◌*◌, ◌^◌, ◌≤◌, ◌<◌, ◌↔◌, ◌++◌, ◌∷◌, [], length, map, drop, IfOk, IfSome, IsNone, Some, slice_get};
ghost use Rattle.milnor_basis.specs.Exponents.{degree_of, trimmed};
ghost use Rattle.milnor_basis.specs.Basis.{lists_of, basis_of};

use crate::counts::Counts;
use crate::exps::{Exps, MAX_EXPONENTS};
use crate::multiples::Kept;
use memory::Memory;
use std::alloc::Global;
use std::fmt;
use std::marker::Model;

/// The elements of one degree, in order.
#[derive(Debug, Drop)]
struct Level {
    exps: Vec<Exps>,
}

impl Model for Level {
    ghost use Rattle.std.specs.Prelude.{ℕ, List};

    ghost Value = { List (List ℕ) };

    ghost view = { λ l. l.exps.items };
}

impl Level {
    /// The basis of degree `n`.
    fn of_degree(alloc: Global, n: u16) -> Result<Level, Memory>
        requires { n ≤ 255 }
        ensures { IfOk result (λ level. level ≡ basis_of n) }
    {
        let none = Level {
            exps: Vec::new(alloc),
        };
        none.with_lists(MAX_EXPONENTS, n, [0; 8])
    }

    /// This level, followed by the elements whose first `k` exponents make up degree `n` and whose others are those of
    /// `numbers`, in right lexicographic order.
    fn with_lists(self, k: usize, n: u16, numbers: [u16; 8]) -> Result<Level, Memory>
        requires first { 0 < k }
        requires last { k ≤ 8 }
        ensures { IfOk result
            (λ level. level ≡ self ++ map (λ front. trimmed (front ++ drop k numbers)) (lists_of k n)) }
    {
        if k == 1 {
            return self.with_element(n, numbers);
        }
        let weight = (1 << k) - 1;
        let mut level = self;
        let mut numbers = numbers;
        for last in 0..=n / weight {
            numbers[k - 1] = last;
            level = level.with_lists(k - 1, n - last * weight, numbers)?;
        }
        Ok(level)
    }

    /// This level, followed by the element whose first exponent is `n` and whose others are those of `numbers`.
    fn with_element(self, n: u16, numbers: [u16; 8]) -> Result<Level, Memory>
        ensures { IfOk result (λ level. level ≡ self ++ trimmed (n ∷ drop 1 numbers) ∷ []) }
    {
        let mut level = self;
        let mut numbers = numbers;
        numbers[0] = n;
        level.exps.push(Exps::of(numbers))?;
        Ok(level)
    }
}

/// The Milnor bases of the degrees 0 to a greatest one, which is all that contracts see of it.
#[derive(Drop)]
pub struct Basis {
    max: u16,
    levels: Vec<Level>,
    counts: Counts,
    kept: Kept,
}

impl Model for Basis {
    ghost use Rattle.std.specs.Prelude.{◌≡◌, ◌+◌, ◌≤◌, ℕ, map};
    ghost use Rattle.std.specs.List.{range_with_len};
    ghost use Rattle.milnor_basis.specs.Basis.{basis_of};

    ghost Value = { ℕ };

    ghost view = { λ b. b.max };

    ghost invariant = { λ b. (b.max ≤ 255) × (b.levels.items ≡ map basis_of (range_with_len 0 (b.max + 1)))
        × (b.counts ≡ b.max) × (b.kept ≡ b.max + 1) };
}

// It is written by hand, since the cells of the products that are kept have no `Debug`.
impl fmt::Debug for Basis {
    fn fmt<W: fmt::Write>(&self, f: &mut fmt::Formatter<W>) -> fmt::Result {
        let max = self.max;
        write!(f, "Basis({max})")
    }
}

impl Basis {
    /// The bases of the degrees 0 to `max`.
    ///
    /// # Errors
    /// `Memory` if allocation fails.
    pub fn new(alloc: Global, max: u16) -> Result<Self, Memory>
        requires { max ≤ 255 }
        ensures { IfOk result (λ basis. basis ≡ max) }
    {
        let mut levels = Vec::new(alloc);
        for n in 0..=max {
            levels.push(Level::of_degree(alloc, n)?)?;
        }
        let counts = Counts::new(alloc, max)?;
        let kept = Kept::new(alloc, max)?;
        Ok(Basis {
            max,
            levels,
            counts,
            kept,
        })
    }

    /// The greatest degree.
    pub fn max(&self) -> u16
        ensures { result ≡ self.now }
    {
        self.max
    }

    /// How many exponent lists there are.
    pub(crate) fn counts(&self) -> &Counts
        ensures { result.now ≡ self.now }
    {
        &self.counts
    }

    /// The products that were made so far.
    pub(crate) fn kept(&self) -> &Kept
        ensures { result.now ≡ self.now + 1 }
    {
        &self.kept
    }

    /// The basis of degree `n`, in right lexicographic order.
    pub fn of_degree(&self, n: u16) -> &[Exps]
        requires { n ≤ self.now }
        ensures { result.now ≡ basis_of n }
    {
        let level = &self.levels[usize::from(n)];
        level.exps.as_slice()
    }

    /// The degree of Sq(R), and its place in the basis of that degree; none where the degree is above the greatest.
    pub fn place(&self, r: &Exps) -> Option<(u16, usize)>
        ensures past { IsNone result ↔ (self.now < degree_of r.now) }
        ensures degree { IfSome result (λ at. at.0 ≡ degree_of r.now) }
        ensures place { IfSome result (λ at. slice_get (basis_of at.0) at.1 ≡ Some r.now) }
        ensures small { self.now ≤ 255 }
    {
        let mut degree = 0;
        let mut place = 0;
        for i in 0..r.len() {
            let below = degree;
            degree = self.degree_with(below, i, r.exponent(i))?;
            // What comes before in right lexicographic order has a smaller exponent at `i` and the same ones after it.
            place += self.counts.of(degree, i + 1) - self.counts.of(below, i + 1);
        }
        Some((degree, place))
    }

    /// The degree with `number` as the exponent at place `i`, counted from 0, of one of degree `below` without it; none
    /// where that is above the greatest.
    fn degree_with(&self, below: u16, i: usize, number: u16) -> Option<u16>
        requires below { below ≤ self.now }
        requires place { i < 8 }
        ensures past { IsNone result ↔ (self.now < below + number * (2 ^ suc i - 1)) }
        ensures degree { IfSome result (λ degree. degree ≡ below + number * (2 ^ suc i - 1)) }
        ensures small { self.now ≤ 255 }
    {
        let degree = u32::from(below) + u32::from(number) * ((1 << (i + 1)) - 1);
        if degree > u32::from(self.max) {
            return None;
        }
        Some(degree as u16)
    }
}
