//! How many exponent lists there are of each degree and length, by which places in a basis are counted.
ghost use Rattle.std.specs.Prelude.{◌≡◌, ℕ, ◌+◌, ◌-◌, ◌*◌, ◌^◌, ◌≤◌, ◌<◌, IfOk, length, slice_index};
ghost use Rattle.milnor_basis.specs.Basis.{lists_of, basis_of};
ghost use Rattle.milnor_basis.specs.Inside.Counted.{IsCounted};

use crate::exps::MAX_EXPONENTS;
use memory::Memory;
use std::alloc::Global;
use std::marker::Model;

/// How many numbers are kept of a degree: one for each length from 0 to 8.
const LENGTHS: usize = MAX_EXPONENTS + 1;

/// For each degree from 0 to a greatest one, which is all that contracts see, and each k from 0 to 8, how many lists
/// of k exponents have that degree.
#[derive(Debug, Drop)]
pub struct Counts {
    max: u16,
    numbers: Vec<usize>,
}

impl Model for Counts {
    ghost use Rattle.std.specs.Prelude.{◌≡◌, ◌+◌, ◌*◌, ◌≤◌, ℕ, length};
    ghost use Rattle.milnor_basis.specs.Inside.Counted.{IsCounted};

    ghost Value = { ℕ };

    ghost view = { λ c. c.max };

    ghost invariant = { λ c. (c.max ≤ 255) × (length c.numbers.items ≡ 9 * (c.max + 1)) × IsCounted c.numbers.items };
}

/// The first exponents of an element, which are still to choose where those after them are chosen.
#[derive(Clone, Copy, Drop)]
pub(crate) struct Rest {
    /// The degree that is left for them.
    pub(crate) degree: u16,
    /// The place of the first element with the chosen exponents in the basis of its degree.
    pub(crate) place: usize,
}

impl Counts {
    /// The counts of the degrees 0 to `max`.
    ///
    /// # Errors
    /// `Memory` if allocation fails.
    pub fn new(alloc: Global, max: u16) -> Result<Self, Memory>
        requires { max ≤ 255 }
        ensures { IfOk result (λ counts. counts ≡ max) }
    {
        let mut numbers = Vec::new(alloc);
        for n in 0..=max {
            numbers = with_degree(numbers, n)?;
        }
        Ok(Counts { max, numbers })
    }

    /// How many elements the basis of degree `n` has.
    pub fn elements(&self, n: u16) -> usize
        requires { n ≤ self.now }
        ensures { result ≡ length (basis_of n) }
    {
        let _max = self.max;
        self.of(n, MAX_EXPONENTS)
    }

    /// How many lists of `k` exponents have degree `n`.
    pub(crate) fn of(&self, n: u16, k: usize) -> usize
        requires degree { n ≤ self.now }
        requires exponents { k ≤ 8 }
        ensures { result ≡ length (lists_of k n) }
    {
        self.numbers[LENGTHS * usize::from(n) + k]
    }

    /// What is left once the k-th exponent, the last that is to choose, is this one. In right lexicographic order, the
    /// elements with a smaller one come first.
    pub(crate) fn chosen(&self, rest: Rest, k: usize, exponent: u16) -> Rest
        requires degree { rest.degree ≤ self.now }
        requires small { rest.degree ≤ 255 }
        requires some { 0 < k }
        requires few { k ≤ 9 }
        requires fits { exponent * (2 ^ k - 1) ≤ rest.degree }
        requires room { rest.place + length (lists_of k rest.degree) ≤ 2 ^ 16 }
        ensures degree { result.degree ≡ rest.degree - exponent * (2 ^ k - 1) }
        ensures place { result.place
            ≡ rest.place + (length (lists_of k rest.degree) - length (lists_of k result.degree)) }
    {
        if exponent == 0 {
            return rest;
        }
        self.counted(rest, k, exponent)
    }

    /// What `chosen` answers, without a test for 0: where most exponents are above it, that is quicker.
    pub(crate) fn counted(&self, rest: Rest, k: usize, exponent: u16) -> Rest
        requires degree { rest.degree ≤ self.now }
        requires small { rest.degree ≤ 255 }
        requires some { 0 < k }
        requires few { k ≤ 9 }
        requires fits { exponent * (2 ^ k - 1) ≤ rest.degree }
        requires room { rest.place + length (lists_of k rest.degree) ≤ 2 ^ 16 }
        ensures degree { result.degree ≡ rest.degree - exponent * (2 ^ k - 1) }
        ensures place { result.place
            ≡ rest.place + (length (lists_of k rest.degree) - length (lists_of k result.degree)) }
    {
        // A ninth exponent is 0 in every degree up to 255.
        if k > MAX_EXPONENTS {
            return rest;
        }
        let degree = rest.degree - exponent * ((1 << k) - 1);
        let passed = self.of(rest.degree, k) - self.of(degree, k);
        Rest {
            degree,
            place: rest.place + passed,
        }
    }
}

/// The counts of the degrees below `n`, followed by those of degree `n`: the last of k exponents is 0, or it can be
/// made smaller by 1.
fn with_degree(numbers: Vec<usize>, n: u16) -> Result<Vec<usize>, Memory>
    requires degree { n ≤ 255 }
    requires below { length numbers.items ≡ 9 * n }
    requires counted { IsCounted numbers.items }
    ensures below { IfOk result (λ more. length more.items ≡ 9 * (n + 1)) }
    ensures counted { IfOk result (λ more. IsCounted more.items) }
{
    let mut numbers = numbers;
    let mut count = usize::from(n == 0);
    numbers.push(count)?;
    for k in 1..=MAX_EXPONENTS {
        let weight = (1 << k) - 1;
        if weight <= n {
            count += numbers[LENGTHS * usize::from(n - weight) + k];
        }
        numbers.push(count)?;
    }
    Ok(numbers)
}
