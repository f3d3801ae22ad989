//! The products of one element with all elements of a degree, which a basis keeps as they are made.
ghost use Rattle.std.specs.Prelude.{◌≡◌, ◌≤◌, ◌<◌, ◌+◌, ℕ, length, IfOk, IsTrue, ◌↔◌};
ghost use Rattle.std.specs.List.{All};
ghost use Rattle.f2_vec.specs.Vectors.{bit, plus};
ghost use Rattle.milnor_basis.specs.Exponents.{degree_of};
ghost use Rattle.milnor_basis.specs.Basis.{basis_of};
ghost use Rattle.milnor_basis.specs.Product.{product_bits, is_odd_at, ArePairs, Factors};

use crate::all_products::pairs_of;
use crate::basis::Basis;
use crate::exps::Exps;
use crate::product::{coefficients, product_degree};
use f2_vec::BitVec;
use memory::Memory;
use once_cell::race::OnceBox;
use std::alloc::Global;
use std::marker::Model;

/// The greatest degree of single products that are answered from those that are kept.
const MAX_KEPT: u16 = 32;

/// The products Sq(R) Sq(S) of one S with each R of a degree, seen as that degree and S. They tell which products they are,
/// and that is looked at when they are found.
#[derive(Drop)]
pub struct Multiples {
    degree: u16,
    right: Exps,
    /// The places of R and of T for each matrix that counts in Milnor's formula, in no order: a place of R with one of T
    /// is a term of the product where it is there an odd number of times.
    pairs: Vec<(u16, u16)>,
}

impl Model for Multiples {
    ghost use Rattle.milnor_basis.specs.Product.{ArePairs, Factors};

    ghost Value = { Factors };

    ghost view = { λ m. record { degree = m.degree; right = m.right } };

    ghost invariant = { λ m. ArePairs m.degree m.right m.pairs.items };
}

impl Multiples {
    /// The products of the elements of this degree with Sq(S).
    fn make(alloc: Global, basis: &Basis, degree: u16, s: &Exps) -> Result<Self, Memory>
        requires { degree + degree_of s.now ≤ basis.now }
        ensures { IfOk result (λ m. m ≡ record { degree = degree; right = s.now }) }
    {
        let pairs = pairs_of(alloc, basis, degree, s)?;
        Ok(Multiples {
            degree,
            right: *s,
            pairs,
        })
    }

    /// The places of R and of T of the terms, in no order: the place of R in the basis of its degree, and the place of T
    /// in the basis of the product's degree. The coefficient of Sq(T) in Sq(R) Sq(S) is 1 where their pair is there an odd
    /// number of times.
    pub fn pairs(&self) -> &[(u16, u16)]
        ensures { ArePairs self.now.degree self.now.right result.now }
    {
        self.pairs.as_slice()
    }

    /// Whether these are the products with Sq(S) of the elements of this degree.
    fn are_of(&self, degree: u16, s: &Exps) -> bool
        ensures { IsTrue result ↔ (self.now ≡ record { degree = degree; right = s.now }) }
    {
        self.degree == degree && self.right == *s
    }
}

/// Turns over the bits of those pairs whose first place is `left`, at their second.
fn turn_over(bits: &mut BitVec, left: usize, pairs: &[(u16, u16)])
    requires { All (λ x. x.1 < length bits.old) pairs.now }
    ensures size { length bits.new ≡ length bits.old }
    ensures turned { (k : ℕ) → bit bits.new k ≡ plus (is_odd_at pairs.now left k) (bit bits.old k) }
{
    for pair in pairs {
        if usize::from(pair.0) == left {
            bits.flip(usize::from(pair.1));
        }
    }
}

/// The cells of the products of a degree with the elements of another, by the places of these.
#[derive(Drop)]
struct Cells {
    cells: Vec<OnceBox<Multiples>>,
}

impl Cells {
    /// So many cells, all empty.
    fn new(alloc: Global, count: usize) -> Result<Self, Memory> {
        let mut cells = Vec::new(alloc);
        for _ in 0..count {
            cells.push(OnceBox::new(alloc))?;
        }
        Ok(Cells { cells })
    }
}

/// The products that were made so far. Threads may make the same ones at a time; those of the first to finish are kept.
#[derive(Drop)]
pub(crate) struct Kept {
    /// The number of degrees.
    side: usize,
    /// For each pair of degrees the cells of its products, made once they are asked for.
    pairs: Vec<OnceBox<Cells>>,
}

impl Model for Kept {
    ghost use Rattle.std.specs.Prelude.{◌≡◌, ◌*◌, ℕ};
    ghost use Rattle.std.specs.Vec.{vec_len};

    ghost Value = { ℕ };

    ghost view = { λ k. k.side };

    ghost invariant = { λ k. vec_len k.pairs ≡ k.side * k.side };
}

impl Kept {
    /// Nothing yet, for the degrees 0 to `max`.
    pub(crate) fn new(alloc: Global, max: u16) -> Result<Self, Memory>
        ensures { IfOk result (λ kept. kept ≡ max + 1) }
    {
        let side = usize::from(max) + 1;
        let mut pairs = Vec::new(alloc);
        for _ in 0..side * side {
            pairs.push(OnceBox::new(alloc))?;
        }
        Ok(Kept { side, pairs })
    }

    /// The cells of the products of the elements of degree `left` with the `count` elements of degree `right`.
    fn cells(&self, alloc: Global, left: u16, right: u16, count: usize) -> Result<&Cells, Memory>
        requires left { left < self.now }
        requires right { right < self.now }
    {
        let pair = &self.pairs[usize::from(left) * self.side + usize::from(right)];
        pair.get_or_try_init(|| -> Result<_, Memory> {
            Ok(Box::new(alloc, Cells::new(alloc, count)?)?)
        })
    }
}

impl Basis {
    /// The products Sq(R) Sq(S) for each R of this degree. They are kept once they are made, and may be asked for from
    /// more than one thread at a time.
    ///
    /// # Errors
    /// `Memory` if allocation fails.
    pub fn multiples(&self, alloc: Global, degree: u16, s: &Exps) -> Result<&Multiples, Memory>
        requires { degree + degree_of s.now ≤ self.now }
        ensures { IfOk result (λ m. m.now ≡ record { degree = degree; right = s.now }) }
    {
        let Some((right, place)) = self.place(s) else {
            unreachable!()
        };
        let count = self.of_degree(right).len();
        let cells = self.kept().cells(alloc, degree, right, count)?;
        let cell = cells.cells.get(place).ok_or(Memory)?;
        let multiples = cell.get_or_try_init(|| -> Result<_, Memory> {
            Ok(Box::new(alloc, Multiples::make(alloc, self, degree, s)?)?)
        })?;
        // Each cell is for one pair of factors, so that no other is found there.
        if multiples.are_of(degree, s) {
            Ok(multiples)
        } else {
            Err(Memory)
        }
    }

    /// Makes the products Sq(R) Sq(S) for each R of degree `left` and each S of degree `right` that has a 1 in `coordinates`,
    /// where the coordinates of that degree begin at place `start`. It gives the place behind them.
    ///
    /// # Errors
    /// `Memory` if allocation fails.
    pub fn make_multiples(
        &self,
        alloc: Global,
        left: u16,
        right: u16,
        coordinates: &BitVec,
        start: usize,
    ) -> Result<usize, Memory>
        requires { left + right ≤ self.now }
    {
        let elements = self.of_degree(right);
        for (i, s) in elements.iter().enumerate() {
            let place = start.saturating_add(i);
            if place < coordinates.len() && coordinates.get(place) {
                self.multiples(alloc, left, s)?;
            }
        }
        Ok(start.saturating_add(elements.len()))
    }

    /// The coefficients mod 2 of the product of Sq(R) and Sq(S): for each element of the basis of the product's degree,
    /// in basis order, whether its coefficient in Milnor's formula is odd. Where the product is of degree 32 at most,
    /// they come from the products that are kept. Above that degree the matrices of the one product are filled; `multiples`
    /// keeps products of every degree.
    ///
    /// # Errors
    /// `Memory` if allocation fails.
    pub fn coefficients(&self, alloc: Global, r: &Exps, s: &Exps) -> Result<BitVec, Memory>
        requires { degree_of r.now + degree_of s.now ≤ self.now }
        ensures { IfOk result (λ bits. bits ≡ product_bits r.now s.now) }
    {
        let degree = product_degree(self, r, s);
        if degree > MAX_KEPT {
            return coefficients(alloc, self, r, s);
        }
        let Some((left, place)) = self.place(r) else {
            unreachable!()
        };
        let multiples = self.multiples(alloc, left, s)?;
        let mut bits = BitVec::zero(alloc, self.of_degree(degree).len())?;
        turn_over(&mut bits, place, multiples.pairs());
        Ok(bits)
    }
}
