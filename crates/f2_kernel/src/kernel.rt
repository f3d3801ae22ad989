//! Kernels, of which each vector is made when it is asked for.
ghost use Rattle.std.specs.Prelude.{◌≡◌, ℕ, ◌+◌, ◌-◌, ◌<◌, ◌≤◌, Bool, List, ◌++◌, reverse, length, map, IfOk};
ghost use Rattle.f2_vec.specs.Vectors.{zeros};
ghost use Rattle.f2_vec.specs.Spans.{row, HaveWidth, unit_vectors};
ghost use Rattle.f2_matrix.specs.Echelon.{IsReduced, HasNoZeroRow, IsKernelBasis};
ghost use Rattle.f2_matrix.specs.Preimages.{pivot_of};
ghost use Rattle.f2_kernel.specs.Coordinates.{AreColumnsOf};
ghost use Rattle.f2_kernel.specs.Inside.Upward.{AreCleared, vacant_elements, relations};

use crate::blocks::clear_upward;
use crate::echelon::marks_of;
use crate::form::solve;
use f2_vec::BitVec;
use memory::Memory;
use std::alloc::Global;
use std::marker::Model;

/// The kernel of a matrix: contracts see the number of the matrix's rows, which is the length of its vectors, and the reduced
/// basis. No vector of the basis is kept, but rows to which all are orthogonal, of which they are solved one by one. The matrix
/// has `n` rows that were reduced, and behind them `new` rows at which each vector of the kernel has a 0.
#[derive(Debug, Drop)]
pub struct Kernel {
    n: usize,
    new: usize,
    /// `n + new`
    width: usize,
    /// rows of length `n`, each with a 0 at the pivots of those behind it; a vector of the kernel, with its bit at row `n - 1`
    /// first, is orthogonal to them
    form: Vec<BitVec>,
    /// the pivots of the basis vectors
    vacant: Vec<usize>,
}

impl Model for Kernel {
    ghost use Rattle.std.specs.Prelude.{◌≡◌, ◌+◌};
    ghost use Rattle.f2_matrix.specs.Reduction.{Rows};
    ghost use Rattle.f2_kernel.specs.Inside.Upward.{AreCleared, vacant_elements, relations};

    ghost Value = { Rows };

    ghost view = { λ k. record { cols = k.n + k.new; rows = relations k.n k.new k.form.items } };

    ghost invariant = { λ k. AreCleared k.n k.form.items × (k.vacant.items ≡ vacant_elements k.n k.form.items)
        × (k.width ≡ k.n + k.new) };
}

impl Kernel {
    /// The kernel of `n` rows of no column: all vectors of length `n`.
    ///
    /// # Errors
    /// `Memory` if allocation fails.
    pub fn whole(alloc: Global, n: usize) -> Result<Kernel, Memory>
        ensures cols { IfOk result (λ k. k.cols ≡ n) }
        ensures rows { IfOk result (λ k. k.rows ≡ unit_vectors n) }
    {
        Kernel::of_form(alloc, n, 0, n, Vec::new(alloc))
    }

    /// The kernel of `n` rows of which all columns are given, each with the entry of the last row first.
    ///
    /// # Errors
    /// `Memory` if allocation fails.
    pub fn of_columns(alloc: Global, n: usize, mut columns: Vec<BitVec>) -> Result<Kernel, Memory>
        requires { HaveWidth n columns.items }
        ensures cols { IfOk result (λ k. k.cols ≡ n) }
        ensures kernel { IfOk result (λ k. (w : ℕ) (rows : List (List Bool)) →
            AreColumnsOf n w rows columns.items → IsKernelBasis w rows k.rows) }
    {
        clear_upward(alloc, n, columns.as_mut_slice())?;
        Kernel::of_form(alloc, n, 0, n, columns)
    }

    /// The kernel that is solved from these rows, of length `n`, each of which has a 0 at the pivots of those behind it. Each
    /// of its vectors ends in `new` zeros.
    ///
    /// # Errors
    /// `Memory` if allocation fails.
    pub(crate) fn of_form(
        alloc: Global,
        n: usize,
        new: usize,
        width: usize,
        form: Vec<BitVec>,
    ) -> Result<Kernel, Memory>
        requires cleared { AreCleared n form.items }
        requires width { width ≡ n + new }
        ensures cols { IfOk result (λ k. k.cols ≡ n + new) }
        ensures rows { IfOk result (λ k. k.rows ≡ relations n new form.items) }
    {
        let vacant = vacant_of(alloc, n, form.as_slice())?;
        Ok(Kernel {
            n,
            new,
            width,
            form,
            vacant,
        })
    }

    /// The length of the vectors: the number of the matrix's rows.
    pub fn cols(&self) -> usize
        ensures cols { result ≡ self.now.cols }
        ensures widths { HaveWidth self.now.cols self.now.rows }
        ensures reduced { IsReduced self.now.rows }
        ensures nonzero { HasNoZeroRow self.now.rows }
    {
        self.width
    }

    /// The pivot of each vector of the basis, in order. They are as many as the dimension.
    pub fn pivots(&self) -> &[usize]
        ensures { result.now ≡ map pivot_of self.now.rows }
    {
        self.vacant.as_slice()
    }

    /// Vector `i` of the basis, counted from 0, which is made at each call.
    ///
    /// # Errors
    /// `Memory` if allocation fails.
    pub fn row(&self, alloc: Global, i: usize) -> Result<BitVec, Memory>
        requires { i < length self.now.rows }
        ensures { IfOk result (λ v. v ≡ row self.now.rows i) }
    {
        let mut vector = BitVec::unit(alloc, self.n, self.n - 1 - self.vacant[i])?;
        solve(self.n, self.form.as_slice(), &mut vector);
        turned(alloc, &vector, self.width)
    }
}

/// The bits of the vector, the last one first, and zeros behind them up to a length of `width`.
///
/// # Errors
/// `Memory` if allocation fails.
fn turned(alloc: Global, vector: &BitVec, width: usize) -> Result<BitVec, Memory>
    requires { length vector.now ≤ width }
    ensures { IfOk result (λ v. v ≡ reverse vector.now ++ zeros (width - length vector.now)) }
{
    let mut turned = BitVec::zero(alloc, width)?;
    let last = vector.len();
    for i in 0..vector.len() {
        if vector.get(i) {
            turned.set(last - 1 - i, true);
        }
    }
    Ok(turned)
}

/// The elements at whose places no row has its pivot: of `n` elements the last one goes with place 0.
///
/// # Errors
/// `Memory` if allocation fails.
fn vacant_of(alloc: Global, n: usize, form: &[BitVec]) -> Result<Vec<usize>, Memory>
    requires { HaveWidth n form.now }
    ensures { IfOk result (λ vacant. vacant.items ≡ vacant_elements n form.now) }
{
    let taken = marks_of(alloc, n, form)?;
    let mut vacant = Vec::new(alloc);
    for e in 0..n {
        if !taken.get(n - 1 - e) {
            vacant.push(e)?;
        }
    }
    Ok(vacant)
}
