//! What is kept of the reduction of a matrix, and the questions that it answers.
ghost use Rattle.std.specs.Prelude.{◌≡◌, ℕ, false, ◌↔◌, ◌+◌, ◌≤◌, Bool, List, [], ◌∷◌, ◌++◌, length, IsTrue, IsSome, IfSome, IfOk, OnOk};
ghost use Rattle.f2_vec.specs.Vectors.{sum_of, bit, IsZero, IsFirstOne};
ghost use Rattle.f2_vec.specs.Spans.{row, HaveWidth, combination, IsInSpan};
ghost use Rattle.f2_matrix.specs.Echelon.{IsReduced, HasNoZeroRow, IsEchelonForm, IsRowBasis, IsKernelBasis};
ghost use Rattle.f2_matrix.specs.Reduction.{augmented, image_part, chosen_part, kernel_part, IsReductionOf};
ghost use Rattle.f2_matrix.specs.Preimages.{IsPreimageUnder, ArePreimages, at_pivots, quasi_of, rest_of};
ghost use Rattle.f2_matrix.specs.Inside.Held.{rows_of};

use crate::held::Held;
use crate::matrix::Matrix;
use crate::rows::Rows;
use f2_vec::BitVec;
use memory::Memory;
use std::alloc::Global;
use std::marker::Model;

/// What the echelon form of `[D | I]` says of a matrix D: the reduced basis of the span of its rows, a preimage
/// of each vector of that basis, and the reduced basis of its kernel.
#[derive(Debug, Drop)]
pub struct Reduced {
    pub(crate) cols: usize,
    pub(crate) height: usize,
    pub(crate) image: Held,
    pub(crate) chosen: Vec<BitVec>,
    pub(crate) kernel: Held,
}

impl Model for Reduced {
    ghost use Rattle.f2_matrix.specs.Reduction.{Reduction};
    ghost use Rattle.f2_matrix.specs.Inside.Held.{rows_of};
    ghost use Rattle.f2_matrix.specs.Inside.Parts.{AreParts};

    ghost Value = { Reduction };

    ghost view = { λ r. record {
      cols = r.cols;
      height = r.height;
      image = rows_of r.image;
      chosen = r.chosen.items;
      kernel = rows_of r.kernel;
    } };

    ghost invariant = { λ r. AreParts r.cols r.height (rows_of r.image) r.chosen.items (rows_of r.kernel) };
}

impl Reduced {
    /// Reduces `[D | I]` once, for the matrix D.
    ///
    /// # Errors
    /// `Memory` if allocation fails.
    pub fn of(alloc: Global, matrix: &Matrix) -> Result<Self, Memory>
        ensures parts { IfOk result (λ r. IsReductionOf matrix.now.cols matrix.now.rows r) }
        ensures cols { IfOk result (λ r. r.cols ≡ matrix.now.cols) }
        ensures height { IfOk result (λ r. r.height ≡ length matrix.now.rows) }
        ensures image { IfOk result (λ r. IsRowBasis matrix.now.cols matrix.now.rows r.image) }
        ensures kernel { IfOk result (λ r. IsKernelBasis matrix.now.cols matrix.now.rows r.kernel) }
        ensures chosen { IfOk result (λ r. ArePreimages matrix.now.cols matrix.now.rows r.kernel r.image r.chosen) }
    {
        let mut form = matrix.augment(alloc)?;
        form.reduce_rowwise(alloc)?;
        parts_of(alloc, matrix, &form)
    }

    /// The parts of a matrix with `height` rows of length `cols`, of which the image rows and the kernel rows are shared
    /// already: the echelon rows of a span, a chosen preimage for each, and the echelon rows of a kernel. Nothing is reduced.
    pub fn from_shared_rows(
        cols: usize,
        height: usize,
        image: Rows,
        chosen: Vec<BitVec>,
        kernel: Rows,
    ) -> Reduced
        requires image { HaveWidth cols image }
        requires reduced { IsReduced image }
        requires nonzero { HasNoZeroRow image }
        requires chosen { HaveWidth height chosen.items }
        requires as_many { length chosen.items ≡ length image }
        requires kernel { HaveWidth height kernel }
        ensures { result ≡ record {
          cols = cols;
          height = height;
          image = image;
          chosen = chosen.items;
          kernel = kernel;
        } }
    {
        Reduced {
            cols,
            height,
            image: Held::Shared(image),
            chosen,
            kernel: Held::Shared(kernel),
        }
    }

    /// The length of the matrix's rows.
    pub fn cols(&self) -> usize
        ensures { result ≡ self.now.cols }
    {
        self.cols
    }

    /// How many rows the matrix has.
    pub fn height(&self) -> usize
        ensures { result ≡ self.now.height }
    {
        self.height
    }

    /// The echelon rows of the span of the matrix's rows, without zero rows.
    pub fn image(&self) -> &[BitVec]
        ensures rows { result.now ≡ self.now.image }
        ensures widths { HaveWidth self.now.cols self.now.image }
        ensures reduced { IsReduced self.now.image }
        ensures nonzero { HasNoZeroRow self.now.image }
    {
        self.image.as_slice()
    }

    /// The chosen preimages of the image rows, in order: for each image row the coefficients, one for each row of
    /// the matrix, that give it and are zero at the pivots of the kernel rows.
    pub fn chosen(&self) -> &[BitVec]
        ensures rows { result.now ≡ self.now.chosen }
        ensures widths { HaveWidth self.now.height self.now.chosen }
        ensures as_many { length self.now.chosen ≡ length self.now.image }
    {
        self.chosen.as_slice()
    }

    /// The echelon rows of the matrix's kernel, without zero rows.
    pub fn kernel(&self) -> &[BitVec]
        ensures rows { result.now ≡ self.now.kernel }
        ensures widths { HaveWidth self.now.height self.now.kernel }
    {
        self.kernel.as_slice()
    }

    /// The image rows for one more owner. They are copied only where the reduction was made from parts.
    ///
    /// # Errors
    /// `Memory` if allocation fails, or if there are too many owners to count.
    pub fn image_rows(&self, alloc: Global) -> Result<Rows, Memory>
        ensures rows { IfOk result (λ rows. rows ≡ self.now.image) }
        ensures widths { HaveWidth self.now.cols self.now.image }
        ensures reduced { IsReduced self.now.image }
        ensures nonzero { HasNoZeroRow self.now.image }
    {
        self.image.share(alloc)
    }

    /// The kernel rows for one more owner. They are copied only where the reduction was made from parts.
    ///
    /// # Errors
    /// `Memory` if allocation fails, or if there are too many owners to count.
    pub fn kernel_rows(&self, alloc: Global) -> Result<Rows, Memory>
        ensures rows { IfOk result (λ rows. rows ≡ self.now.kernel) }
        ensures widths { HaveWidth self.now.height self.now.kernel }
    {
        self.kernel.share(alloc)
    }

    /// Whether `v` is a sum of rows of the matrix.
    ///
    /// # Errors
    /// `Memory` if allocation fails.
    pub fn contains(&self, alloc: Global, v: &BitVec) -> Result<bool, Memory>
        requires { length v.now ≡ self.now.cols }
        ensures { IfOk result (λ inside. IsTrue inside ↔ IsInSpan self.now.cols self.now.image v.now) }
    {
        Ok(self.rest(alloc, v)?.is_zero())
    }

    /// The preimage of `v`: the coefficients, one for each row of the matrix, that give `v` and are zero at the
    /// pivots of the kernel rows. There is one just where `v` is a sum of rows of the matrix.
    ///
    /// # Errors
    /// `Memory` if allocation fails.
    pub fn preimage(&self, alloc: Global, v: &BitVec) -> Result<Option<BitVec>, Memory>
        requires { length v.now ≡ self.now.cols }
        ensures inside { IfOk result (λ found. IsSome found ↔ IsInSpan self.now.cols self.now.image v.now) }
        ensures preimage { IfOk result (λ found. IfSome found (IsPreimageUnder self.now v.now)) }
        ensures quasi { IfOk result
            (λ found. IfSome found (λ c. c ≡ quasi_of self.now.height self.now.image self.now.chosen v.now)) }
    {
        if !self.contains(alloc, v)? {
            return Ok(None);
        }
        Ok(Some(self.quasi(alloc, v)?))
    }

    /// Applies the quasi-inverse to `v`, which need not be in the image: each image row whose pivot column has a 1 in `v`
    /// gives its chosen preimage, and these are added. There is one coefficient for each row of the matrix; where `v` is in
    /// the image, this is its preimage.
    ///
    /// # Errors
    /// `Memory` if allocation fails.
    pub fn quasi(&self, alloc: Global, v: &BitVec) -> Result<BitVec, Memory>
        requires { length v.now ≡ self.now.cols }
        ensures sum { IfOk result (λ c. c ≡ quasi_of self.now.height self.now.image self.now.chosen v.now) }
        ensures length { IfOk result (λ c. length c ≡ self.now.height) }
        ensures preimage { IfOk result (λ c. IsInSpan self.now.cols self.now.image v.now →
            IsPreimageUnder self.now v.now c) }
    {
        let mut quasi = BitVec::zero(alloc, self.height)?;
        add_at_pivots(&mut quasi, v, &self.image, self.chosen.as_slice());
        Ok(quasi)
    }

    /// A copy of this reduction. Its image and kernel rows are shared, and copied only where this one was made from parts.
    ///
    /// # Errors
    /// `Memory` if allocation fails, or if there are too many owners to count.
    pub fn try_copy(&self, alloc: Global) -> Result<Reduced, Memory>
        ensures { IfOk result (λ copy. copy ≡ self.now) }
    {
        let chosen = Vec::from_clones(alloc, self.chosen.as_slice())?;
        let image = self.image.share(alloc)?;
        let kernel = self.kernel.share(alloc)?;
        Ok(Reduced {
            cols: self.cols,
            height: self.height,
            image: Held::Shared(image),
            chosen,
            kernel: Held::Shared(kernel),
        })
    }

    /// The image rows as a matrix: the reduced basis of the span of the matrix's rows.
    ///
    /// # Errors
    /// `Memory` if allocation fails.
    pub fn row_basis(&self, alloc: Global) -> Result<Matrix, Memory>
        ensures cols { IfOk result (λ basis. basis.cols ≡ self.now.cols) }
        ensures rows { IfOk result (λ basis. basis.rows ≡ self.now.image) }
        ensures basis { IfOk result (λ basis. (rows : List (List Bool)) → IsReductionOf self.now.cols rows self.now →
            IsRowBasis self.now.cols rows basis.rows) }
    {
        let rows = Vec::from_clones(alloc, self.image())?;
        Ok(Matrix::from_rows(self.cols, rows))
    }

    /// The representative of `v` modulo the span of the matrix's rows: the one vector of `v`'s coset that is zero at the
    /// pivots of the image rows. It is zero exactly where `v` is in the span.
    ///
    /// # Errors
    /// `Memory` if allocation fails.
    pub fn rest(&self, alloc: Global, v: &BitVec) -> Result<BitVec, Memory>
        requires { length v.now ≡ self.now.cols }
        ensures rest { IfOk result (λ rest. rest ≡ rest_of self.now.cols self.now.image v.now) }
        ensures length { IfOk result (λ rest. length rest ≡ self.now.cols) }
        ensures coset { IfOk result (λ rest. IsInSpan self.now.cols self.now.image (sum_of v.now rest)) }
        ensures apart { IfOk result (λ rest. (i p : ℕ) → IsFirstOne (row self.now.image i) p → bit rest p ≡ false) }
        ensures zero { IfOk result (λ rest. IsZero rest ↔ IsInSpan self.now.cols self.now.image v.now) }
    {
        let mut rest = v.try_copy(alloc)?;
        add_at_pivots(&mut rest, v, &self.image, self.image.as_slice());
        Ok(rest)
    }
}

/// Adds to `sum` each row beside which there is an image row at whose pivot `v` has a 1.
fn add_at_pivots(sum: &mut BitVec, v: &BitVec, image: &Held, rows: &[BitVec])
    requires as_many { length rows.now ≡ length (rows_of image.now) }
    requires image { HaveWidth (length v.now) (rows_of image.now) }
    requires nonzero { HasNoZeroRow (rows_of image.now) }
    requires widths { HaveWidth (length sum.old) rows.now }
    ensures { sum.new ≡ sum_of sum.old (combination (length sum.old) (at_pivots (rows_of image.now) v.now) rows.now) }
{
    for i in 0..rows.len() {
        if v.get(image.pivot(i)) {
            sum.xor_with(&rows[i]);
        }
    }
}

/// Keeps of the echelon form of [D | I], D the matrix, both parts where there is a 1 left of the bar, and else
/// what is right of it.
fn parts_of(alloc: Global, matrix: &Matrix, form: &Matrix) -> Result<Reduced, Memory>
    requires cols { form.now.cols ≡ matrix.now.cols + length matrix.now.rows }
    requires form { IsEchelonForm (matrix.now.cols + length matrix.now.rows) (augmented matrix.now.rows) form.now.rows }
    ensures parts { IfOk result (λ r. IsReductionOf matrix.now.cols matrix.now.rows r) }
    ensures image { IfOk result (λ r. IsRowBasis matrix.now.cols matrix.now.rows r.image) }
    ensures kernel { IfOk result (λ r. IsKernelBasis matrix.now.cols matrix.now.rows r.kernel) }
    ensures chosen { IfOk result (λ r. ArePreimages matrix.now.cols matrix.now.rows r.kernel r.image r.chosen) }
{
    let cols = matrix.cols();
    let height = matrix.rows().len();
    let mut image = Vec::new(alloc);
    let mut chosen = Vec::new(alloc);
    let mut kernel = Vec::new(alloc);
    for row in form.rows() {
        keep_part(alloc, cols, row, &mut image, &mut chosen, &mut kernel)?;
    }
    let image = Rows::of(alloc, image)?;
    let kernel = Rows::of(alloc, kernel)?;
    Ok(Reduced {
        cols,
        height,
        image: Held::Shared(image),
        chosen,
        kernel: Held::Shared(kernel),
    })
}

/// Puts what is kept of one row of the form behind what is kept of those before it.
fn keep_part(
    alloc: Global,
    cols: usize,
    row: &BitVec,
    image: &mut Vec<BitVec>,
    chosen: &mut Vec<BitVec>,
    kernel: &mut Vec<BitVec>,
) -> Result<(), Memory>
    requires { cols ≤ length row.now }
    ensures image { OnOk result (image.new.items ≡ image.old.items ++ image_part cols (row.now ∷ [])) }
    ensures chosen { OnOk result (chosen.new.items ≡ chosen.old.items ++ chosen_part cols (row.now ∷ [])) }
    ensures kernel { OnOk result (kernel.new.items ≡ kernel.old.items ++ kernel_part cols (row.now ∷ [])) }
{
    let right = row.len() - cols;
    match row.first_one() {
        Some(pivot) if pivot < cols => {
            image.push(row.part(alloc, 0, cols)?)?;
            chosen.push(row.part(alloc, cols, right)?)?;
        }
        Some(_) => kernel.push(row.part(alloc, cols, right)?)?,
        None => {}
    }
    Ok(())
}
