//! Linear maps from a free module, and their matrices.
ghost use Rattle.std.specs.Prelude.{◌≡◌, ℕ, ◌-◌, ◌≤◌, ◌<◌, ◌++◌, ◌+ℤ◌, ◌≤ℤ◌, pos, length, map, reverse, slice_index_or, IfOk, OnOk};
ghost use Rattle.f2_vec.specs.Vectors.{bit};
ghost use Rattle.f2_vec.specs.Spans.{row};
ghost use Rattle.milnor_product.specs.Times.{basis_at};
ghost use Rattle.free_module.specs.FreeModule.{IsWithinReach, free_action, free_width};
ghost use Rattle.free_module.specs.Graded.{free_graded};
ghost use Rattle.free_module.specs.LinearMap.{AreImages, map_rows, mapped};
ghost use Rattle.free_module.specs.Columns.{IsTableOfColumns, AreAdded};
ghost use Rattle.free_hom.specs.Inside.Tables.{IsTableOf};

use f2_matrix::Matrix;
use f2_vec::BitVec;
use free_module::{Gens, Target};
use memory::Memory;
use milnor_basis::Basis;
use std::alloc::Global;

/// A linear map from a free module, given by the images of the generators.
#[derive(Drop)]
pub struct Hom<'a, T: Target> {
    basis: &'a Basis,
    source: &'a Gens,
    target: &'a T,
    images: &'a [BitVec],
    ghost are_images: { AreImages (T.graded target.now) source.now images.now },
}

impl<'a, T: Target> Hom<'a, T> {
    /// The map that takes the generators of `source` to `images`, vectors of their degrees in `target`.
    pub fn new(basis: &'a Basis, source: &'a Gens, target: &'a T, images: &'a [BitVec]) -> Self
        requires { AreImages (T.graded target.now) source.now images.now }
        ensures basis { result.basis.now ≡ basis.now }
        ensures source { result.source.now ≡ source.now }
        ensures target { result.target.now ≡ target.now }
        ensures images { result.images.now ≡ images.now }
    {
        Hom {
            basis,
            source,
            target,
            images,
        }
    }

    /// How many rows the matrix in degree `t` has, which is the dimension of the source there.
    ///
    /// # Errors
    /// `Memory` if that does not fit `usize`: no memory holds so many rows.
    pub fn height(&self, t: i32) -> Result<usize, Memory>
        requires { IsWithinReach self.now.basis.now self.now.source.now t }
        ensures { IfOk result (λ height. height ≡ free_width self.now.source.now t) }
    {
        dim_in(self.source, self.basis, t)
    }

    /// The matrix of the map in degree `t`: its row i is the image of basis element i.
    ///
    /// # Errors
    /// `Memory` if allocation fails.
    pub fn matrix(&self, alloc: Global, t: i32) -> Result<Matrix, Memory>
        requires source { IsWithinReach self.now.basis.now self.now.source.now t }
        requires target { T.reaches self.now.target.now self.now.basis.now t }
        ensures cols { IfOk result (λ m. m.cols ≡ (T.graded self.now.target.now).width t) }
        ensures rows { IfOk result
            (λ m. m.rows ≡ map_rows (T.graded self.now.target.now) self.now.source.now self.now.images.now t) }
    {
        let Ok(cols) = usize::try_from(self.target.dim(self.basis, t)) else {
            return Err(Memory);
        };
        let mut rows = Vec::new(alloc);
        for (g, degree) in self.source.degrees().iter().enumerate() {
            let above = i64::from(t) - i64::from(*degree);
            rows = self.with_block(alloc, rows, above, *degree, &self.images[g])?;
        }
        Ok(Matrix::from_rows(cols, rows))
    }

    /// The map on `v`, a vector of degree `t`.
    ///
    /// # Errors
    /// `Memory` if allocation fails.
    pub fn apply(&self, alloc: Global, t: i32, v: &BitVec) -> Result<BitVec, Memory>
        requires width { length v.now ≡ free_width self.now.source.now t }
        requires source { IsWithinReach self.now.basis.now self.now.source.now t }
        requires target { T.reaches self.now.target.now self.now.basis.now t }
        ensures { IfOk result
            (λ w. w ≡ mapped (T.graded self.now.target.now) self.now.source.now self.now.images.now t v.now) }
    {
        let Ok(width) = usize::try_from(self.target.dim(self.basis, t)) else {
            return Err(Memory);
        };
        let mut sum = BitVec::zero(alloc, width)?;
        let mut from = 0;
        while let Some(i) = v.next_one(from) {
            sum.xor_with(&self.image_of(alloc, t, i)?);
            // A length fits `usize`, so what follows a place of the vector does.
            prove!(i < v.len());
            from = i + 1;
        }
        Ok(sum)
    }

    /// The image of basis element `i` of degree `t`.
    fn image_of(&self, alloc: Global, t: i32, i: usize) -> Result<BitVec, Memory>
        requires within { i < free_width self.now.source.now t }
        requires source { IsWithinReach self.now.basis.now self.now.source.now t }
        requires target { T.reaches self.now.target.now self.now.basis.now t }
        ensures { IfOk result
            (λ w. w ≡ row (map_rows (T.graded self.now.target.now) self.now.source.now self.now.images.now t) i) }
    {
        let (generator, r) = self.source.at(self.basis, t, i);
        let degree = self.source.degrees()[generator];
        self.target
            .act(alloc, self.basis, &r, degree, &self.images[generator])
    }

    /// `rows`, and behind them Sq(R) on `image`, a vector of degree `degree`, for each R of degree `above`, of which there
    /// are none where that is negative.
    fn with_block(
        &self,
        alloc: Global,
        mut rows: Vec<BitVec>,
        above: i64,
        degree: i32,
        image: &BitVec,
    ) -> Result<Vec<BitVec>, Memory>
        requires within { above ≤ℤ pos self.now.basis.now }
        requires width { length image.now ≡ (T.graded self.now.target.now).width degree }
        requires reach { T.reaches self.now.target.now self.now.basis.now (degree +ℤ above) }
        ensures { IfOk result (λ v. v.items
            ≡ rows.items ++ map (λ r. (T.graded self.now.target.now).action r degree image.now) (basis_at above)) }
    {
        // A degree of the basis fits `u16`, so `above` does where it is not negative.
        prove!(above <= i64::from(self.basis.max()));
        let Ok(above) = u16::try_from(above) else {
            return Ok(rows);
        };
        let mut block = self
            .target
            .act_all(alloc, self.basis, above, degree, image)?;
        rows.append(&mut block)?;
        Ok(rows)
    }
}

impl<'a> Hom<'a, Gens> {
    /// The columns of the matrix of the map in degree `t` at these places, each with its last entry first. They are
    /// filled from the products that the basis keeps, and the matrix is not made.
    ///
    /// # Errors
    /// `Memory` if allocation fails.
    pub fn columns_at(&self, alloc: Global, t: i32, places: &[usize]) -> Result<Vec<BitVec>, Memory>
        requires source { IsWithinReach self.now.basis.now self.now.source.now t }
        requires target { IsWithinReach self.now.basis.now self.now.target.now t }
        requires within { (i : ℕ) → i < length places.now →
            slice_index_or places.now i 0 < free_width self.now.target.now t }
        requires apart { (i j : ℕ) → i < length places.now → j < length places.now →
            slice_index_or places.now i 0 ≡ slice_index_or places.now j 0 → i ≡ j }
        ensures { IfOk result (λ columns. columns.items ≡ map (λ p. map (λ v. bit v p)
            (reverse (map_rows (free_graded self.now.target.now) self.now.source.now self.now.images.now t)))
            places.now) }
    {
        if places.is_empty() {
            return Ok(Vec::new(alloc));
        }
        let width = dim_in(self.target, self.basis, t)?;
        let height = self.height(t)?;
        let table = table_of(alloc, width, places)?;
        let mut columns = BitVec::zero_rows(alloc, places.len(), height)?;
        let mut end = height;
        for (g, degree) in self.source.degrees().iter().enumerate() {
            end = self.add_block(
                alloc,
                i64::from(t) - i64::from(*degree),
                *degree,
                &self.images[g],
                table.as_slice(),
                end,
                columns.as_mut_slice(),
            )?;
        }
        Ok(columns)
    }

    /// Adds Sq(R) on `image`, a vector of degree `degree`, for each R of degree `above`, to the columns, from place
    /// `end` - 1 down, and gives the place up to which the columns are left.
    ///
    /// # Errors
    /// `Memory` if allocation fails; the columns are then of no use.
    fn add_block(
        &self,
        alloc: Global,
        above: i64,
        degree: i32,
        image: &BitVec,
        table: &[Option<usize>],
        end: usize,
        columns: &mut [BitVec],
    ) -> Result<usize, Memory>
        requires within { above ≤ℤ pos self.now.basis.now }
        requires width { length image.now ≡ free_width self.now.target.now degree }
        requires reach { IsWithinReach self.now.basis.now self.now.target.now (degree +ℤ above) }
        requires places { length table.now ≡ free_width self.now.target.now (degree +ℤ above) }
        requires table { IsTableOfColumns (length columns.old) table.now }
        requires lengths { (j : ℕ) → j < length columns.old → end ≤ length (row columns.old j) }
        requires few { length (basis_at above) ≤ end }
        ensures left { IfOk result (λ left. left ≡ end - length (basis_at above)) }
        ensures added { OnOk result (AreAdded table.now end
            (map (λ r. free_action self.now.target.now r degree image.now) (basis_at above)) columns.old columns.new) }
    {
        // A degree of the basis fits `u16`, so `above` does where it is not negative.
        prove!(above <= i64::from(self.basis.max()));
        let Ok(above) = u16::try_from(above) else {
            return Ok(end);
        };
        self.target.add_to_columns(alloc, self.basis, above, degree, image, table, end, columns)?;
        Ok(end - self.basis.of_degree(above).len())
    }
}

/// The dimension of the free module in degree `t`, where it fits `usize`.
fn dim_in(gens: &Gens, basis: &Basis, t: i32) -> Result<usize, Memory>
    requires { IsWithinReach basis.now gens.now t }
    ensures { IfOk result (λ dim. dim ≡ free_width gens.now t) }
{
    match usize::try_from(gens.dim(basis, t)) {
        Ok(dim) => Ok(dim),
        // No memory holds a vector of that length.
        Err(_) => Err(Memory),
    }
}

/// For each of `n` places its number among these, nothing where it is none of them.
///
/// # Errors
/// `Memory` if allocation fails.
fn table_of(alloc: Global, n: usize, places: &[usize]) -> Result<Vec<Option<usize>>, Memory>
    requires within { (i : ℕ) → i < length places.now → slice_index_or places.now i 0 < n }
    requires apart { (i j : ℕ) → i < length places.now → j < length places.now →
        slice_index_or places.now i 0 ≡ slice_index_or places.now j 0 → i ≡ j }
    ensures { IfOk result (λ table. IsTableOf (length places.now) n places.now table.items) }
{
    let mut table = vec![in alloc; None; n]?;
    for i in 0..places.len() {
        table[places[i]] = Some(i);
    }
    Ok(table)
}
