//! A reduction that is kept up as rows are added to its matrix.
ghost use Rattle.std.specs.Prelude.{◌≡◌, ℕ, ◌+◌, ◌<◌, ◌≤◌, Bool, false, if◌then◌else◌, List, [], ◌∷◌, ◌++◌, length, map, IfOk, OnOk, OnErr};
ghost use Rattle.f2_vec.specs.Vectors.{sum_of, bit, IsFirstOne};
ghost use Rattle.f2_vec.specs.Spans.{row, HaveWidth};
ghost use Rattle.f2_matrix.specs.Reduction.{IsReductionOf};
ghost use Rattle.f2_matrix.specs.Preimages.{pivot_of};
ghost use Rattle.f2_matrix.specs.Inside.Extend.{longer, with_pivot, IsWithRelation, IsWithPivot, IsAddedBeside};

use crate::matrix::clear_by;
use crate::reduced::Reduced;
use crate::rows::{Rows, pivot, place_for};
use f2_vec::BitVec;
use memory::Memory;
use std::alloc::Global;

impl Reduced {
    /// Adds these rows, each of the matrix's width, at the end of the matrix. The reduction is then the one that `of` gives
    /// for the longer matrix.
    ///
    /// # Errors
    /// `Memory` if allocation fails; the reduction is then as before.
    pub fn extend(&mut self, alloc: Global, rows: &[BitVec]) -> Result<(), Memory>
        requires { HaveWidth self.old.cols rows.now }
        ensures cols { self.new.cols ≡ self.old.cols }
        ensures height { OnOk result (self.new.height ≡ self.old.height + length rows.now) }
        ensures ok { OnOk result ((old : List (List Bool)) → IsReductionOf self.old.cols old self.old →
            IsReductionOf self.old.cols (old ++ rows.now) self.new) }
        ensures err { OnErr result (self.new ≡ self.old) }
    {
        let mut next = self.try_copy(alloc)?;
        for row in rows {
            next = next.with_row(alloc, row)?;
        }
        *self = next;
        Ok(())
    }

    /// The reduction of the matrix with the row `v` at its end.
    fn with_row(&self, alloc: Global, v: &BitVec) -> Result<Reduced, Memory>
        requires { length v.now ≡ self.now.cols }
        ensures cols { IfOk result (λ r. r.cols ≡ self.now.cols) }
        ensures height { IfOk result (λ r. r.height ≡ self.now.height + 1) }
        ensures reduction { IfOk result (λ r. (rows : List (List Bool)) → IsReductionOf self.now.cols rows self.now →
            IsReductionOf self.now.cols (rows ++ v.now ∷ []) r) }
    {
        let rest = self.rest(alloc, v)?;
        let mut coefficients = self.quasi(alloc, v)?;
        coefficients.push(true)?;
        match rest.first_one() {
            Some(pivot) => self.with_image_row(alloc, rest, pivot, coefficients),
            None => self.with_kernel_row(alloc, coefficients),
        }
    }

    /// With one row more at the end of the matrix, `relation` put among the kernel rows: the preimages and the other
    /// kernel rows are cleared at its pivot.
    fn with_kernel_row(&self, alloc: Global, relation: BitVec) -> Result<Reduced, Memory>
        requires length { length relation ≡ self.now.height + 1 }
        requires pivot { IsFirstOne relation (pivot_of relation) }
        ensures { IfOk result (λ r. IsWithRelation relation self.now r) }
    {
        let height = relation.len();
        let pivot = pivot(&relation);
        let mut chosen = longer_rows(alloc, self.chosen())?;
        clear_by(chosen.as_mut_slice(), &relation, pivot);
        let mut relations = longer_rows(alloc, self.kernel())?;
        let place = place_for(self.kernel(), pivot);
        put_pivot(&mut relations, relation, pivot, place)?;
        let kernel = Rows::of(alloc, relations)?;
        let image = self.image_rows(alloc)?;
        Ok(Reduced::from_shared_rows(self.cols(), height, image, chosen, kernel))
    }

    /// With one row more at the end of the matrix, `rest` put among the image rows by its pivot, with `preimage` as its
    /// preimage: the other image rows are cleared at the pivot, and their preimages follow.
    fn with_image_row(
        &self,
        alloc: Global,
        rest: BitVec,
        pivot: usize,
        preimage: BitVec,
    ) -> Result<Reduced, Memory>
        requires width { length rest ≡ self.now.cols }
        requires pivot { IsFirstOne rest pivot }
        requires apart { (i p : ℕ) → IsFirstOne (row self.now.image i) p → bit rest p ≡ false }
        requires length { length preimage ≡ self.now.height + 1 }
        ensures { IfOk result (λ r. IsWithPivot rest pivot preimage self.now r) }
    {
        let height = preimage.len();
        let old = self.image();
        let place = place_for(old, pivot);
        let mut chosen = longer_rows(alloc, self.chosen())?;
        add_beside(chosen.as_mut_slice(), &preimage, old, pivot);
        chosen.insert(place, preimage)?;
        let mut rows = Vec::from_clones(alloc, old)?;
        put_pivot(&mut rows, rest, pivot, place)?;
        let image = Rows::of(alloc, rows)?;
        let relations = longer_rows(alloc, self.kernel())?;
        let kernel = Rows::of(alloc, relations)?;
        Ok(Reduced::from_shared_rows(self.cols(), height, image, chosen, kernel))
    }
}

/// The rows, each with a 0 behind it.
fn longer_rows(alloc: Global, rows: &[BitVec]) -> Result<Vec<BitVec>, Memory>
    ensures { IfOk result (λ all. all.items ≡ map longer rows.now) }
{
    let mut all = Vec::with_capacity(alloc, rows.len())?;
    for row in rows {
        let mut more = row.try_copy(alloc)?;
        more.push(false)?;
        all.push(more)?;
    }
    Ok(all)
}

/// Clears column `col` of the rows by the pivot row, and puts it at place `place` among them.
fn put_pivot(
    rows: &mut Vec<BitVec>,
    pivot_row: BitVec,
    col: usize,
    place: usize,
) -> Result<(), Memory>
    requires widths { HaveWidth (length pivot_row) rows.old.items }
    requires col { col < length pivot_row }
    requires place { place ≤ length rows.old.items }
    ensures { OnOk result (rows.new.items ≡ with_pivot pivot_row col place rows.old.items) }
{
    clear_by(rows.as_mut_slice(), &pivot_row, col);
    rows.insert(place, pivot_row)?;
    Ok(())
}

/// Adds the vector to each of the rows beside which there is a row with a 1 in column `col`.
fn add_beside(rows: &mut [BitVec], added: &BitVec, beside: &[BitVec], col: usize)
    requires widths { HaveWidth (length added.now) rows.old }
    requires as_many { length rows.old ≡ length beside.now }
    requires col { (i : ℕ) → i < length beside.now → col < length (row beside.now i) }
    ensures { IsAddedBeside added.now col beside.now rows.old rows.new }
{
    for i in 0..rows.len() {
        if beside[i].get(col) {
            rows[i].xor_with(added);
        }
    }
}
