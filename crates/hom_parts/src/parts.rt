//! The test of the parts, by the values of the map at them.
ghost use Rattle.std.specs.Prelude.{◌≡◌, ◌↔◌, ℕ, ◌+◌, ◌<◌, Bool, false, length, IsTrue, IfOk};
ghost use Rattle.f2_vec.specs.Vectors.{bit, zeros, IsFirstOne};
ghost use Rattle.f2_vec.specs.Spans.{row, HaveWidth};
ghost use Rattle.f2_matrix.specs.Echelon.{IsReduced, HasNoZeroRow};
ghost use Rattle.f2_matrix.specs.Parts.{AreReductionParts};
ghost use Rattle.free_module.specs.FreeModule.{IsWithinReach, free_width};
ghost use Rattle.free_module.specs.LinearMap.{map_rows, mapped};

use f2_kernel::is_row_basis;
use f2_vec::BitVec;
use free_hom::Hom;
use free_module::Target;
use memory::Memory;
use std::alloc::Global;

/// Whether these are the image rows, the chosen preimages and the kernel rows of the reduction of the map's matrix in degree `t`,
/// which has `cols` columns, where the kernel rows are in reduced echelon form without a zero row. The matrix is not made: the map
/// is applied to each chosen row and each kernel row, and makes one row of it at a time.
///
/// # Errors
/// `Memory` if allocation fails.
pub fn are_parts_of<T: Target>(
    alloc: Global,
    map: &Hom<'_, T>,
    t: i32,
    cols: usize,
    image: &[BitVec],
    chosen: &[BitVec],
    kernel: &[BitVec],
) -> Result<bool, Memory>
    requires source { IsWithinReach map.now.basis.now map.now.source.now t }
    requires target { T.reaches map.now.target.now map.now.basis.now t }
    requires cols { cols ≡ (T.graded map.now.target.now).width t }
    requires image { HaveWidth cols image.now }
    requires chosen { HaveWidth (free_width map.now.source.now t) chosen.now }
    requires kernel { HaveWidth (free_width map.now.source.now t) kernel.now }
    requires reduced { IsReduced kernel.now }
    requires nonzero { HasNoZeroRow kernel.now }
    ensures { IfOk result (λ are. IsTrue are ↔ AreReductionParts cols
        (map_rows (T.graded map.now.target.now) map.now.source.now map.now.images.now t) image.now chosen.now kernel.now) }
{
    let height = map.height(t)?;
    let fit = add_up(image.len(), kernel.len(), height);
    if !fit || chosen.len() != image.len() {
        return Ok(false);
    }
    let is_basis = is_row_basis(alloc, cols, image)?;
    if !is_basis {
        return Ok(false);
    }
    if !are_clear(kernel, chosen) {
        return Ok(false);
    }
    let reach = go_to(alloc, map, t, chosen, image)?;
    if !reach {
        return Ok(false);
    }
    vanish(alloc, map, t, kernel)
}

/// Whether the two numbers are together the third.
fn add_up(rank: usize, nullity: usize, height: usize) -> bool
    ensures { IsTrue result ↔ rank + nullity ≡ height }
{
    rank <= height && nullity == height - rank
}

/// Whether each vector has a 0 at the pivot of each row.
fn are_clear(rows: &[BitVec], vectors: &[BitVec]) -> bool
    requires { (i j p : ℕ) → i < length vectors.now → IsFirstOne (row rows.now j) p → p < length (row vectors.now i) }
    ensures { IsTrue result ↔ ((i j p : ℕ) → i < length vectors.now → IsFirstOne (row rows.now j) p →
        bit (row vectors.now i) p ≡ false) }
{
    for line in rows {
        if let Some(pivot) = line.first_one() {
            if !are_zero_at(vectors, pivot) {
                return false;
            }
        }
    }
    true
}

/// Whether each vector has a 0 at this place.
fn are_zero_at(vectors: &[BitVec], place: usize) -> bool
    requires { (i : ℕ) → i < length vectors.now → place < length (row vectors.now i) }
    ensures { IsTrue result ↔ ((i : ℕ) → i < length vectors.now → bit (row vectors.now i) place ≡ false) }
{
    for vector in vectors {
        if vector.get(place) {
            return false;
        }
    }
    true
}

/// Whether the map takes each vector of degree `t` to the value of its number.
///
/// # Errors
/// `Memory` if allocation fails.
fn go_to<T: Target>(
    alloc: Global,
    map: &Hom<'_, T>,
    t: i32,
    vectors: &[BitVec],
    values: &[BitVec],
) -> Result<bool, Memory>
    requires source { IsWithinReach map.now.basis.now map.now.source.now t }
    requires target { T.reaches map.now.target.now map.now.basis.now t }
    requires vectors { HaveWidth (free_width map.now.source.now t) vectors.now }
    requires values { HaveWidth ((T.graded map.now.target.now).width t) values.now }
    requires as_many { length vectors.now ≡ length values.now }
    ensures { IfOk result (λ go. IsTrue go ↔ ((i : ℕ) → i < length vectors.now →
        mapped (T.graded map.now.target.now) map.now.source.now map.now.images.now t (row vectors.now i)
        ≡ row values.now i)) }
{
    for i in 0..vectors.len() {
        let mut rest = map.apply(alloc, t, &vectors[i])?;
        rest.xor_with(&values[i]);
        if !rest.is_zero() {
            return Ok(false);
        }
    }
    Ok(true)
}

/// Whether the map takes each vector of degree `t` to zero.
///
/// # Errors
/// `Memory` if allocation fails.
fn vanish<T: Target>(
    alloc: Global,
    map: &Hom<'_, T>,
    t: i32,
    vectors: &[BitVec],
) -> Result<bool, Memory>
    requires source { IsWithinReach map.now.basis.now map.now.source.now t }
    requires target { T.reaches map.now.target.now map.now.basis.now t }
    requires vectors { HaveWidth (free_width map.now.source.now t) vectors.now }
    ensures { IfOk result (λ vanish. IsTrue vanish ↔ ((i : ℕ) → i < length vectors.now →
        mapped (T.graded map.now.target.now) map.now.source.now map.now.images.now t (row vectors.now i)
        ≡ zeros ((T.graded map.now.target.now).width t))) }
{
    for vector in vectors {
        let value = map.apply(alloc, t, vector)?;
        if !value.is_zero() {
            return Ok(false);
        }
    }
    Ok(true)
}
