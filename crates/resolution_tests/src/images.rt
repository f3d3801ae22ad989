//! Images in stems are those of the rectangle around them, but for coordinates that are 0.
ghost use Rattle.std.specs.Prelude.{◌+◌, ◌≤◌};
ghost use Rattle.bidegree.specs.declared.range.TheConstants.{MAX_S, MAX_T};

use bidegree::Range;
use f2_vec::BitVec;
use finite_module::Module;
use memory::Memory;
use resolution_images::{Images, images_alone, images_in_stems};
use std::alloc::Global;
use std::test::Fail;

// Whether the vector is the first coordinates of the other, which has no 1 behind them.
fn is_cut_of(cut: &BitVec, whole: &BitVec) -> bool {
    for p in 0..whole.len() {
        let bit = p < cut.len() && cut.get(p);
        if whole.get(p) != bit {
            return false;
        }
    }
    true
}

// Whether the square has these images, but for zeros behind them.
fn is_square_of(cut: &[BitVec], whole: &[BitVec]) -> bool {
    if cut.len() != whole.len() {
        return false;
    }
    for i in 0..cut.len() {
        if !is_cut_of(&cut[i], &whole[i]) {
            return false;
        }
    }
    true
}

// Whether row `s` in stems 0 to `n` is that of the rectangle.
fn is_row_of(stems: &Images, rectangle: &Images, s: u16, n: u16) -> bool {
    let front = stems.front(s);
    if front != usize::from(n) + usize::from(s) + 1 || rectangle.front(s) < front {
        return false;
    }
    for k in 0..n + s + 1 {
        if !is_square_of(stems.square(s, k), rectangle.square(s, k)) {
            return false;
        }
    }
    true
}

// Whether the sphere's rows 0 to `s` in stems 0 to `n` are those of the rectangle, and no row follows.
fn are_rows_of(alloc: Global, s: u16, n: u16) -> Result<bool, Memory>
    requires rows { s ≤ MAX_S }
    requires degrees { n + s ≤ MAX_T }
{
    let stems = images_in_stems(alloc, Module::sphere(alloc)?, s, n)?;
    let rectangle = images_alone(alloc, Module::sphere(alloc)?, Range { s, t: n + s })?;
    for i in 0..s + 1 {
        if !is_row_of(&stems, &rectangle, i, n) {
            return Ok(false);
        }
    }
    Ok(stems.front(s + 1) == 0)
}

#[test]
fn the_sphere_in_stems(rt: HostRuntime) -> Result<(), Fail> {
    let alloc = rt.alloc();
    assert!(rt; are_rows_of(alloc, 0, 4)?);
    assert!(rt; are_rows_of(alloc, 1, 0)?);
    assert!(rt; are_rows_of(alloc, 3, 0)?);
    assert!(rt; are_rows_of(alloc, 2, 1)?);
    assert!(rt; are_rows_of(alloc, 8, 8)?);
    assert!(rt; are_rows_of(alloc, 18, 30)?);
    Ok(())
}
