//! The coefficients of Sq(n) in the images of generators.
ghost use Rattle.std.specs.Prelude.{◌≡◌, ℕ, ◌+◌, ◌<◌, ◌≤◌, pos, ◌+ℤ◌, ◌≤ℤ◌, length, map, take, IfOk};
ghost use Rattle.bidegree.specs.declared.range.TheConstants.{MAX_S, MAX_T};
ghost use Rattle.f2_vec.specs.Vectors.{bit};
ghost use Rattle.free_module.specs.FreeModule.{degree_at, free_width};
ghost use Rattle.resolution_laws.specs.Resolution.{degrees_from, row_of, square_in};
ghost use Rattle.square.specs.Squares.{bottom_of};
ghost use Rattle.resolution_images.specs.BareRows.{squares_of};
ghost use Rattle.h_products.specs.ReadOff.{resolution_in, squares_on};

use f2_vec::BitVec;
use free_module::{Gens, Target};
use memory::Memory;
use resolution_images::Images;
use std::alloc::Global;

/// The coefficients of Sq(n) on each generator of the square in row `s`, `above` degrees above the bottom, in the images of the
/// generators of the next row that are n degrees above it: a row for each generator, with a coordinate for each image.
///
/// Where n is 2^v, and the images are those of the canonical resolution, the rows are the products of h_v with the classes of the
/// square, by `h_laws::classes_with_h_are_read_off_images`. No lift is made for them.
///
/// # Errors
/// `Memory` if allocation fails.
pub fn products_with_h(
    alloc: Global,
    images: &Images,
    n: u16,
    s: u16,
    above: u16,
) -> Result<Vec<BitVec>, Memory>
    requires row { s < MAX_S }
    requires degree { n + above ≤ MAX_T }
    requires square { above < length (row_of (squares_of images.now.rows) s) }
    requires target { n + above < length (row_of (squares_of images.now.rows) (s + 1)) }
    ensures { IfOk result (λ rows. rows.items ≡ squares_on (resolution_in images.now) n s above) }
{
    let t = degree(images, above);
    let mut gens = gens_below(alloc, images, s, above)?;
    let mut rows = Vec::new(alloc);
    for _ in 0..images.square(s, above).len() {
        rows.push(behind(alloc, images, &gens, s + 1, n + above)?)?;
        gens.push(t)?;
    }
    Ok(rows)
}

/// The generators of row `s` that are less than `above` degrees above the bottom.
///
/// # Errors
/// `Memory` if allocation fails.
fn gens_below(alloc: Global, images: &Images, s: u16, above: u16) -> Result<Gens, Memory>
    requires { above ≤ length (row_of (squares_of images.now.rows) s) }
    ensures { IfOk result (λ gens. gens
        ≡ degrees_from (bottom_of images.now.resolved) (take above (row_of (squares_of images.now.rows) s))) }
{
    let mut gens = Gens::new(alloc);
    for k in 0..above {
        gens.push_many(images.square(s, k).len(), degree(images, k))?;
    }
    Ok(gens)
}

/// In the image of each generator of the square in row `s`, `above` degrees above the bottom, the coefficient of the first element of
/// the basis of its degree that is behind those on `gens`, the first generators of the row below.
///
/// # Errors
/// `Memory` if allocation fails.
fn behind(alloc: Global, images: &Images, gens: &Gens, s: u16, above: u16) -> Result<BitVec, Memory>
    requires square { above < length (row_of (squares_of images.now.rows) s) }
    requires not_below { (g : ℕ) → g < length gens.now → bottom_of images.now.resolved ≤ℤ degree_at gens.now g }
    ensures { IfOk result
        (λ v. v ≡ map (λ w. bit w (free_width gens.now (bottom_of images.now.resolved +ℤ pos above)))
        (square_in (row_of (squares_of images.now.rows) s) above).images) }
{
    let width = gens.dim(images.basis(), degree(images, above));
    let Ok(place) = usize::try_from(width) else {
        // No memory holds a vector of that length.
        return Err(Memory);
    };
    bits_at(alloc, images.square(s, above), place)
}

/// Of each of the vectors the coordinate at a place. Past its end it is 0.
///
/// # Errors
/// `Memory` if allocation fails.
fn bits_at(alloc: Global, vectors: &[BitVec], place: usize) -> Result<BitVec, Memory>
    ensures { IfOk result (λ v. v ≡ map (λ w. bit w place) vectors.now) }
{
    let mut bits = BitVec::zero(alloc, 0)?;
    for v in vectors {
        bits.push(place < v.len() && v.get(place))?;
    }
    Ok(bits)
}

/// The internal degree that is `k` above the bottom.
fn degree(images: &Images, k: u16) -> i32
    ensures { result ≡ bottom_of images.now.resolved +ℤ pos k }
{
    images.module().bottom() + i32::from(k)
}
