//! About how many products of the algebra a matrix of d_s is made of. They are kept, whatever becomes of the matrix.
ghost use Rattle.std.specs.Prelude.{◌≤◌};
ghost use Rattle.bidegree.specs.declared.range.TheConstants.{MAX_T};

use f2_vec::BitVec;
use memory::Memory;
use milnor_basis::Basis;
use square::Table;
use std::alloc::Global;

/// How many products may be made for each byte of the body that they are made for.
const PRODUCTS: u64 = 4;

/// How many products may be made besides.
const FEW_PRODUCTS: u64 = 256;

/// Whether the products are few, beside a body of `len` bytes, of which the matrix of d_s is made in row `s`, `above` degrees above
/// the bottom, with the generators of the squares that the row has there and new ones of these images.
///
/// # Errors
/// `Memory` if allocation fails.
pub(crate) fn are_few(
    alloc: Global,
    table: &Table,
    s: u16,
    above: u16,
    images: &[BitVec],
    len: u64,
) -> Result<bool, Memory>
    requires { above ≤ MAX_T }
{
    let basis = table.basis(alloc, above)?;
    let mut count = products_of(basis, 0, images);
    for k in 0..=above {
        count = count.saturating_add(products_of(basis, above - k, table.images_of(s, k)));
    }
    Ok(count <= len.saturating_mul(PRODUCTS).saturating_add(FEW_PRODUCTS))
}

/// About how many products the elements of this degree have with the terms of these images: one for each term and each element, and
/// one for each four places of an image, which stand for what is taken to find them.
fn products_of(basis: &Basis, degree: u16, images: &[BitVec]) -> u64
    requires { degree ≤ basis.now }
{
    let elements = basis.of_degree(degree).len() as u64;
    let mut count: u64 = 0;
    for image in images {
        let places = (image.len() as u64).div_ceil(4);
        let terms = terms_of(image).saturating_mul(elements);
        count = count.saturating_add(terms).saturating_add(places);
    }
    count
}

/// How many terms the vector has.
fn terms_of(image: &BitVec) -> u64 {
    let mut count: u64 = 0;
    for i in 0..image.len().div_ceil(64) {
        count = count.saturating_add(u64::from(image.word(i).count_ones()));
    }
    count
}
