//! Products that the next squares of a row will ask for.
ghost use Rattle.std.specs.Prelude.{◌≤◌, ◌+◌};

use f2_vec::BitVec;
use memory::Memory;
use milnor_basis::Basis;
use square::{Inputs, Square};
use std::alloc::Global;
use std::sync::Arc;

/// Whether the square `a` degrees above the bottom is among those of the row, and has generators.
pub(crate) fn has_generators(inputs: &Inputs, a: u16) -> bool {
    match square_at(inputs, inputs.s(), a) {
        Some(square) => !square.gens().is_empty(),
        None => false,
    }
}

/// Makes the products that the square `above` degrees above the bottom will ask for, with the generators of the row that are
/// `a` degrees above it, if the bases reach so far.
///
/// # Errors
/// `Memory` if allocation fails.
pub(crate) fn make_products(
    alloc: Global,
    inputs: &Inputs,
    a: u16,
    above: u16,
) -> Result<(), Memory> {
    let basis = inputs.basis();
    if a > above || above > basis.max() {
        return Ok(());
    }
    if let Some(square) = square_at(inputs, inputs.s(), a) {
        for image in square.gens() {
            make_multiples(alloc, basis, above - a, a, image, inputs)?;
        }
    }
    Ok(())
}

/// The square in row `s` and `above` degrees above the bottom, if it is among those that a square is made from.
fn square_at(inputs: &Inputs, s: u16, above: u16) -> Option<&Arc<Square>> {
    let t = inputs.module().bottom().checked_add(i32::from(above))?;
    inputs.at(s, t)
}

/// Makes the products of the elements of degree `left` with the terms of `image`, whose degree is `a` above the bottom. It is a
/// vector of the free module on the generators of the row below.
///
/// # Errors
/// `Memory` if allocation fails.
fn make_multiples(
    alloc: Global,
    basis: &Basis,
    left: u16,
    a: u16,
    image: &BitVec,
    inputs: &Inputs,
) -> Result<(), Memory>
    requires { left + a ≤ basis.now }
{
    let Some(below) = inputs.s().checked_sub(1) else {
        return Ok(());
    };
    let mut start = 0;
    for b in 0..=a {
        if let Some(square) = square_at(inputs, below, b) {
            for _ in square.gens() {
                start = basis.make_multiples(alloc, left, a - b, image, start)?;
            }
        }
    }
    Ok(())
}
