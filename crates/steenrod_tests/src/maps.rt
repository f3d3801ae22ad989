//! A map of free modules, computed by hand.
ghost use Rattle.std.specs.Prelude.{◌≡◌, pos, true, [], ◌∷◌, IfOk};

use crate::written::{is_written, vector};
use f2_matrix::Matrix;
use f2_vec::BitVec;
use free_hom::Hom;
use free_module::Gens;
use memory::Memory;
use milnor_basis::Basis;
use std::alloc::Global;
use std::test::Fail;

// Generators of degrees 1 and 2, and one of degree 0.
fn source(alloc: Global) -> Result<Gens, Memory>
    ensures { IfOk result (λ gens. gens ≡ pos 1 ∷ pos 2 ∷ []) }
{
    let mut gens = Gens::new(alloc);
    gens.push(1)?;
    gens.push(2)?;
    Ok(gens)
}

fn target(alloc: Global) -> Result<Gens, Memory>
    ensures { IfOk result (λ gens. gens ≡ pos 0 ∷ []) }
{
    let mut gens = Gens::new(alloc);
    gens.push(0)?;
    Ok(gens)
}

// The vector 1.
fn one(alloc: Global) -> Result<BitVec, Memory>
    ensures { IfOk result (λ v. v ≡ true ∷ []) }
{
    let mut one = BitVec::zero(alloc, 0)?;
    one.push(true)?;
    Ok(one)
}

// Sq(1) and Sq(2) on the generator of degree 0, each the only element of its degree.
fn images(alloc: Global) -> Result<Vec<BitVec>, Memory>
    ensures { IfOk result (λ v. v.items ≡ (true ∷ []) ∷ (true ∷ []) ∷ []) }
{
    let mut images = Vec::new(alloc);
    images.push(one(alloc)?)?;
    images.push(one(alloc)?)?;
    Ok(images)
}

// The matrix of the map in degree 4. The source's basis is Sq(3) and Sq(0,1) on the first generator, and Sq(2) on the second. Each is taken
// to Sq(1,1), the second of Sq(4) and Sq(1,1): Sq(3) Sq(1), Sq(0,1) Sq(1) and Sq(2) Sq(2) all are that.
fn matrix(alloc: Global) -> Result<Matrix, Memory> {
    let basis = Basis::new(alloc, 4)?;
    let (source, target, images) = (source(alloc)?, target(alloc)?, images(alloc)?);
    Hom::new(&basis, &source, &target, images.as_slice()).matrix(alloc, 4)
}

/// The value on the vector of that degree with these coordinates.
fn value(alloc: Global, text: &str) -> Result<BitVec, Memory> {
    let v = vector(alloc, 3, text)?;
    let basis = Basis::new(alloc, 4)?;
    let (source, target, images) = (source(alloc)?, target(alloc)?, images(alloc)?);
    Hom::new(&basis, &source, &target, images.as_slice()).apply(alloc, 4, &v)
}

#[test]
fn maps(rt: HostRuntime) -> Result<(), Fail> {
    let matrix = matrix(rt.alloc())?;
    assert!(rt; matrix.cols() == 2 && matrix.rows().len() == 3);
    assert!(rt; matrix.rows().iter().all(|row| is_written(row, "01")));
    assert!(rt; is_written(&value(rt.alloc(), "001")?, "01"));
    assert!(rt; is_written(&value(rt.alloc(), "110")?, "00"));
    Ok(())
}
