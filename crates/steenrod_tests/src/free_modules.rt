//! Bases, places and actions of a small free module, computed by hand.
ghost use Rattle.std.specs.Prelude.{◌≡◌, pos, [], ◌∷◌, IfOk};
ghost use Rattle.milnor_basis.specs.Exponents.{degree_of};

use crate::written::{is_written, sq, vector};
use f2_vec::BitVec;
use free_module::{Gens, Target, free_basis_is_pairs};
use memory::Memory;
use milnor_basis::{Basis, Exps};
use std::alloc::Global;
use std::test::Fail;

// Generators of degrees 0 and 2.
fn two_gens(alloc: Global) -> Result<Gens, Memory>
    ensures { IfOk result (λ gens. gens ≡ pos 0 ∷ pos 2 ∷ []) }
{
    let mut gens = Gens::new(alloc);
    gens.push(0)?;
    gens.push(2)?;
    Ok(gens)
}

#[test]
fn pushes_many(rt: HostRuntime) -> Result<(), Fail> {
    let mut gens = Gens::new(rt.alloc());
    gens.push(-1)?;
    gens.push_many(3, 2)?;
    gens.push_many(0, 2)?;
    gens.push_many(1, 5)?;
    assert!(rt; gens.degrees() == [-1, 2, 2, 2, 5].as_slice());
    Ok(())
}

// The basis of degree 3 is Sq(3) and Sq(0,1) on the first generator, and Sq(1) on the second.
#[test]
fn places_and_elements(rt: HostRuntime) -> Result<(), Fail> {
    let alloc = rt.alloc();
    let basis = Basis::new(alloc, 4)?;
    let gens = two_gens(alloc)?;
    assert!(rt; gens.degrees() == [0, 2].as_slice() && gens.dim(&basis, 3) == 3);
    assert!(rt; gens.at(&basis, 3, 1) == (0, sq(0, 1)) && gens.at(&basis, 3, 2) == (1, sq(1, 0)));
    let one = sq(1, 0);
    assert!(rt; one.degree() == 1);
    assert!(rt; gens.place(&basis, 3, 1, &one) == 2);
    Ok(())
}

/// Sq(R), of degree 2, on Sq(2) of the first generator and the second.
fn on_all(alloc: Global, r: &Exps) -> Result<BitVec, Memory>
    requires { degree_of r.now ≡ 2 }
{
    let all = vector(alloc, 2, "11")?;
    let basis = Basis::new(alloc, 4)?;
    two_gens(alloc)?.act(alloc, &basis, r, 2, &all)
}

/// All of degree 3 on the same.
fn three_on_all(alloc: Global) -> Result<Vec<BitVec>, Memory> {
    let all = vector(alloc, 2, "11")?;
    let basis = Basis::new(alloc, 5)?;
    two_gens(alloc)?.act_all(alloc, &basis, 3, 2, &all)
}

// Sq(2) Sq(2) is Sq(1,1). In degree 5 the basis is Sq(5) and Sq(2,1) on the first generator, Sq(3) and Sq(0,1) on the second; Sq(3) Sq(2) is 0,
// and Sq(0,1) Sq(2) is Sq(2,1).
#[test]
fn acts(rt: HostRuntime) -> Result<(), Fail> {
    let two = sq(2, 0);
    assert!(rt; two.degree() == 2);
    assert!(rt; is_written(&on_all(rt.alloc(), &two)?, "011"));
    let rows = three_on_all(rt.alloc())?;
    assert!(rt; rows.len() == 2 && is_written(&rows[0], "0010") && is_written(&rows[1], "0101"));
    Ok(())
}

#[test]
fn laws(_rt: HostRuntime) {
    free_basis_is_pairs();
}
