//! Products and multiples, computed by hand.
ghost use Rattle.std.specs.Prelude.{◌≤◌};
ghost use Rattle.milnor_basis.specs.Exponents.{degree_of};

use crate::written::{is_written, sq, vector};
use f2_vec::BitVec;
use memory::Memory;
use milnor_basis::{Basis, Exps};
use milnor_product::{product, times};
use std::alloc::Global;
use std::test::Fail;

/// Sq(R) times itself.
fn square_of(alloc: Global, r: &Exps) -> Result<BitVec, Memory>
    requires { degree_of r.now ≤ 4 }
{
    let basis = Basis::new(alloc, 8)?;
    product(alloc, &basis, r, r)
}

/// Sq(R) on the sum of Sq(3) and Sq(0,1).
fn on_sum(alloc: Global, r: &Exps) -> Result<BitVec, Memory>
    requires { degree_of r.now ≤ 2 }
{
    let basis = Basis::new(alloc, 5)?;
    let sum = vector(alloc, basis.of_degree(3).len(), "11")?;
    times(alloc, &basis, r, 3, &sum)
}

// Sq(4) Sq(4) is Sq(2,2), the third of Sq(8), Sq(5,1), Sq(2,2) and Sq(1,0,1). Sq(2) Sq(3) and Sq(2) Sq(0,1) are both Sq(2,1).
#[test]
fn multiplies(rt: HostRuntime) -> Result<(), Fail> {
    let (two, four) = (sq(2, 0), sq(4, 0));
    assert!(rt; two.degree() <= 2 && four.degree() <= 4);
    assert!(rt; is_written(&square_of(rt.alloc(), &four)?, "0010"));
    assert!(rt; is_written(&on_sum(rt.alloc(), &two)?, "00"));
    Ok(())
}
