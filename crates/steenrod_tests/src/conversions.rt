//! A monomial with the unit in it; `sq` of the program converts the others.
use crate::written::is_written;
use memory::Memory;
use milnor_basis::Basis;
use sq_calc::{Mono, to_milnor};
use std::alloc::Global;
use std::test::Fail;

/// Whether Sq2 Sq0 Sq2, in which Sq0 is the unit, is Sq(1,1), the second of Sq(4) and Sq(1,1).
fn has_a_unit(alloc: Global) -> Result<bool, Memory> {
    let basis = Basis::new(alloc, 4)?;
    let mono = Mono::of(Vec::from_slice(alloc, &[2, 0, 2])?);
    match mono.degree() {
        Some(degree) if degree <= basis.max() => {
            Ok(is_written(&to_milnor(alloc, &basis, &mono)?, "01"))
        }
        _ => Ok(false),
    }
}

#[test]
fn converts_the_unit(rt: HostRuntime) -> Result<(), Fail> {
    assert!(rt; has_a_unit(rt.alloc())?);
    Ok(())
}
