//! Exponents and vectors, as the tests write them.
ghost use Rattle.std.specs.Prelude.{◌≡◌, length, IfOk};

use f2_vec::BitVec;
use memory::Memory;
use milnor_basis::Exps;
use std::alloc::Global;

/// Sq(r1, r2).
pub(crate) fn sq(r1: u16, r2: u16) -> Exps {
    Exps::of([r1, r2, 0, 0, 0, 0, 0, 0])
}

/// The vector of this length with these first coordinates, written as 0 and 1.
pub(crate) fn vector(alloc: Global, width: usize, text: &str) -> Result<BitVec, Memory>
    ensures { IfOk result (λ v. length v ≡ width) }
{
    let mut vector = BitVec::zero(alloc, width)?;
    for (i, digit) in text.bytes().enumerate() {
        if i < vector.len() {
            vector.set(i, digit == b'1');
        }
    }
    Ok(vector)
}

/// Whether the vector has these coordinates, written as 0 and 1.
pub(crate) fn is_written(vector: &BitVec, want: &str) -> bool {
    vector.len() == want.len()
        && want.bytes().enumerate().all(|(i, digit)| i < vector.len()
            && vector.get(i) == (digit == b'1'))
}
