//! A vector of a free module as a sum of terms.
ghost use Rattle.std.specs.Prelude.{◌≡◌, ◌<◌, length, IfOk};
ghost use Rattle.free_module.specs.FreeBasis.{element};
ghost use Rattle.free_module.specs.FreeModule.{IsWithinReach, free_basis, free_width};
ghost use Rattle.ext_chart.specs.Dump.{term_text, free_sum_text};

use crate::place::{Place, place_text};
use f2_vec::BitVec;
use free_module::Gens;
use memory::Memory;
use milnor_basis::{Basis, Exps, sq_text};
use std::alloc::Global;

/// The vector `v` of degree `t` of the free module on `gens`, which have these places: its terms in the order of the basis,
/// with ` + ` between each two.
pub(crate) fn free_sum_text(
    alloc: Global,
    basis: &Basis,
    gens: &Gens,
    places: &[Place],
    t: i32,
    v: &BitVec,
) -> Result<Vec<u8>, Memory>
    requires one_each { length places.now ≡ length gens.now }
    requires width { length v.now ≡ free_width gens.now t }
    requires reach { IsWithinReach basis.now gens.now t }
    ensures { IfOk result (λ text. text.items ≡ free_sum_text places.now gens.now t v.now) }
{
    let ones = v.ones(alloc)?;
    let mut text = Vec::new(alloc);
    for (k, i) in ones.iter().enumerate() {
        if k > 0 {
            text.extend_from_slice(b" + ")?;
        }
        let term = element_text(alloc, basis, gens, places, t, *i)?;
        text.extend_from_slice(term.as_slice())?;
    }
    Ok(text)
}

/// Element `i` of the basis in degree `t`.
fn element_text(
    alloc: Global,
    basis: &Basis,
    gens: &Gens,
    places: &[Place],
    t: i32,
    i: usize,
) -> Result<Vec<u8>, Memory>
    requires one_each { length places.now ≡ length gens.now }
    requires within { i < free_width gens.now t }
    requires reach { IsWithinReach basis.now gens.now t }
    ensures { IfOk result (λ text. text.items ≡ term_text places.now (element (free_basis gens.now t) i)) }
{
    let (generator, r) = gens.at(basis, t, i);
    term_text(alloc, places, generator, &r)
}

/// Sq(R) on a generator.
fn term_text(alloc: Global, places: &[Place], generator: usize, r: &Exps) -> Result<Vec<u8>, Memory>
    requires { generator < length places.now }
    ensures { IfOk result (λ text. text.items ≡ term_text places.now (generator, r.now)) }
{
    let square = sq_text(alloc, r)?;
    let place = place_text(alloc, places[generator])?;
    let mut text = Vec::from_slice(alloc, square.as_bytes())?;
    text.push(b'*')?;
    text.extend_from_slice(place.as_slice())?;
    Ok(text)
}
