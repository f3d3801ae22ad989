//! The generators of what is made: their degrees, and their names.
ghost use Rattle.std.specs.Prelude.{◌≡◌, None, IfOk, string_bytes};
ghost use Rattle.module_spec.specs.WellFormed.{NeverFall};
ghost use Rattle.module_build.specs.Names.{last_digit, numbered_name};
ghost use Rattle.module_build.specs.Limits.{limit_of};
ghost use Rattle.module_build.specs.Inside.Construction.{degrees_of, generators_of};

use crate::order::Placed;
use finite_module::{Generator, Generators};
use memory::Memory;
use std::alloc::Global;

/// The generators with the degrees of a basis, named by their numbers.
pub(crate) fn generators(alloc: Global, basis: &[Placed]) -> Result<Generators, Memory>
    requires order { NeverFall (generators_of basis.now) }
    requires limits { limit_of (degrees_of basis.now) ≡ None }
    ensures { IfOk result (λ generators. generators ≡ generators_of basis.now) }
{
    let list = named(alloc, basis)?;
    Generators::by_degree(list)
}

/// The list of these generators.
fn named(alloc: Global, basis: &[Placed]) -> Result<Vec<Generator>, Memory>
    requires { limit_of (degrees_of basis.now) ≡ None }
    ensures { IfOk result (λ list. list.items ≡ generators_of basis.now) }
{
    let mut list = Vec::with_capacity(alloc, basis.len())?;
    for (i, placed) in basis.iter().enumerate() {
        let name = numbered_name(alloc, i)?;
        list.push(Generator::new(name, placed.degree as i32))?;
    }
    Ok(list)
}

/// The name of generator `i`: `g` and three decimal digits.
fn numbered_name(alloc: Global, i: usize) -> Result<String, Memory>
    ensures { IfOk result (λ name. string_bytes name ≡ numbered_name i) }
{
    let mut name = String::new(alloc);
    name.push('g')?;
    name.push(last_digit(i / 100))?;
    name.push(last_digit(i / 10))?;
    name.push(last_digit(i))?;
    Ok(name)
}

/// The last decimal digit of a number.
fn last_digit(n: usize) -> char
    ensures { result ≡ last_digit n }
{
    char::from(b'0' + (n % 10) as u8)
}
