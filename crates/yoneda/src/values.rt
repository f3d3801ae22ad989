//! The coefficients of a class in the values of a map.
ghost use Rattle.std.specs.Prelude.{◌≡◌, ℕ, ◌+◌, ◌-◌, ◌<◌, ◌≤◌, length, map, take, IfOk};
ghost use Rattle.f2_vec.specs.Vectors.{bit};
ghost use Rattle.f2_vec.specs.Spans.{row};
ghost use Rattle.resolution_laws.specs.Resolution.{row_of, degrees_from};
ghost use Rattle.square.specs.Squares.{bottom_of};
ghost use Rattle.square.specs.Tables.{row_in, plain_rows};
ghost use Rattle.lift_laws.specs.Products.{coefficient_of, first_of, on_square, product_by};
ghost use Rattle.chain_map.specs.Lifting.{resolution_of, row_values, joined, map_of};
ghost use Rattle.yoneda.specs.Products.{class_above, IsThere, AreOnSquare};

use bidegree::Place;
use chain_map::{Lift, Source, lowered_generators};
use f2_vec::BitVec;
use memory::Memory;
use square::Table;
use std::alloc::Global;

/// The coefficient of the class `a` of the sphere in a map's values on the generators of the square in row `s`, `above` degrees
/// above the bottom. The map goes from F_s of the module's resolution to F_(a.s) of the sphere's, and takes the square's degree to
/// a's; `values` are its values on the first generators of row s, in their order, those of the square among them.
///
/// # Errors
/// `Memory` if allocation fails.
pub fn coefficients(
    alloc: Global,
    table: &Source<'_>,
    sphere: &Table,
    values: &[BitVec],
    a: Place,
    s: u16,
    above: u16,
) -> Result<BitVec, Memory>
    requires class { IsThere sphere.now a }
    requires square { above < length (row_in table.now.rows s) }
    requires values { AreOnSquare table.now sphere.now a s above values.now }
    ensures { IfOk result (λ v. v ≡ on_square (resolution_of table.now) s above
        (λ g. coefficient_of (resolution_of sphere.now) (class_above a) (row values.now g))) }
{
    let first = first_at(alloc, table, s, above)?;
    let count = table.images_of(s, above).len();
    let back = sphere.images_of(a.s, a.above).len() - a.i;
    coordinates_back(alloc, &values[first..first + count], back)
}

/// The product of the class `a` of the sphere with the class that the lift lifts, on the generators of the square in row `s`, `above`
/// degrees above the bottom.
///
/// # Errors
/// `Memory` if allocation fails.
pub fn product_by_lift(
    alloc: Global,
    table: &Source<'_>,
    sphere: &Table,
    lift: &Lift,
    a: Place,
    s: u16,
    above: u16,
) -> Result<BitVec, Memory>
    requires class { IsThere sphere.now a }
    requires square { above < length (row_in table.now.rows s) }
    requires row { a.s < length lift.now.rows }
    requires values { AreOnSquare table.now sphere.now a s above (joined (row_values lift.now a.s)) }
    ensures { IfOk result (λ v. v
        ≡ product_by (resolution_of table.now) (resolution_of sphere.now) (class_above a) (map_of lift.now) s above) }
{
    coefficients(alloc, table, sphere, lift.vectors(a.s), a, s, above)
}

/// The number in row `s` of the first generator that is `above` degrees above the bottom.
fn first_at(alloc: Global, table: &Source<'_>, s: u16, above: u16) -> Result<usize, Memory>
    requires { above < length (row_in table.now.rows s) }
    ensures { IfOk result (λ first. first ≡ first_of (resolution_of table.now) s above) }
{
    let before = lowered_generators(alloc, table, s, above, 0)?;
    Ok(before.degrees().len())
}

/// Of each of the vectors the coordinate that is `back` places before its end.
fn coordinates_back(alloc: Global, vectors: &[BitVec], back: usize) -> Result<BitVec, Memory>
    requires behind { 0 < back }
    requires within { (i : ℕ) → i < length vectors.now → back ≤ length (row vectors.now i) }
    ensures { IfOk result (λ v. v ≡ map (λ w. bit w (length w - back)) vectors.now) }
{
    let mut coordinates = BitVec::zero(alloc, 0)?;
    for v in vectors {
        coordinates.push(v.get(v.len() - back))?;
    }
    Ok(coordinates)
}
