//! The product of two classes.
ghost use Rattle.std.specs.Prelude.{◌≡◌, ◌≢◌, ℕ, ◌+◌, ◌<◌, ◌≤◌, length, map, slice_index_or, IfOk, IfErr, OnOk, None, Some};
ghost use Rattle.f2_vec.specs.Spans.{HaveWidth};
ghost use Rattle.square.specs.Tables.{row_in, IsTable, IsThrough};
ghost use Rattle.lift_laws.specs.Lifts.{IsSphere};
ghost use Rattle.lift_laws.specs.Products.{count_of, product_by};
ghost use Rattle.chain_map.specs.Lifting.{resolution_of, row_values, joined, no_lift, map_of};
ghost use Rattle.chain_map.specs.Classes.{through, no_class};
ghost use Rattle.yoneda.specs.Products.{class_above, IsPlaceOf, IsThere, refusal_of, ArePlacesOf, IsProductOver, AreProducts, AreOnSquare};
ghost use Rattle.yoneda.specs.declared.fault.YonedaFault as YonedaFault;
ghost use Rattle.yoneda.specs.declared.fault.YonedaFault.TheVariants.{NoClass, Memory as OutOfMemory};

use crate::fault::YonedaFault;
use crate::place::{known, place_of};
use crate::values::product_by_lift;
use bidegree::{Class, Place, Range};
use chain_map::{Held, Lift, Source, lift, lifts};
use f2_vec::BitVec;
use finite_module::modules_are_graded_modules;
use lift_laws::lifts_give_one_product;
use memory::Memory;
use square::Table;
use std::alloc::Global;

/// The product of the class a of the sphere with the class x of the module: one coordinate for each generator of the square
/// (a.s + x.s, a.t + x.t) of the module's resolution, in their order.
///
/// # Errors
/// The first of: a, and then x, is no class of its table through the range; the product is not in the range. `Memory` if allocation
/// fails.
pub fn product(
    alloc: Global,
    table: &Source<'_>,
    sphere: &Table,
    range: Range,
    a: Class,
    x: Class,
) -> Result<BitVec, YonedaFault>
    requires table { IsThrough range table.now.rows }
    requires sphere_table { IsThrough range sphere.now.rows }
    requires sphere { IsSphere (resolution_of sphere.now) }
    ensures made { OnOk result (refusal_of table.now sphere.now range a x ≡ None) }
    ensures refused { IfErr result (λ e. e ≢ OutOfMemory → refusal_of table.now sphere.now range a x ≡ Some e) }
    ensures product { IfOk result (IsProductOver table.now sphere.now range a x) }
{
    // Why every lift gives this product.
    modules_are_graded_modules();
    lifts_give_one_product();
    let (first, second) = places(table, sphere, range, a, x)?;
    let s = second.s + first.s;
    let above = first.above + second.above;
    let lift = lift(alloc, table, sphere, x, first.s)?;
    let product = product_by_lift(alloc, table, sphere, &lift, first, s, above)?;
    Ok(product)
}

/// The products of the class a of the sphere with each class of the module's square in row `s`, `above` degrees above the bottom, in
/// their order. All classes of the square are lifted in one pass. The squares of a table have all their classes, so there is
/// nothing to refuse; the sphere's table is asked for the class a, and for no range.
///
/// # Errors
/// `Memory` if allocation fails.
pub fn products(
    alloc: Global,
    table: &Source<'_>,
    sphere: &Table,
    range: Range,
    a: Place,
    s: u16,
    above: u16,
) -> Result<Vec<BitVec>, Memory>
    requires table { IsThrough range table.now.rows }
    requires sphere { IsSphere (resolution_of sphere.now) }
    requires class { IsThere sphere.now a }
    requires rows { a.s + s ≤ range.s }
    requires degrees { a.above + above ≤ range.t }
    ensures one_each { IfOk result (λ rows. length rows.items ≡ count_of (resolution_of table.now) s above) }
    ensures widths { IfOk result
        (λ rows. HaveWidth (count_of (resolution_of table.now) (s + a.s) (a.above + above)) rows.items) }
    ensures products { IfOk result (λ rows. AreProducts table.now sphere.now a s above rows.items) }
{
    modules_are_graded_modules();
    lifts_give_one_product();
    known(table);
    known(&Source {
        held: Held::Squares(sphere),
    });
    let lifts = lifts(alloc, table, sphere, s, table.degree(above), a.s)?;
    products_by(
        alloc,
        table,
        sphere,
        lifts.as_slice(),
        a,
        s + a.s,
        a.above + above,
    )
}

/// The products of the class a with those that the maps lift, in the square in row `s`, `above` degrees above the bottom.
fn products_by(
    alloc: Global,
    table: &Source<'_>,
    sphere: &Table,
    lifts: &[Lift],
    a: Place,
    s: u16,
    above: u16,
) -> Result<Vec<BitVec>, Memory>
    requires class { IsThere sphere.now a }
    requires square { above < length (row_in table.now.rows s) }
    requires rows { (j : ℕ) → j < length lifts.now → a.s < length (slice_index_or lifts.now j no_lift).rows }
    requires values { (j : ℕ) → j < length lifts.now →
        AreOnSquare table.now sphere.now a s above (joined (row_values (slice_index_or lifts.now j no_lift) a.s)) }
    ensures { IfOk result (λ rows. rows.items ≡ map
        (λ lift. product_by (resolution_of table.now) (resolution_of sphere.now) (class_above a) (map_of lift) s above)
        lifts.now) }
{
    let mut rows = Vec::new(alloc);
    for lift in lifts {
        rows.push(product_by_lift(alloc, table, sphere, lift, a, s, above)?)?;
    }
    Ok(rows)
}

/// Where the two classes stand, or why they have no product in the range.
fn places(
    table: &Source<'_>,
    sphere: &Table,
    range: Range,
    a: Class,
    x: Class,
) -> Result<(Place, Place), YonedaFault>
    requires table { IsThrough range table.now.rows }
    requires sphere_table { IsThrough range sphere.now.rows }
    requires sphere { IsSphere (resolution_of sphere.now) }
    ensures made { OnOk result (refusal_of table.now sphere.now range a x ≡ None) }
    ensures refused { IfErr result (λ e. refusal_of table.now sphere.now range a x ≡ Some e) }
    ensures places { IfOk result (λ p. ArePlacesOf table.now sphere.now range a x p.0 p.1) }
    ensures is_table { OnOk result (IsTable table.now) }
    ensures is_sphere_table { OnOk result (IsTable sphere.now) }
{
    let whole = Source {
        held: Held::Squares(sphere),
    };
    let first = found(&whole, range, a, 0)?;
    let second = found(table, range, x, 1)?;
    let s = first.s + second.s;
    let above = first.above + second.above;
    if s > range.s || above > range.t {
        return Err(YonedaFault::OutOfRange {
            s: i32::from(s),
            t: table.degree(above),
        });
    }
    Ok((first, second))
}

/// Where the class stands in the table, or that it does not.
fn found(table: &Source<'_>, range: Range, class: Class, which: u8) -> Result<Place, YonedaFault>
    requires { IsThrough range table.now.rows }
    ensures found { OnOk result (no_class (NoClass which) (through range table.now) class ≡ None) }
    ensures missing { IfErr result (λ e. no_class (NoClass which) (through range table.now) class ≡ Some e) }
    ensures there { IfOk result (IsPlaceOf table.now range class) }
    ensures is_table { OnOk result (IsTable table.now) }
{
    match place_of(table, range, class) {
        Ok(place) => Ok(place),
        Err(count) => Err(YonedaFault::NoClass { which, count }),
    }
}
