//! The line of one product, or why there is none.
ghost use Rattle.std.specs.Prelude.{◌≡◌, ◌≢◌, ◌+◌, ◌<◌, ◌≤◌, pos, ◌+ℤ◌, length, IfOk, IfErr, OnOk, Ok, Err, None, Some};
ghost use Rattle.bidegree.specs.declared.range.TheConstants.{MAX_S, MAX_T};
ghost use Rattle.square.specs.Squares.{bottom_of};
ghost use Rattle.square.specs.Tables.{IsTable, IsThrough};
ghost use Rattle.lift_laws.specs.Lifts.{IsSphere};
ghost use Rattle.chain_map.specs.Lifting.{resolution_of};
ghost use Rattle.chain_map.specs.Classes.{through, no_class, out_of_range};
ghost use Rattle.yoneda.specs.Products.{IsPlaceOf, IsThere, class_above, AreProducts};
ghost use Rattle.ext_products.specs.Products.{one_product_refusal, IsOneProductAnswer, IsAnswerOver, IsAnswerIn};
ghost use Rattle.ext_products.specs.Inside.{reach_of, ArePlaces, IsLineOver};
ghost use Rattle.ext_products.specs.declared.refusal.ClassesFault.TheVariants.{Refused, Memory as OutOfMemory};
ghost use Rattle.ext_products.specs.declared.refusal.Refusal.{Refusal as WhyNot};
ghost use Rattle.ext_products.specs.declared.refusal.Refusal.TheVariants.{NoClass, OutOfRange};
ghost use Rattle.ext_products.specs.declared.refusal.Target.TheVariants.{Ax};

use crate::products::reach_of;
use crate::refusal::{ClassesFault, Named, Refusal, Target};
use crate::sphere::sphere_table;
use bidegree::{Class, Place, Range};
use chain_map::{Held, Source};
use ext_chart::{ProductLine, product_lines};
use f2_vec::BitVec;
use memory::Memory;
use square::Table;
use std::alloc::Global;
use yoneda::{known, place_of, products};

/// The line of the product of the class `a` of the sphere with the class `x` of the table's module, as it stands among those of all
/// products with `a`. The sphere's resolution is made as far as `a`.
///
/// # Errors
/// `Refused` with the first of: a, or then x, is no class through the range; the square of the product is past it. `Memory` if allocation
/// fails.
pub fn one_product_text(
    alloc: Global,
    table: &Source<'_>,
    range: Range,
    a: Class,
    x: Class,
) -> Result<Vec<u8>, ClassesFault>
    requires rows { range.s ≤ MAX_S }
    requires degrees { range.t ≤ MAX_T }
    requires through { IsThrough range table.now.rows }
    ensures text { IfOk result (λ text. IsAnswerOver (IsOneProductAnswer range a x) table.now range (Ok text.items)) }
    ensures refused { IfErr result (λ e. e ≢ OutOfMemory →
        (refusal : WhyNot) × (e ≡ Refused refusal) ×
        IsAnswerIn (IsOneProductAnswer range a x) table.now range (Err refusal)) }
{
    finite_module::modules_are_graded_modules();
    lift_laws::lifts_give_one_product();
    known(table);
    let sphere = sphere_table(alloc, reach_of(range, a), table.squares())?;
    match places(table, &sphere, range, a, x) {
        Ok(found) => {
            let line = line_of(alloc, table, &sphere, range, found.0, found.1)?;
            Ok(product_lines(alloc, &[line])?)
        }
        Err(refusal) => Err(ClassesFault::Refused(refusal)),
    }
}

/// Where the two classes stand, or why they have no product in the range.
fn places(
    table: &Source<'_>,
    sphere: &Table,
    range: Range,
    a: Class,
    x: Class,
) -> Result<(Place, Place), Refusal>
    requires table { IsThrough range table.now.rows }
    requires sphere_table { IsThrough (reach_of range a) sphere.now.rows }
    requires sphere { IsSphere (resolution_of sphere.now) }
    ensures made { OnOk result
        (one_product_refusal range a x (through range table.now) (through (reach_of range a) sphere.now) ≡ None) }
    ensures refused { IfErr result (λ refusal.
        one_product_refusal range a x (through range table.now) (through (reach_of range a) sphere.now) ≡ Some refusal) }
    ensures places { IfOk result (λ p. ArePlaces table.now sphere.now range a x p.0 p.1) }
    ensures is_table { OnOk result (IsTable table.now) }
    ensures is_sphere_table { OnOk result (IsTable sphere.now) }
{
    let whole = Source {
        held: Held::Squares(sphere),
    };
    let first = found(&whole, reach_of(range, a), a, Named::A)?;
    let second = found(table, range, x, Named::X)?;
    within(table, range, first.s + second.s, first.above + second.above)?;
    Ok((first, second))
}

/// Where the class stands in the table, or that it does not.
fn found(table: &Source<'_>, range: Range, class: Class, named: Named) -> Result<Place, Refusal>
    requires { IsThrough range table.now.rows }
    ensures found { OnOk result (no_class (NoClass named class) (through range table.now) class ≡ None) }
    ensures missing { IfErr result
        (λ refusal. no_class (NoClass named class) (through range table.now) class ≡ Some refusal) }
    ensures there { IfOk result (IsPlaceOf table.now range class) }
    ensures is_table { OnOk result (IsTable table.now) }
{
    match place_of(table, range, class) {
        Ok(place) => Ok(place),
        Err(count) => Err(Refusal::NoClass {
            named,
            class,
            count,
        }),
    }
}

/// Checks that the square of the product in row `s`, `above` degrees above the bottom, lies in the range.
fn within(table: &Source<'_>, range: Range, s: u16, above: u16) -> Result<(), Refusal>
    ensures within { OnOk result (out_of_range (OutOfRange Ax) range (through range table.now) (pos s)
        (bottom_of table.now.resolved +ℤ pos above) ≡ None) }
    ensures past { IfErr result (λ refusal. out_of_range (OutOfRange Ax) range (through range table.now) (pos s)
        (bottom_of table.now.resolved +ℤ pos above) ≡ Some refusal) }
    ensures row { OnOk result (s ≤ range.s) }
    ensures degree { OnOk result (above ≤ range.t) }
{
    if s > range.s || above > range.t {
        let t = table.degree(above);
        return Err(Refusal::OutOfRange {
            target: Target::Ax,
            s: i32::from(s),
            t,
        });
    }
    Ok(())
}

/// The line of the product of the class `a` of the sphere with the class `x` of the table's module.
///
/// # Errors
/// `Memory` if allocation fails.
fn line_of(
    alloc: Global,
    table: &Source<'_>,
    sphere: &Table,
    range: Range,
    a: Place,
    x: Place,
) -> Result<ProductLine, Memory>
    requires table { IsThrough range table.now.rows }
    requires sphere { IsSphere (resolution_of sphere.now) }
    requires class { IsThere sphere.now a }
    requires there { IsThere table.now x }
    requires rows { range.s ≤ MAX_S }
    requires degrees { range.t ≤ MAX_T }
    requires row { a.s + x.s ≤ range.s }
    requires degree { a.above + x.above ≤ range.t }
    ensures { IfOk result (IsLineOver table.now sphere.now a (class_above x)) }
{
    let values = products(alloc, table, sphere, range, a, x.s, x.above)?;
    line_among(alloc, table, sphere, a, x, values.as_slice())
}

/// The line of the product of `a` with the class `x` of a square, whose classes have these products with `a`.
///
/// # Errors
/// `Memory` if allocation fails.
fn line_among(
    alloc: Global,
    table: &Source<'_>,
    sphere: &Table,
    a: Place,
    x: Place,
    values: &[BitVec],
) -> Result<ProductLine, Memory>
    requires products { AreProducts table.now sphere.now a x.s x.above values.now }
    requires there { x.i < length values.now }
    requires row { x.s + a.s ≤ MAX_S }
    requires degree { a.above + x.above ≤ MAX_T }
    ensures { IfOk result (IsLineOver table.now sphere.now a (class_above x)) }
{
    let i = x.i;
    let value = values[i].try_copy(alloc)?;
    let t = table.degree(x.above);
    let target_t = table.degree(a.above + x.above);
    Ok(ProductLine {
        s: x.s,
        t,
        i,
        target_s: x.s + a.s,
        target_t,
        value,
    })
}
