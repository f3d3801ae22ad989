//! Where the three classes of a bracket stand.
ghost use Rattle.std.specs.Prelude.{◌≡◌, ◌<◌, ◌≤◌, ◌+◌, ◌^◌, pos, ◌+ℤ◌, ◌-ℤ◌, IfOk, IfErr, OnOk, None, Some};
ghost use Rattle.square.specs.Squares.{bottom_of};
ghost use Rattle.square.specs.Tables.{IsTable, IsThrough};
ghost use Rattle.lift_laws.specs.Lifts.{IsSphere};
ghost use Rattle.chain_map.specs.Lifting.{resolution_of};
ghost use Rattle.chain_map.specs.Classes.{through, no_class, out_of_range, class_refusal};
ghost use Rattle.yoneda.specs.Products.{IsPlaceIn, IsPlaceOf};
ghost use Rattle.massey.specs.Brackets.{degree_asked, reach_of, refusal_of};
ghost use Rattle.massey.specs.declared.fault.MasseyFault.TheVariants.{NoClass, OutOfRange};
ghost use Rattle.massey.specs.Inside.{place_refusal, AreFound, AreInside, IsSetting};

use crate::fault::MasseyFault;
use bidegree::{Class, Place, Range, above_of};
use chain_map::{Held, Source};
use square::Table;
use yoneda::place_of;

/// Where the three classes of a bracket stand.
#[derive(Clone, Copy)]
pub(crate) struct Places {
    pub(crate) a: Place,
    pub(crate) b: Place,
    pub(crate) c: Place,
}

/// How far a bracket of a and b with a class of a module in the range asks the sphere's resolution: through the square of ab, within
/// the range.
pub fn reach(range: Range, a: Class, b: Class) -> Range
    ensures { result ≡ reach_of range a b }
{
    let s = (u64::from(a.s) + u64::from(b.s)).min(u64::from(range.s));
    let t = (degree_asked(a) + degree_asked(b)).min(u64::from(range.t));
    Range {
        s: s as u16,
        t: t as u16,
    }
}

/// How many degrees the class is above the sphere's bottom, and 0 where it is below.
fn degree_asked(class: Class) -> u64
    ensures degree { result ≡ degree_asked class }
    ensures small { result < 2 ^ 32 }
{
    match above_of(0, class.t) {
        Some(above) => above,
        None => 0,
    }
}

/// Where the three classes stand, or why they have no bracket in the range: the first of no class a, b or c, and then of ab, bc or the
/// bracket outside of the range.
pub(crate) fn places_of(
    table: &Source<'_>,
    sphere: &Table,
    range: Range,
    a: Class,
    b: Class,
    c: Class,
) -> Result<Places, MasseyFault>
    requires table { IsThrough range table.now.rows }
    requires sphere_table { IsThrough (reach_of range a b) sphere.now.rows }
    requires sphere { IsSphere (resolution_of sphere.now) }
    ensures made { OnOk result (refusal_of table.now sphere.now range a b c ≡ None) }
    ensures refused { IfErr result (λ e. refusal_of table.now sphere.now range a b c ≡ Some e) }
    ensures found { IfOk result (AreFound table.now sphere.now range (reach_of range a b) a b c) }
    ensures setting { IfOk result (IsSetting table.now sphere.now range) }
{
    let far = reach(range, a, b);
    let places = classes_of(table, sphere, range, far, a, b, c)?;
    are_inside(table, sphere, range, places)?;
    Ok(places)
}

/// Where the three classes stand: c within a range of the module's table, a and b within one of the sphere's.
fn classes_of(
    table: &Source<'_>,
    sphere: &Table,
    range: Range,
    far: Range,
    a: Class,
    b: Class,
    c: Class,
) -> Result<Places, MasseyFault>
    requires table { IsThrough range table.now.rows }
    requires sphere_table { IsThrough far sphere.now.rows }
    ensures made { OnOk result
        (class_refusal NoClass (through range table.now) (through far sphere.now) a b c ≡ None) }
    ensures refused { IfErr result
        (λ e. class_refusal NoClass (through range table.now) (through far sphere.now) a b c ≡ Some e) }
    ensures found { IfOk result (AreFound table.now sphere.now range far a b c) }
    ensures is_table { OnOk result (IsTable table.now) }
    ensures is_sphere_table { OnOk result (IsTable sphere.now) }
{
    let whole = Source {
        held: Held::Squares(sphere),
    };
    let a = found(&whole, far, a, 0)?;
    let b = found(&whole, far, b, 1)?;
    let c = found(table, range, c, 2)?;
    Ok(Places { a, b, c })
}

/// That ab, bc and the bracket are in the range.
fn are_inside(
    table: &Source<'_>,
    sphere: &Table,
    range: Range,
    places: Places,
) -> Result<(), MasseyFault>
    requires a_in { IsPlaceIn sphere.now range places.a }
    requires b_in { IsPlaceIn sphere.now range places.b }
    requires c_in { IsPlaceIn table.now range places.c }
    ensures made { OnOk result (place_refusal table.now sphere.now range places ≡ None) }
    ensures refused { IfErr result (λ e. place_refusal table.now sphere.now range places ≡ Some e) }
    ensures inside { OnOk result (AreInside range range places) }
{
    let Places { a, b, c } = places;
    let whole = Source {
        held: Held::Squares(sphere),
    };
    within(&whole, range, 0, a.s + b.s + 1, a.above + b.above)?;
    within(table, range, 1, b.s + c.s + 1, b.above + c.above)?;
    within(
        table,
        range,
        2,
        a.s + b.s + c.s,
        a.above + b.above + c.above,
    )
}

/// Where the class stands in the table, or that it does not.
fn found(table: &Source<'_>, range: Range, class: Class, which: u8) -> Result<Place, MasseyFault>
    requires { IsThrough range table.now.rows }
    ensures found { OnOk result (no_class (NoClass which) (through range table.now) class ≡ None) }
    ensures missing { IfErr result (λ e. no_class (NoClass which) (through range table.now) class ≡ Some e) }
    ensures there { IfOk result (IsPlaceOf table.now range class) }
    ensures is_table { OnOk result (IsTable table.now) }
{
    match place_of(table, range, class) {
        Ok(place) => Ok(place),
        Err(count) => Err(MasseyFault::NoClass { which, count }),
    }
}

/// Checks that the square in row `rows - 1`, `above` degrees above the bottom, lies in the range. Rows are compared as
/// signed numbers, so classes that are all in row 0 are refused for ab, which is not zero, and not for the row -1.
fn within(
    table: &Source<'_>,
    range: Range,
    which: u8,
    rows: u16,
    above: u16,
) -> Result<(), MasseyFault>
    ensures within { OnOk result (out_of_range (OutOfRange which) range (through range table.now) (pos rows -ℤ pos 1)
        (bottom_of table.now.resolved +ℤ pos above) ≡ None) }
    ensures past { IfErr result (λ e. out_of_range (OutOfRange which) range (through range table.now)
        (pos rows -ℤ pos 1) (bottom_of table.now.resolved +ℤ pos above) ≡ Some e) }
    ensures row { OnOk result (rows ≤ range.s + 1) }
    ensures degree { OnOk result (above ≤ range.t) }
{
    let s = i32::from(rows) - 1;
    if s > i32::from(range.s) || above > range.t {
        let t = table.degree(above);
        return Err(MasseyFault::OutOfRange { which, s, t });
    }
    Ok(())
}
