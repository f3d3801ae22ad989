//! How brackets are made.
ghost use Rattle.std.specs.Prelude.{◌≡◌, ◌+◌, ◌-◌, ◌<◌, ℕ, suc, pos, ◌+ℤ◌, ◌-ℤ◌, length, map, ◌++◌, IfOk, IfErr, OnOk, None};
ghost use Rattle.std.specs.List.{range_with_len};
ghost use Rattle.f2_vec.specs.Vectors.{IsZero};
ghost use Rattle.f2_vec.specs.Spans.{HaveWidth};
ghost use Rattle.square.specs.Squares.{bottom_of};
ghost use Rattle.square.specs.Tables.{IsThrough};
ghost use Rattle.lift_laws.specs.Lifts.{IsSphere};
ghost use Rattle.lift_laws.specs.Products.{count_of, product_by};
ghost use Rattle.chain_map.specs.Lifting.{resolution_of, map_of, IsLiftOver};
ghost use Rattle.yoneda.specs.Products.{class_above, IsPlaceOf, AreProducts};
ghost use Rattle.massey.specs.Brackets.{reach_of, refusal_of, count_below, IsBracketOver, IsCause};
ghost use Rattle.massey.specs.Inside.{above_of, above_ab, above_bc, far_of, IsSetting, IsSoIn, AreLifts, IsMemberBy, AreSpanning, IsBracket, lower_product};

use crate::answer::Bracket;
use crate::fault::MasseyFault;
use crate::homotopy::last_map;
use crate::places::{Places, places_of};
use crate::setting::Setting;
use bidegree::{Class, Place, Range};
use bracket_laws::{bracket_is_coset, units_have_no_zero_products};
use chain_map::{Held, Lift, Source, lift};
use f2_matrix::{Matrix, Reduced};
use f2_vec::BitVec;
use finite_module::modules_are_graded_modules;
use lift_laws::lifts_give_one_product;
use memory::Memory;
use resolution_laws::canonical_table_is_minimal_resolution;
use square::Table;
use std::alloc::Global;
use yoneda::{coefficients, product_by_lift, products};

/// The bracket <a, b, c> of the classes a and b of the sphere with the class c of the module, where ab and bc are zero: the values that lifts of b
/// and c and null homotopies give, in the square (a.s + b.s + c.s - 1, a.t + b.t + c.t), are one of them and the indeterminacy, which is spanned by
/// the products of a and by those with c. The sphere's table is asked through the square of ab, and no further.
///
/// # Errors
/// The first of: a, b and then c is no class of its table through the range; the square of ab, of bc or of the bracket is past the range; ab
/// is not zero, or bc. `Memory` if allocation fails.
pub fn bracket(
    alloc: Global,
    table: &Source<'_>,
    sphere: &Table,
    range: Range,
    a: Class,
    b: Class,
    c: Class,
) -> Result<Bracket, MasseyFault>
    requires table { IsThrough range table.now.rows }
    requires sphere_table { IsThrough (reach_of range a b) sphere.now.rows }
    requires sphere { IsSphere (resolution_of sphere.now) }
    ensures made { OnOk result (refusal_of table.now sphere.now range a b c ≡ None) }
    ensures cause { IfErr result (IsCause table.now sphere.now range a b c) }
    ensures bracket { IfOk result (IsBracketOver table.now sphere.now a b c) }
{
    // Why every lift gives these products.
    modules_are_graded_modules();
    lifts_give_one_product();
    let places = places_of(table, sphere, range, a, b, c)?;
    let setting = Setting {
        table,
        sphere,
        range,
        places,
    };
    let beta = lift_of_b(alloc, &setting, b)?;
    let (s, above) = (places.b.s + places.a.s, places.a.above + places.b.above);
    let whole = Source {
        held: Held::Squares(sphere),
    };
    let ab = product_by_lift(alloc, &whole, sphere, &beta, places.a, s, above)?;
    if !ab.is_zero() {
        return Err(MasseyFault::Nonzero {
            which: 0,
            product: ab,
        });
    }
    let gamma = lift_of_c(alloc, &setting, c)?;
    let (s, above) = (places.c.s + places.b.s, places.b.above + places.c.above);
    let bc = product_by_lift(alloc, table, sphere, &gamma, places.b, s, above)?;
    if !bc.is_zero() {
        return Err(MasseyFault::Nonzero {
            which: 1,
            product: bc,
        });
    }
    let bracket = by_lifts(alloc, &setting, &beta, &gamma)?;
    Ok(bracket)
}

/// A lift of b to row a.s of the sphere.
fn lift_of_b(alloc: Global, setting: &Setting<'_>, b: Class) -> Result<Lift, Memory>
    requires setting { IsSetting setting.now.table.now setting.now.sphere.now setting.now.range setting.now.places }
    requires class { IsPlaceOf setting.now.sphere.now (far_of setting.now.places) b setting.now.places.b }
    ensures { IfOk result (IsLiftOver setting.now.sphere.now setting.now.sphere.now setting.now.places.b.s
        setting.now.places.b.above setting.now.places.b.i setting.now.places.a.s) }
{
    let whole = Source {
        held: Held::Squares(setting.sphere),
    };
    lift(alloc, &whole, setting.sphere, b, setting.places.a.s)
}

/// A lift of c to the row of the sphere that is one below that of ab, and to that of b at least.
fn lift_of_c(alloc: Global, setting: &Setting<'_>, c: Class) -> Result<Lift, Memory>
    requires setting { IsSetting setting.now.table.now setting.now.sphere.now setting.now.range setting.now.places }
    requires class { IsPlaceOf setting.now.table.now setting.now.range c setting.now.places.c }
    ensures { IfOk result (IsLiftOver setting.now.table.now setting.now.sphere.now setting.now.places.c.s
        setting.now.places.c.above setting.now.places.c.i (setting.now.places.b.s + (setting.now.places.a.s - 1))) }
{
    let places = setting.places;
    let last = places.b.s + places.a.s.saturating_sub(1);
    lift(alloc, setting.table, setting.sphere, c, last)
}

/// The bracket, by lifts of b and c that give zero for ab and bc.
fn by_lifts(
    alloc: Global,
    setting: &Setting<'_>,
    beta: &Lift,
    gamma: &Lift,
) -> Result<Bracket, Memory>
    requires setting { IsSetting setting.now.table.now setting.now.sphere.now setting.now.range setting.now.places }
    requires beta { IsLiftOver setting.now.sphere.now setting.now.sphere.now setting.now.places.b.s
        setting.now.places.b.above setting.now.places.b.i setting.now.places.a.s beta.now }
    requires gamma { IsLiftOver setting.now.table.now setting.now.sphere.now setting.now.places.c.s
        setting.now.places.c.above setting.now.places.c.i (setting.now.places.b.s + (setting.now.places.a.s - 1))
        gamma.now }
    requires ab_zero { IsZero (product_by (resolution_of setting.now.sphere.now) (resolution_of setting.now.sphere.now)
        (class_above setting.now.places.a) (map_of beta.now) (setting.now.places.b.s + setting.now.places.a.s)
        (above_ab setting.now.places)) }
    requires bc_zero { IsZero (product_by (resolution_of setting.now.table.now) (resolution_of setting.now.sphere.now)
        (class_above setting.now.places.b) (map_of gamma.now) (setting.now.places.c.s + setting.now.places.b.s)
        (above_bc setting.now.places)) }
    ensures s { IfOk result (λ bracket. bracket.s
        ≡ pos (setting.now.places.a.s + setting.now.places.b.s + setting.now.places.c.s) -ℤ pos 1) }
    ensures t { IfOk result
        (λ bracket. bracket.t ≡ bottom_of setting.now.table.now.resolved +ℤ pos (above_of setting.now.places)) }
    ensures widths { IfOk result (λ bracket. bracket.indeterminacy.cols ≡ length bracket.value) }
    ensures one_each { IfOk result (λ bracket. length bracket.value ≡ count_below
        (resolution_of setting.now.table.now)
        (setting.now.places.a.s + setting.now.places.b.s + setting.now.places.c.s) (above_of setting.now.places)) }
    ensures bracket { IfOk result (λ bracket. IsSoIn
        (IsBracket setting.now.table.now setting.now.sphere.now setting.now.places bracket.value
        bracket.indeterminacy.rows)
        setting.now.table.now setting.now.sphere.now setting.now.places) }
{
    // Why neither a nor b is in row 0.
    units_have_no_zero_products();
    modules_are_graded_modules();
    let places = setting.places;
    if places.a.s == 0 {
        return empty(alloc, setting);
    }
    if places.b.s == 0 {
        return empty(alloc, setting);
    }
    coset(alloc, setting, beta, gamma, places.c.s + places.b.s - 1)
}

/// What is answered where a or b is in row 0. That is for tables alone that are no resolutions: else ab is not zero. Row 0
/// of the sphere's resolution has the unit alone.
fn empty(alloc: Global, setting: &Setting<'_>) -> Result<Bracket, Memory>
    requires setting { IsSetting setting.now.table.now setting.now.sphere.now setting.now.range setting.now.places }
    ensures s { IfOk result (λ bracket. bracket.s
        ≡ pos (setting.now.places.a.s + setting.now.places.b.s + setting.now.places.c.s) -ℤ pos 1) }
    ensures t { IfOk result
        (λ bracket. bracket.t ≡ bottom_of setting.now.table.now.resolved +ℤ pos (above_of setting.now.places)) }
    ensures widths { IfOk result (λ bracket. bracket.indeterminacy.cols ≡ length bracket.value) }
    ensures one_each { IfOk result (λ bracket. length bracket.value ≡ count_below
        (resolution_of setting.now.table.now)
        (setting.now.places.a.s + setting.now.places.b.s + setting.now.places.c.s) (above_of setting.now.places)) }
{
    let places = setting.places;
    let count = match (places.a.s + places.b.s + places.c.s).checked_sub(1) {
        Some(row) => setting.table.images_of(row, setting.above()).len(),
        None => 0,
    };
    Ok(Bracket {
        s: i32::from(places.a.s + places.b.s + places.c.s) - 1,
        t: setting.table.degree(setting.above()),
        value: BitVec::zero(alloc, count)?,
        indeterminacy: Matrix::from_rows(count, Vec::new(alloc)),
    })
}

/// The bracket, by lifts of b and c.
fn coset(
    alloc: Global,
    setting: &Setting<'_>,
    beta: &Lift,
    gamma: &Lift,
    n: u16,
) -> Result<Bracket, Memory>
    requires setting { IsSetting setting.now.table.now setting.now.sphere.now setting.now.range setting.now.places }
    requires lifts { AreLifts setting.now.table.now setting.now.sphere.now setting.now.places beta.now gamma.now }
    requires n { suc n ≡ setting.now.places.c.s + setting.now.places.b.s }
    ensures one_each { IfOk result (λ bracket. length bracket.value
        ≡ count_of (resolution_of setting.now.table.now) (n + setting.now.places.a.s) (above_of setting.now.places)) }
    ensures s { IfOk result (λ bracket. bracket.s ≡ pos (n + setting.now.places.a.s)) }
    ensures t { IfOk result
        (λ bracket. bracket.t ≡ bottom_of setting.now.table.now.resolved +ℤ pos (above_of setting.now.places)) }
    ensures widths { IfOk result (λ bracket. bracket.indeterminacy.cols ≡ length bracket.value) }
    ensures bracket { IfOk result (λ bracket. IsSoIn
        (IsBracket setting.now.table.now setting.now.sphere.now setting.now.places bracket.value
        bracket.indeterminacy.rows)
        setting.now.table.now setting.now.sphere.now setting.now.places) }
{
    // Why the value and the indeterminacy are all values.
    canonical_table_is_minimal_resolution();
    modules_are_graded_modules();
    bracket_is_coset();
    let s = i32::from(n + setting.places.a.s);
    let t = setting.table.degree(setting.above());
    let first = member(alloc, setting, beta, gamma, n)?;
    let rows = indeterminacy_rows(alloc, setting, beta, gamma, n)?;
    let rows = Matrix::from_rows(first.len(), rows);
    let reduced = Reduced::of(alloc, &rows)?;
    let value = reduced.rest(alloc, &first)?;
    let indeterminacy = reduced.row_basis(alloc)?;
    Ok(Bracket {
        s,
        t,
        value,
        indeterminacy,
    })
}

/// A value of the bracket, by a null homotopy.
fn member(
    alloc: Global,
    setting: &Setting<'_>,
    beta: &Lift,
    gamma: &Lift,
    n: u16,
) -> Result<BitVec, Memory>
    requires setting { IsSetting setting.now.table.now setting.now.sphere.now setting.now.range setting.now.places }
    requires lifts { AreLifts setting.now.table.now setting.now.sphere.now setting.now.places beta.now gamma.now }
    requires n { suc n ≡ setting.now.places.c.s + setting.now.places.b.s }
    ensures length { IfOk result (λ v. length v
        ≡ count_of (resolution_of setting.now.table.now) (n + setting.now.places.a.s) (above_of setting.now.places)) }
    ensures member { IfOk result (λ v. IsSoIn
        (IsMemberBy setting.now.table.now setting.now.sphere.now setting.now.places n v)
        setting.now.table.now setting.now.sphere.now setting.now.places) }
{
    let last = last_map(alloc, setting, beta, gamma, n)?;
    let a = setting.places.a;
    coefficients(
        alloc,
        setting.table,
        setting.sphere,
        last.as_slice(),
        a,
        n + a.s,
        setting.above(),
    )
}

/// The products of a with the classes of the square of bc one row lower, and those of the classes of the square of ab one row lower
/// with c.
fn indeterminacy_rows(
    alloc: Global,
    setting: &Setting<'_>,
    beta: &Lift,
    gamma: &Lift,
    n: u16,
) -> Result<Vec<BitVec>, Memory>
    requires setting { IsSetting setting.now.table.now setting.now.sphere.now setting.now.range setting.now.places }
    requires lifts { AreLifts setting.now.table.now setting.now.sphere.now setting.now.places beta.now gamma.now }
    requires n { suc n ≡ setting.now.places.c.s + setting.now.places.b.s }
    ensures widths { IfOk result (λ rows. HaveWidth
        (count_of (resolution_of setting.now.table.now) (n + setting.now.places.a.s) (above_of setting.now.places))
        rows.items) }
    ensures spanning { IfOk result (λ rows. IsSoIn
        (AreSpanning setting.now.table.now setting.now.sphere.now setting.now.places n rows.items)
        setting.now.table.now setting.now.sphere.now setting.now.places) }
{
    let mut rows = products(
        alloc,
        setting.table,
        setting.sphere,
        setting.range,
        setting.places.a,
        n,
        setting.above_bc(),
    )?;
    add_lower_rows(alloc, setting, beta, gamma, &mut rows)?;
    Ok(rows)
}

/// Puts behind the rows the products of the classes of the square of ab one row lower with c.
fn add_lower_rows(
    alloc: Global,
    setting: &Setting<'_>,
    beta: &Lift,
    gamma: &Lift,
    rows: &mut Vec<BitVec>,
) -> Result<(), Memory>
    requires setting { IsSetting setting.now.table.now setting.now.sphere.now setting.now.range setting.now.places }
    requires lifts { AreLifts setting.now.table.now setting.now.sphere.now setting.now.places beta.now gamma.now }
    ensures { OnOk result ((l : ℕ) → suc l ≡ setting.now.places.b.s + setting.now.places.a.s →
        rows.new.items ≡ rows.old.items
        ++ map (lower_product setting.now.table.now setting.now.sphere.now setting.now.places gamma.now l)
        (range_with_len 0 (count_of (resolution_of setting.now.sphere.now) l (above_ab setting.now.places)))) }
{
    let places = setting.places;
    let l = places.b.s + places.a.s - 1;
    for i in 0..setting.sphere.images_of(l, setting.above_ab()).len() {
        rows.push(lower_row(alloc, setting, beta, gamma, l, i)?)?;
    }
    Ok(())
}

/// The product with c of the class with number `i` in the square of ab one row lower, which is row `l`.
fn lower_row(
    alloc: Global,
    setting: &Setting<'_>,
    beta: &Lift,
    gamma: &Lift,
    l: u16,
    i: usize,
) -> Result<BitVec, Memory>
    requires setting { IsSetting setting.now.table.now setting.now.sphere.now setting.now.range setting.now.places }
    requires lifts { AreLifts setting.now.table.now setting.now.sphere.now setting.now.places beta.now gamma.now }
    requires row { suc l ≡ setting.now.places.b.s + setting.now.places.a.s }
    requires class { i < count_of (resolution_of setting.now.sphere.now) l (above_ab setting.now.places) }
    ensures { IfOk result
        (λ v. v ≡ lower_product setting.now.table.now setting.now.sphere.now setting.now.places gamma.now l i) }
{
    let Places { a, b, c } = setting.places;
    let y = Place {
        s: l,
        above: a.above + b.above,
        i,
    };
    product_by_lift(
        alloc,
        setting.table,
        setting.sphere,
        gamma,
        y,
        c.s + l,
        a.above + b.above + c.above,
    )
}
