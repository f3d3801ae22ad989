//! How lifts are made.
ghost use Rattle.std.specs.Prelude.{◌≡◌, ◌+ℤ◌, ◌<◌, ◌≤◌, ◌+◌, ◌^◌, pos, [], length, replicate, IfOk, OnOk, ℕ, slice_index_or};
ghost use Rattle.square.specs.Squares.{bottom_of};
ghost use Rattle.square.specs.Tables.{row_in, IsTable};
ghost use Rattle.lift_laws.specs.Lifts.{IsSphere};
ghost use Rattle.lift_laws.specs.Products.{count_of};
ghost use Rattle.chain_map.specs.Lifting.{resolution_of, IsClassOf, IsSquareOf, IsLiftOver, no_lift, degrees_through};
ghost use Rattle.chain_map.specs.Inside.{AreMadeLifts, Reaches};

use crate::maps::Lift;
use crate::rows::Course;
use crate::source::Source;
use bidegree::{Class, above_of};
use memory::Memory;
use square::Table;
use std::alloc::Global;

/// Lifts the class to a chain map, on rows 0 to `upto` of the sphere's resolution. How far it goes up in each row is what both
/// tables have room for: row s + upto of the module's table ends somewhere, and so does row `upto` of the sphere's, which the
/// class moves up by its own degree; the lift stops at the lower of these two ends. Where one of the rows is empty it goes
/// through no degree. Where the squares are canonical, it is a chain map on all vectors.
///
/// # Errors
/// `Memory` if allocation fails.
pub fn lift(
    alloc: Global,
    table: &Source<'_>,
    sphere: &Table,
    class: Class,
    upto: u16,
) -> Result<Lift, Memory>
    requires sphere { IsSphere (resolution_of sphere.now) }
    requires class { IsClassOf table.now class }
    ensures { (above : ℕ) → class.t ≡ bottom_of table.now.resolved +ℤ pos above →
        IfOk result (IsLiftOver table.now sphere.now class.s above class.i upto) }
{
    // No row is longer than row 0, and there is none above the last: so the number of the class's row is small.
    let longest = table.front(0);
    prove!(longest > 0);
    let s = class.s as u16;
    let above = above_at(table, s, class.t);
    let mut lifts = lifts_of(alloc, table, sphere, s, above, class.i, 1, upto)?;
    match lifts.pop() {
        Some(lift) => Ok(lift),
        None => unreachable!(),
    }
}

/// A lift of each class of the square in row `s` and of degree `t`, in their order, as `lift` makes it. Each square of the
/// sphere's resolution is inverted once for all of them. The row is `u16`, as `Table::at` takes it; that of a `Class` is
/// `u32`, as words give it.
///
/// # Errors
/// `Memory` if allocation fails.
pub fn lifts(
    alloc: Global,
    table: &Source<'_>,
    sphere: &Table,
    s: u16,
    t: i32,
    upto: u16,
) -> Result<Vec<Lift>, Memory>
    requires sphere { IsSphere (resolution_of sphere.now) }
    requires square { IsSquareOf table.now s t }
    ensures one_each { (above : ℕ) → t ≡ bottom_of table.now.resolved +ℤ pos above →
        IfOk result (λ lifts. length lifts.items ≡ count_of (resolution_of table.now) s above) }
    ensures lifts { (above : ℕ) → t ≡ bottom_of table.now.resolved +ℤ pos above →
        IfOk result (λ lifts. (j : ℕ) → j < length lifts.items →
        IsLiftOver table.now sphere.now s above j upto (slice_index_or lifts.items j no_lift)) }
{
    let above = above_at(table, s, t);
    let count = table.images_of(s, above).len();
    lifts_of(alloc, table, sphere, s, above, 0, count, upto)
}

/// Lifts of `count` classes of the square in row `s`, `above` degrees above the bottom, from its number `from` on.
fn lifts_of(
    alloc: Global,
    table: &Source<'_>,
    sphere: &Table,
    s: u16,
    above: u16,
    from: usize,
    count: usize,
    upto: u16,
) -> Result<Vec<Lift>, Memory>
    requires sphere { IsSphere (resolution_of sphere.now) }
    requires is_table { IsTable table.now }
    requires there { above < length (row_in table.now.rows s) }
    requires classes { from + count ≤ count_of (resolution_of table.now) s above }
    requires small { from + count ≤ 2 ^ 64 }
    ensures one_each { IfOk result (λ lifts. length lifts.items ≡ count) }
    ensures lifts { IfOk result (λ lifts. (j : ℕ) → j < length lifts.items →
        IsLiftOver table.now sphere.now s above (from + j) upto (slice_index_or lifts.items j no_lift)) }
{
    let course = Course {
        table,
        sphere,
        s,
        above,
        reach: degrees_through(table, sphere, s, above, upto),
        far: sphere.front(upto) as u16,
    };
    let lifts = empty_lifts(alloc, table.module().bottom(), count)?;
    with_rows(alloc, &course, from, upto, lifts)
}

/// How many degrees the square in row `s` and of degree `t` is above the bottom.
fn above_at(table: &Source<'_>, s: u16, t: i32) -> u16
    requires { IsSquareOf table.now s t }
    ensures above { t ≡ bottom_of table.now.resolved +ℤ pos result }
    ensures there { result < length (row_in table.now.rows s) }
    ensures is_table { IsTable table.now }
{
    let _front = table.front(s);
    match above_of(table.module().bottom(), t) {
        Some(above) => above as u16,
        None => unreachable!(),
    }
}

/// So many lifts without a row.
fn empty_lifts(alloc: Global, bottom: i32, count: usize) -> Result<Vec<Lift>, Memory>
    ensures { IfOk result (λ lifts. lifts.items ≡ replicate count (record { bottom = bottom; rows = [] })) }
{
    let mut lifts = Vec::new(alloc);
    for _ in 0..count {
        lifts.push(Lift::new(alloc, bottom))?;
    }
    Ok(lifts)
}

/// These lifts, which have no row, with all their rows.
fn with_rows(
    alloc: Global,
    course: &Course<'_>,
    from: usize,
    upto: u16,
    mut lifts: Vec<Lift>,
) -> Result<Vec<Lift>, Memory>
    requires sphere { IsSphere (resolution_of course.now.sphere.now) }
    requires is_table { IsTable course.now.table.now }
    requires is_sphere_table { IsTable course.now.sphere.now }
    requires there { course.now.above < length (row_in course.now.table.now.rows course.now.s) }
    requires reach { course.now.reach
        ≡ degrees_through course.now.table.now course.now.sphere.now course.now.s course.now.above upto }
    requires far { course.now.far ≡ length (row_in course.now.sphere.now.rows upto) }
    requires classes { from + length lifts.items
        ≤ count_of (resolution_of course.now.table.now) course.now.s course.now.above }
    requires small { from + length lifts.items ≤ 2 ^ 64 }
    requires empty { (j : ℕ) → j < length lifts.items →
        slice_index_or lifts.items j no_lift ≡ record { bottom = bottom_of course.now.table.now.resolved; rows = [] } }
    ensures one_each { IfOk result (λ more. length more.items ≡ length lifts.items) }
    ensures lifts { IfOk result (λ more. (j : ℕ) → j < length more.items →
        IsLiftOver course.now.table.now course.now.sphere.now course.now.s course.now.above (from + j) upto
        (slice_index_or more.items j no_lift)) }
{
    resolution_laws::canonical_table_is_minimal_resolution();
    finite_module::modules_are_graded_modules();
    // Where a square has no classes, nothing of the sphere's resolution is inverted.
    if lifts.is_empty() {
        return Ok(lifts);
    }
    if course.reach == 0 {
        return Ok(lifts);
    }
    add_rows(alloc, course, from, upto, &mut lifts)?;
    Ok(lifts)
}

/// How many degrees a lift goes through, from the bottom of the module's table on.
fn degrees_through(table: &Source<'_>, sphere: &Table, s: u16, above: u16, upto: u16) -> u16
    requires { IsTable table.now }
    ensures { result ≡ degrees_through table.now sphere.now s above upto }
{
    let far = sphere.front(upto);
    if far == 0 {
        return 0;
    }
    // Above the last row there is none.
    let Some(row) = s.checked_add(upto) else {
        return 0;
    };
    table.front(row).min(usize::from(above) + far) as u16
}

/// The rows of all maps through map `upto`.
fn add_rows(
    alloc: Global,
    course: &Course<'_>,
    from: usize,
    upto: u16,
    lifts: &mut Vec<Lift>,
) -> Result<(), Memory>
    requires sphere { IsSphere (resolution_of course.now.sphere.now) }
    requires reaches { Reaches course.now.table.now course.now.sphere.now course.now.s course.now.above upto
        course.now.reach course.now.far }
    requires classes { from + length lifts.old.items
        ≤ count_of (resolution_of course.now.table.now) course.now.s course.now.above }
    requires small { from + length lifts.old.items ≤ 2 ^ 64 }
    requires made { AreMadeLifts course.now.table.now course.now.sphere.now course.now.s course.now.above
        course.now.reach course.now.far from 0 lifts.old.items }
    ensures one_each { OnOk result (length lifts.new.items ≡ length lifts.old.items) }
    ensures made { OnOk result (AreMadeLifts course.now.table.now course.now.sphere.now course.now.s course.now.above
        course.now.reach course.now.far from (upto + 1) lifts.new.items) }
{
    for k in 0..upto + 1 {
        add_row(alloc, course, from, k, lifts)?;
    }
    Ok(())
}

/// The row of map `k`, of each lift. The quasi-inverses of the row are held while it is made; if a square kept its
/// reduction, its quasi-inverse is a copy of that.
fn add_row(
    alloc: Global,
    course: &Course<'_>,
    from: usize,
    k: u16,
    lifts: &mut Vec<Lift>,
) -> Result<(), Memory>
    requires sphere { IsSphere (resolution_of course.now.sphere.now) }
    requires reaches { Reaches course.now.table.now course.now.sphere.now course.now.s course.now.above k
        course.now.reach course.now.far }
    requires classes { from + length lifts.old.items
        ≤ count_of (resolution_of course.now.table.now) course.now.s course.now.above }
    requires small { from + length lifts.old.items ≤ 2 ^ 64 }
    requires made { AreMadeLifts course.now.table.now course.now.sphere.now course.now.s course.now.above
        course.now.reach course.now.far from k lifts.old.items }
    ensures one_each { OnOk result (length lifts.new.items ≡ length lifts.old.items) }
    ensures made { OnOk result (AreMadeLifts course.now.table.now course.now.sphere.now course.now.s course.now.above
        course.now.reach course.now.far from (k + 1) lifts.new.items) }
{
    let inverses = course.inverses(alloc, k)?;
    for j in 0..lifts.len() {
        let row = course.row(alloc, k, &inverses, from + j, &lifts[j])?;
        lifts[j].push(row)?;
    }
    Ok(())
}
