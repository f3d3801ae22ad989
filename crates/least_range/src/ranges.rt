//! How far a product and a bracket ask a module's resolution, and that of the sphere.
ghost use Rattle.std.specs.Prelude.{◌≡◌, ◌<◌, ◌≤◌, ◌^◌};
ghost use Rattle.bidegree.specs.declared.range.TheConstants.{MAX_S, MAX_T};
ghost use Rattle.least_range.specs.Least.{height, range_to, product_range, bracket_range};

use bidegree::{Class, MAX_S, MAX_T, Range, above_of};

/// How many degrees the class is above the bottom, and 0 where it is below.
fn height(bottom: i32, class: Class) -> u64
    ensures height { result ≡ height bottom class }
    ensures small { result < 2 ^ 32 }
{
    match above_of(bottom, class.t) {
        Some(above) => above,
        None => 0,
    }
}

/// Through this row and this degree above the bottom, as far as ranges go.
fn range_to(s: u64, t: u64) -> Range
    ensures { result ≡ range_to s t }
{
    Range {
        s: s.min(u64::from(MAX_S)) as u16,
        t: t.min(u64::from(MAX_T)) as u16,
    }
}

/// How far the product of the class `a` of the sphere and the class `x` of a module with this bottom asks their resolutions: the least
/// range that has the squares of both and of the product, and as much of that as ranges go.
pub fn product_range(bottom: i32, a: Class, x: Class) -> Range
    ensures range { result ≡ product_range bottom a x }
    ensures rows { result.s ≤ MAX_S }
    ensures degrees { result.t ≤ MAX_T }
{
    range_to(
        u64::from(a.s) + u64::from(x.s),
        height(0, a) + height(bottom, x),
    )
}

/// How far the bracket of the classes `a` and `b` of the sphere and the class `c` of a module with this bottom asks their resolutions: the
/// least range that has the squares of the three, of ab, of bc and of the bracket, and as much of that as ranges go.
pub fn bracket_range(bottom: i32, a: Class, b: Class, c: Class) -> Range
    ensures range { result ≡ bracket_range bottom a b c }
    ensures rows { result.s ≤ MAX_S }
    ensures degrees { result.t ≤ MAX_T }
{
    let ab = u64::from(a.s) + u64::from(b.s);
    let bc = u64::from(b.s) + u64::from(c.s);
    let value = (ab + u64::from(c.s)).saturating_sub(1);
    range_to(
        ab.max(bc).max(value),
        height(0, a) + height(0, b) + height(bottom, c),
    )
}
