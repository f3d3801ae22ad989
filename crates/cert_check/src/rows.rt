//! Lists of vectors, compared.
ghost use Rattle.std.specs.Prelude.{◌≡◌, ◌<◌, ◌↔◌, IsTrue};
ghost use Rattle.f2_vec.specs.Spans.{unit_vector, unit_vectors};
ghost use Rattle.cert_check.specs.Inside.Rows.{EndInZeros};

use f2_vec::BitVec;

/// Whether two vectors are equal.
fn is_same(a: &BitVec, b: &BitVec) -> bool
    ensures { IsTrue result ↔ (a.now ≡ b.now) }
{
    if a.len() != b.len() {
        return false;
    }
    for i in 0..a.len().div_ceil(64) {
        if a.word(i) != b.word(i) {
            return false;
        }
    }
    true
}

/// Whether two lists of vectors are equal.
pub fn are_same(a: &[BitVec], b: &[BitVec]) -> bool
    ensures { IsTrue result ↔ (a.now ≡ b.now) }
{
    if a.len() != b.len() {
        return false;
    }
    for i in 0..a.len() {
        if !is_same(&a[i], &b[i]) {
            return false;
        }
    }
    true
}

/// Whether the vector is the unit vector of length `n` with its 1 at place `i`.
fn is_unit(v: &BitVec, n: usize, i: usize) -> bool
    requires { i < n }
    ensures { IsTrue result ↔ (v.now ≡ unit_vector n i) }
{
    if v.len() != n {
        return false;
    }
    match v.first_one() {
        Some(first) => first == i && v.next_one(i + 1).is_none(),
        None => false,
    }
}

/// Whether the vectors are the unit vectors of length `n`, in order.
pub(crate) fn are_units(rows: &[BitVec], n: usize) -> bool
    ensures { IsTrue result ↔ (rows.now ≡ unit_vectors n) }
{
    if rows.len() != n {
        return false;
    }
    for i in 0..n {
        if !is_unit(&rows[i], n, i) {
            return false;
        }
    }
    true
}

/// Whether the last `count` coordinates of each vector are 0, and all of a vector that has fewer.
pub(crate) fn end_in_zeros(rows: &[BitVec], count: usize) -> bool
    ensures { IsTrue result ↔ EndInZeros count rows.now }
{
    for v in rows {
        if v.next_one(v.len().saturating_sub(count)).is_some() {
            return false;
        }
    }
    true
}
