//! Whether a table certifies a range.
ghost use Rattle.std.specs.Prelude.{◌≡◌, ℕ, ◌+◌, ◌<◌, ◌≤◌, ◌↔◌, length, IsTrue, IsOk, OnOk, IfErr, Err};
ghost use Rattle.resolution_laws.specs.Resolution.{candidates_over, below_of};
ghost use Rattle.resolution_laws.specs.Exactness.{IsMinimalResolution};
ghost use Rattle.square.specs.Squares.{over};
ghost use Rattle.square.specs.Tables.{row_in, plain_rows, IsTable};
ghost use Rattle.cert_check.specs.Inside.Rows.{EndInZeros};
ghost use Rattle.cert_check.specs.Certified.{part_of, Certifies, IsCertified, AreCertifiedBefore, IsFirstFault, HasCanonicalCounts};

use crate::fault::CertFault;
use crate::rows::{are_same, are_units, end_in_zeros};
use bidegree::Range;
use f2_vec::BitVec;
use square::{Square, Table};

/// Whether the table certifies the range: each square of it is there with a quasi-inverse, whose image rows are the
/// kernel rows of the square below, or for row 0 the unit vectors of the module, and no kernel row has a coefficient at
/// a generator. The part of the table in the range then is a minimal resolution, with as many generators at each square
/// as the canonical one. Vectors are compared, nothing is reduced, and no memory is taken.
///
/// # Errors
/// The first square that is not certified, by row and in a row by degree, with the first reason there: it is not there,
/// it has no quasi-inverse, d_s is not exact there, or one of its generators is superfluous.
pub fn verify(table: &Table, range: Range) -> Result<(), CertFault>
    ensures ok { IsOk result ↔ Certifies table.now range }
    ensures fault { (fault : CertFault) → (result ≡ Err fault) ↔ IsFirstFault table.now range fault }
    ensures minimal { OnOk result
        (IsMinimalResolution (over table.now.resolved) range.s range.t (part_of table.now range)) }
    ensures counts { OnOk result (HasCanonicalCounts table.now range) }
{
    finite_module::modules_are_graded_modules();
    resolution_existence::canonical_table_exists();
    certificate_laws::minimal_table_is_minimal_resolution();
    certificate_laws::minimal_table_has_canonical_counts();
    first_fault(table, range)
}

/// The first square that is not certified, if there is one.
fn first_fault(table: &Table, range: Range) -> Result<(), CertFault>
    ensures ok { OnOk result (Certifies table.now range) }
    ensures fault { IfErr result (λ fault. IsFirstFault table.now range fault) }
    ensures is_table { IsTable table.now }
{
    let _rows = table.front(0);
    for s in 0..=range.s {
        check_row(table, range, s)?;
    }
    Ok(())
}

/// The first square of row `s` that is not certified, if there is one, where those of the rows below are.
fn check_row(table: &Table, range: Range, s: u16) -> Result<(), CertFault>
    requires row { s ≤ range.s }
    requires before { AreCertifiedBefore table.now range s 0 }
    ensures ok { OnOk result (AreCertifiedBefore table.now range (s + 1) 0) }
    ensures fault { IfErr result (λ fault. IsFirstFault table.now range fault) }
{
    for above in 0..=range.t {
        check_square(table, range, s, above)?;
    }
    Ok(())
}

/// What is wrong with a square, if it is not certified, where those before it are.
fn check_square(table: &Table, range: Range, s: u16, above: u16) -> Result<(), CertFault>
    requires row { s ≤ range.s }
    requires degree { above ≤ range.t }
    requires before { AreCertifiedBefore table.now range s above }
    ensures ok { OnOk result (IsCertified table.now range s above) }
    ensures fault { IfErr result (λ fault. IsFirstFault table.now range fault) }
{
    let t = table.module().bottom() + i32::from(above);
    let Some(square) = table.square(s, above) else {
        return Err(CertFault::Missing { s, t });
    };
    let Some(quasi) = square.kept_quasi() else {
        return Err(CertFault::NoQuasi { s, t });
    };
    if !covers(table, s, above, quasi.image()) {
        return Err(CertFault::Inexact { s, t });
    }
    let clear = is_clear(square);
    if !clear {
        return Err(CertFault::NotMinimal { s, t });
    }
    Ok(())
}

/// Whether the rows are what d_s has to cover, `above` degrees above the bottom: the unit vectors of the module for row
/// 0, and else the kernel rows of the square below.
fn covers(table: &Table, s: u16, above: u16, rows: &[BitVec]) -> bool
    requires { above < length (row_in table.now.rows s) }
    ensures { IsTrue result ↔
        (rows.now ≡ candidates_over (over table.now.resolved) (below_of (plain_rows table.now.rows) s above) above) }
{
    if s == 0 {
        let t = table.module().bottom() + i32::from(above);
        return are_units(rows, table.module().dim_in(t));
    }
    match table.square(s - 1, above) {
        Some(below) => are_same(rows, below.kernel()),
        None => unreachable!(),
    }
}

/// Whether no kernel row of the square has a 1 at one of its generators, which stand last in the basis of its degree.
fn is_clear(square: &Square) -> bool
    ensures { IsTrue result ↔ EndInZeros (length square.now.content.images) square.now.content.kernel }
{
    end_in_zeros(square.kernel(), square.gens().len())
}
