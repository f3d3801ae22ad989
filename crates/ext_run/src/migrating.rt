//! A save file is brought up to date: each of its squares gets its quasi-inverse.
ghost use Rattle.std.specs.Prelude.{◌≡◌, ℕ, ◌≤◌, ◌↔◌, ◌⊎◌, IfSome, IfNone, Err, IfOk, IfErr, OnOk, IsOk};
ghost use Rattle.bidegree.specs.declared.range.TheConstants.{MAX_S, MAX_T};
ghost use Rattle.square.specs.declared.keep.KeepFault as KeepFault;
ghost use Rattle.square.specs.Tables.{square_at, IsTable, IsQuasiAt, LacksQuasi};
ghost use Rattle.ext_chart.specs.Files.{migrated_line};
ghost use Rattle.ext_report.specs.declared.failure.Failure.TheVariants.{Saving, Memory as WantOfMemory};
ghost use Rattle.ext_run.specs.declared.task.Task.TheVariants.{Migration};
ghost use Rattle.ext_run.specs.Devices.{store_of};
ghost use Rattle.ext_run.specs.Plan.{migrating};
ghost use Rattle.ext_run.specs.Work.{HasUsed};
ghost use Rattle.ext_run.specs.Inside.Adding.{IsFileOf, IsLeftOut, HasFilled};

use crate::texts::leave;
use bidegree::{MAX_S, MAX_T};
use cert_check::are_same;
use edge::Disk;
use ext_chart::migrated_line;
use ext_report::Failure;
use f2_matrix::Reduced;
use finite_module::Module;
use memory::Memory;
use module_check::modules_are_graded_modules;
use resolution_laws::canonical_table_is_minimal_resolution;
use save_file::{SaveFile, may_be_exact, quasi_by_inverse, resume};
use square::{KeepFault, Table};
use std::alloc::Global;

/// The line on a save file that was brought up to date, once the quasi-inverse of each square that the file has without one stands
/// behind its records, row by row and in a row by degree. A square whose kernel rows are not those of its quasi-inverse is left
/// out, and one at which d_s is not exact may be: a file that runs of this program have left has none. The disk is handed back.
pub(crate) fn migrated<D: Disk>(
    alloc: Global,
    module: Module,
    disk: D,
) -> (Result<Vec<u8>, Failure>, D)
    ensures { HasUsed (store_of D.now D.moment D.images D.images_at D.since D.faults) migrating «module».plain
        (Migration «module») result.0 disk result.1 }
{
    canonical_table_is_minimal_resolution();
    modules_are_graded_modules();
    match resume(alloc, module, disk) {
        Ok((mut table, mut keeper)) => {
            let _rows = table.front(0); // It is a table, which proofs learn here.
            let filled = fill(alloc, &mut table, &mut keeper);
            leave(table);
            (line_after(alloc, filled), keeper.into_disk())
        }
        Err((fault, disk)) => (Err(Failure::from(fault)), disk),
    }
}

/// The line, if all went well.
fn line_after(alloc: Global, filled: Result<(), KeepFault>) -> Result<Vec<u8>, Failure>
    ensures line { IfOk result (λ text. text.items ≡ migrated_line) }
    ensures done { OnOk result (IsOk filled) }
    ensures failed { (result ≡ Err Saving) ↔ (filled ≡ Err KeepFault.Failed) }
    ensures why { IfErr result (λ e. (e ≡ Saving) ⊎ (e ≡ WantOfMemory)) }
{
    match filled {
        Ok(()) => Ok(migrated_line(alloc)?),
        Err(KeepFault::Failed) => Err(Failure::Saving),
        Err(KeepFault::Memory) => Err(Failure::Memory),
    }
}

/// Gives each square of the table that has none its quasi-inverse, and the file too, which has the squares of the table.
///
/// # Errors
/// `Failed` if the disk failed, and `Memory` if allocation fails. Those that were given stay.
fn fill<D: Disk>(alloc: Global, table: &mut Table, file: &mut SaveFile<D>) -> Result<(), KeepFault>
    requires { IsFileOf (store_of D.now D.moment D.images D.images_at D.since D.faults) table.old file.old }
    ensures { HasFilled (store_of D.now D.moment D.images D.images_at D.since D.faults) (λ s k. s ≤ MAX_S)
        result table.old table.new file.old file.new }
{
    for s in 0..=MAX_S {
        fill_row(alloc, table, s, file)?;
    }
    Ok(())
}

/// Gives the squares of row `s` that have none their quasi-inverses, and the file too.
///
/// # Errors
/// `Failed` if the disk failed, and `Memory` if allocation fails. Those that were given stay.
fn fill_row<D: Disk>(
    alloc: Global,
    table: &mut Table,
    s: u16,
    file: &mut SaveFile<D>,
) -> Result<(), KeepFault>
    requires row { s ≤ MAX_S }
    requires file { IsFileOf (store_of D.now D.moment D.images D.images_at D.since D.faults) table.old file.old }
    ensures { HasFilled (store_of D.now D.moment D.images D.images_at D.since D.faults) (λ i k. i ≡ s)
        result table.old table.new file.old file.new }
{
    for above in 0..=MAX_T {
        fill_square(alloc, table, s, above, file)?;
    }
    Ok(())
}

/// Gives the square `above` degrees above the bottom in row `s` its quasi-inverse, if it is there and has none, and the file too.
///
/// # Errors
/// `Failed` if the disk failed, and `Memory` if allocation fails.
fn fill_square<D: Disk>(
    alloc: Global,
    table: &mut Table,
    s: u16,
    above: u16,
    file: &mut SaveFile<D>,
) -> Result<(), KeepFault>
    requires row { s ≤ MAX_S }
    requires degree { above ≤ MAX_T }
    requires file { IsFileOf (store_of D.now D.moment D.images D.images_at D.since D.faults) table.old file.old }
    ensures { HasFilled (store_of D.now D.moment D.images D.images_at D.since D.faults) (λ i k. (i ≡ s) × (k ≡ above))
        result table.old table.new file.old file.new }
{
    canonical_table_is_minimal_resolution();
    modules_are_graded_modules();
    let t = table.degree(above);
    let Some(quasi) = lacking(alloc, table, s, t)? else {
        return Ok(());
    };
    let Ok(()) = table.add_quasi(alloc, s, t, quasi) else {
        return Err(KeepFault::Memory);
    };
    file.keep_quasi(table, s, t)
}

/// The quasi-inverse of a square that has none, if the square is there and its kernel rows are those of the quasi-inverse. It may be
/// none where d_s is not exact, by the kernel rows of the table: so a great matrix is not made for few rows.
///
/// # Errors
/// `Memory` if allocation fails.
fn lacking(alloc: Global, table: &Table, s: u16, t: i32) -> Result<Option<Reduced>, Memory>
    ensures lacks { IfOk result (λ found. IfSome found (λ quasi. LacksQuasi table.now s t quasi)) }
    ensures quasi { IfOk result (λ found. IfSome found (λ quasi. IsQuasiAt table.now s t quasi)) }
    ensures none { IfOk result
        (λ found. IfNone found (IfSome (square_at table.now s t) (IsLeftOut table.now s t))) }
    ensures is_table { IsTable table.now }
{
    let Some(square) = table.at(s, t) else {
        return Ok(None);
    };
    if square.kept_quasi().is_some() {
        return Ok(None);
    }
    let may = may_be_exact(alloc, table, s, t)?;
    if !may {
        return Ok(None);
    }
    let quasi = quasi_by_inverse(alloc, table, s, t)?;
    if are_same(quasi.kernel(), square.kernel()) {
        Ok(Some(quasi))
    } else {
        Ok(None)
    }
}
