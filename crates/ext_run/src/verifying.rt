//! The chart of a save file that is a certificate of it.
ghost use Rattle.std.specs.Prelude.{◌≡◌, ◌⊎◌, Err, IfOk, IfErr, OnOk};
ghost use Rattle.cert_check.specs.declared.fault.CertFault.{CertFault};
ghost use Rattle.cert_check.specs.Certified.{Certifies, IsFirstFault};
ghost use Rattle.square.specs.Tables.{IsTable};
ghost use Rattle.ext_words.specs.Words.{IsRangeWithin};
ghost use Rattle.ext_report.specs.declared.failure.Failure.TheVariants.{Certificate, Memory as WantOfMemory};
ghost use Rattle.ext_run.specs.declared.task.Task.TheVariants.{Verification};
ghost use Rattle.ext_run.specs.Devices.{store_of};
ghost use Rattle.ext_run.specs.Plan.{verifying};
ghost use Rattle.ext_run.specs.Forms.{IsVerifiedChart};
ghost use Rattle.ext_run.specs.Work.{HasUsed};

use crate::texts::leave;
use bidegree::Range;
use cert_check::verify;
use edge::Disk;
use ext_chart::verified_chart;
use ext_report::Failure;
use finite_module::Module;
use module_check::modules_are_graded_modules;
use resolution_existence::canonical_table_exists;
use resolution_laws::canonical_table_is_minimal_resolution;
use save_file::resume;
use square::Table;
use std::alloc::Global;

/// The chart of the module's resolution through the range, with how many squares that has, made of the module's save file alone, if
/// the file is a certificate of it. No square is made, and nothing is put behind the records of the file. The disk is handed back.
pub(crate) fn verified<D: Disk>(
    alloc: Global,
    module: Module,
    range: Range,
    disk: D,
) -> (Result<Vec<u8>, Failure>, D)
    requires { IsRangeWithin range }
    ensures { HasUsed (store_of D.now D.moment D.images D.images_at D.since D.faults) (verifying range) «module».plain
        (Verification «module» range) result.0 disk result.1 }
{
    match resume(alloc, module, disk) {
        Ok((table, keeper)) => {
            let text = certified_chart(alloc, &table, range);
            leave(table);
            (text, keeper.into_disk())
        }
        Err((fault, disk)) => (Err(Failure::from(fault)), disk),
    }
}

/// The chart of a table that certifies the range. Nothing but the chart takes memory, so that a table that does not is told as one
/// whatever memory there is.
///
/// # Errors
/// `Certificate` with the first fault of a table that does not certify the range, and `Memory` if allocation fails.
fn certified_chart(alloc: Global, table: &Table, range: Range) -> Result<Vec<u8>, Failure>
    requires { IsRangeWithin range }
    ensures text { IfOk result (λ text. IsVerifiedChart range table.now.resolved.plain text.items) }
    ensures certified { OnOk result (Certifies table.now range) }
    ensures refused { (fault : CertFault) → IsFirstFault table.now range fault → result ≡ Err (Certificate fault) }
    ensures why { IfErr result (λ e. (e ≡ WantOfMemory)
        ⊎ ((fault : CertFault) × (e ≡ Certificate fault) × IsFirstFault table.now range fault)) }
    ensures is_table { IsTable table.now }
{
    canonical_table_exists();
    canonical_table_is_minimal_resolution();
    modules_are_graded_modules();
    let _rows = table.front(0); // It is a table, which proofs learn here.
    verify(table, range)?;
    Ok(verified_chart(alloc, table, range)?)
}
