//! How a chart file is opened, and how a part is put into it.
ghost use Rattle.std.specs.Prelude.{◌≡◌, ◌≢◌, ◌⊎◌, ℕ, ◌≤◌, List, [], ◌∷◌, ◌++◌, false, All, Err, IfOk, IfErr, IfSome, OnOk, OnErr, MatchResult};
ghost use Rattle.std.specs.Option.{option_map};
ghost use Rattle.edge.specs.Disk.{LeavesOnly, HavePast, AreTold};
ghost use Rattle.edge.specs.Faults.{HasRisen};
ghost use Rattle.save_journal.specs.Records.{opened};
ghost use Rattle.save_journal.specs.Journals.{IsLive, HasRecordsOf, HaveSameRecords, ComeFromEarlier};
ghost use Rattle.chart_file.specs.Parts.{Part, IsPart};
ghost use Rattle.chart_file.specs.Files.{HasParts};
ghost use Rattle.chart_keep.specs.Files.{IsRefused, HasPartsOrMore};
ghost use Rattle.chart_keep.specs.declared.fault.ChartFault.TheVariants.{Failed as DiskFailed, Memory as OutOfMemory};
ghost use Rattle.chart_keep.specs.declared.fault.KeepFault.TheVariants.{Failed as KeepFailed, Memory as KeepMemory};

use crate::fault::{ChartFault, KeepFault};
use chart_file::{ColumnPart, framed_part, parts_of};
use edge::Disk;
use save_journal::Journal;
use std::alloc::Global;

/// Opens the chart file that the disk holds, whose records are to belong to this digest (`chart_digest`), and answers the
/// journal with the parts that the file has, in order.
///
/// The disk is synced first. A file of at most 41 bytes, which has no room for a record, is written anew, unless it is what it
/// would be then; a longer one is left as it is.
///
/// # Errors
/// Each comes with the disk, on which a refusal writes nothing. `Failed` if the disk failed, `Memory` if allocation fails, and
/// otherwise the refusal of the file: that of its records, or `Strange` with the first of them whose body is no part.
pub fn open_chart<D: Disk>(
    alloc: Global,
    disk: D,
    digest: [u8; 32],
) -> Result<(Journal<D>, Vec<ColumnPart>), (ChartFault, D)>
    ensures live { IfOk result (λ r. IsLive D.now D.images r.0) }
    ensures digest { IfOk result (λ r. r.0.digest ≡ digest) }
    ensures parts { IfOk result (λ r. IfSome (D.now r.0.disk) (HasParts digest r.1.items)) }
    ensures are { IfOk result (λ r. All IsPart r.1.items) }
    ensures file { IfOk result (λ r. D.now r.0.disk ≡ option_map (opened digest) (D.now disk)) }
    ensures refused { IfErr result (λ e. (e.0 ≡ DiskFailed) ⊎ (e.0 ≡ OutOfMemory)
        ⊎ IfSome (D.now disk) (IsRefused digest e.0)) }
    ensures same { IfErr result (λ e. e.0 ≢ DiskFailed → e.0 ≢ OutOfMemory → D.now e.1 ≡ D.now disk) }
    ensures time { MatchResult result (λ r. LeavesOnly D.moment D.since disk r.0.disk (λ _. Unit {0}))
        (λ e. LeavesOnly D.moment D.since disk e.1 (λ _. Unit {0})) }
    ensures any_moment { IfSome (D.now disk) (λ _. MatchResult result
        (λ r. LeavesOnly D.moment D.since disk r.0.disk (HasRecordsOf digest (D.images disk)))
        (λ e. LeavesOnly D.moment D.since disk e.1 (HasRecordsOf digest (D.images disk)))) }
    ensures past { MatchResult result (λ r. HavePast D.moment D.images_at disk r.0.disk)
        (λ e. HavePast D.moment D.images_at disk e.1) }
    ensures retained { IfSome (D.now disk) (λ _. MatchResult result
        (λ r. ComeFromEarlier D.moment D.images_at disk r.0.disk (HaveSameRecords digest))
        (λ e. ComeFromEarlier D.moment D.images_at disk e.1 (HaveSameRecords digest))) }
    ensures no_fault { IfOk result (λ r. D.faults r.0.disk ≡ D.faults disk) }
    ensures quiet { IfErr result (λ e. e.0 ≢ DiskFailed → D.faults e.1 ≡ D.faults disk) }
    ensures never_fall { IfErr result (λ e. D.faults disk ≤ D.faults e.1) }
    ensures cause { IfErr result (λ e. e.0 ≡ DiskFailed → HasRisen (D.faults disk) (D.faults e.1)) }
{
    let (journal, bodies) = match Journal::open(alloc, disk, digest) {
        Ok(opened) => opened,
        Err((fault, disk)) => return Err((ChartFault::from(fault), disk)),
    };
    match parts_of(alloc, bodies.as_slice()) {
        Ok(parts) => Ok((journal, parts)),
        Err(fault) => Err((ChartFault::from(fault), journal.into_disk())),
    }
}

/// Puts a part at the end of the file. Once it has answered Ok, each image has it. The parts that each image had before are in
/// each image at every moment of the call.
///
/// # Errors
/// `Failed` if the disk failed; the journal is then no longer live, and the file has the parts that it had, or those and this
/// one. `Memory` if allocation fails; it is then as before.
pub fn keep_part<D: Disk>(
    alloc: Global,
    journal: &mut Journal<D>,
    part: &ColumnPart,
) -> Result<(), KeepFault>
    requires { IsLive D.now D.images journal.old }
    ensures live { OnOk result (IsLive D.now D.images journal.new) }
    ensures kept { OnOk result (AreTold (λ file f. (ps : List Part) → HasParts journal.old.digest ps file →
        HasParts journal.old.digest (ps ++ part.now ∷ []) f) (D.now journal.old.disk) (D.now journal.new.disk)) }
    ensures durable { OnOk result (IfSome (D.now journal.old.disk) (λ file. (ps : List Part) →
        HasParts journal.old.digest ps file → (c : List ℕ) → D.images journal.new.disk c →
        HasParts journal.old.digest (ps ++ part.now ∷ []) c)) }
    ensures dead { result ≡ Err KeepFailed → journal.new.live ≡ false }
    ensures told { AreTold (λ file f. (ps : List Part) → HasParts journal.old.digest ps file →
        HasPartsOrMore journal.old.digest ps part.now f) (D.now journal.old.disk) (D.now journal.new.disk) }
    ensures any_moment { IfSome (D.now journal.old.disk) (λ file. (ps : List Part) → HasParts journal.old.digest ps file →
        LeavesOnly D.moment D.since journal.old.disk journal.new.disk (HasPartsOrMore journal.old.digest ps part.now)) }
    ensures retained { IfSome (D.now journal.old.disk) (λ _. ComeFromEarlier D.moment D.images_at journal.old.disk
        journal.new.disk (λ d c. (ps : List Part) → HasParts journal.old.digest ps d →
        HasPartsOrMore journal.old.digest ps part.now c)) }
    ensures time { LeavesOnly D.moment D.since journal.old.disk journal.new.disk (λ _. Unit {0}) }
    ensures past { HavePast D.moment D.images_at journal.old.disk journal.new.disk }
    ensures same { journal.new.digest ≡ journal.old.digest }
    ensures memory { result ≡ Err KeepMemory → journal.new ≡ journal.old }
    ensures never_fall { D.faults journal.old.disk ≤ D.faults journal.new.disk }
    ensures no_fault { OnOk result (D.faults journal.new.disk ≡ D.faults journal.old.disk) }
    ensures cause { result ≡ Err KeepFailed →
        HasRisen (D.faults journal.old.disk) (D.faults journal.new.disk) }
{
    let Ok(framed) = framed_part(alloc, part) else {
        return Err(KeepFault::Memory);
    };
    match journal.append(&framed) {
        Ok(()) => Ok(()),
        Err(_) => Err(KeepFault::Failed),
    }
}
