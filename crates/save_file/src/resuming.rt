//! How a save file is taken up.
ghost use Rattle.std.specs.Prelude.{◌≡◌, ◌≢◌, ◌⊎◌, ℕ, ◌+◌, ◌^◌, ◌<◌, ◌≤◌, [], length, ◌++◌, ◌∷◌, Some, None, Ok, Err, IfOk, IfErr, IfSome, OnOk, OnErr, IsOk, MatchResult};
ghost use Rattle.std.specs.Option.{option_map};
ghost use Rattle.bidegree.specs.declared.range.TheConstants.{MAX_S};
ghost use Rattle.edge.specs.Disk.{LeavesOnly, HavePast};
ghost use Rattle.edge.specs.Faults.{HasRisen};
ghost use Rattle.finite_module.specs.Text.{canonical_text};
ghost use Rattle.square.specs.Squares.{entry_of, over};
ghost use Rattle.square.specs.Tables.{AllRead, IsNext, IsTable};
ghost use Rattle.save_file.specs.Bodies.{kept_of};
ghost use Rattle.square.specs.Keeping.{IsKeeperOf};
ghost use Rattle.save_journal.specs.Records.{encoded, opened};
ghost use Rattle.save_journal.specs.Journals.{HasRecordsOf, HaveSameRecords, ComeFromEarlier, contents};
ghost use Rattle.save_journal.specs.declared.fault.OpenFault.TheVariants.{Failed as DiskFailed, Memory as OpenMemory};
ghost use Rattle.save_file.specs.Reading.{after_body, kept_from};
ghost use Rattle.save_file.specs.Saved.{kept_of_table};
ghost use Rattle.save_file.specs.Files.{digest_of, standing_of};
ghost use Rattle.save_file.specs.Inside.Taking.{body_refusal, IsStrange};
ghost use Rattle.save_file.specs.Saving.{TakesSquares, kept_in, quasis_in, telling_of};
ghost use Rattle.save_file.specs.declared.fault.DecodeFault.TheVariants.{Strange as StrangeBody, Memory as WantOfMemory};
ghost use Rattle.save_file.specs.declared.fault.ResumeFault.TheVariants.{Open, Memory as OutOfMemory};

use crate::body::Body;
use crate::fault::{DecodeFault, ResumeFault};
use crate::reading::decode;
use crate::saving::SaveFile;
use edge::Disk;
use finite_module::Module;
use memory::Memory;
use save_journal::Journal;
use sha2::{Digest, Sha256};
use square::{Square, Table};
use std::alloc::Global;
use std::mem::replace;
use std::snapshot::Snapshot;
use std::sync::Arc;

/// Takes up the save file of a module that the disk holds: the table of its squares, all of them read, with the quasi-inverses that the
/// file keeps, and the keeper that puts more squares behind them.
///
/// The file's records belong to SHA-256 of the module's canonical text. A file of at most 41 bytes has no room for a record, and is
/// written anew, unless it is what it would be then; a longer one is left as it is.
///
/// # Errors
/// Each comes with the disk, on which a refusal writes nothing. `Open` with `Failed` if the disk failed, `Memory` if allocation fails,
/// and otherwise the refusal of the file: `Open` with that of its records, or `Strange` with the number and the place of the first
/// record whose body is no square that may stand behind those before it, and no quasi-inverse of one of these. If the journal could
/// not be opened for lack of memory, that is `Memory`, and never `Open` with it.
pub fn resume<D: Disk>(
    alloc: Global,
    module: Module,
    disk: D,
) -> Result<(Table, SaveFile<D>), (ResumeFault, D)>
    ensures squares { IfOk result (λ r. IfSome (D.now disk) (λ file. standing_of «module».plain file ≡ Ok r.0.start)) }
    ensures resolved { IfOk result (λ r. r.0.resolved ≡ «module») }
    ensures all_read { IfOk result (λ r. AllRead r.0.rows) }
    ensures live { IfOk result (λ r. TakesSquares D.now D.images r.1) }
    ensures keeper { IfOk result (λ r. IsKeeperOf (telling_of D.now D.moment D.images D.images_at D.since D.faults r.1)
        r.0) }
    ensures kept { IfOk result (λ r. kept_in D.now r.1 ≡ option_map (λ _. r.0.start) (D.now disk)) }
    ensures quasis { IfOk result (λ r. quasis_in D.now r.1 ≡ option_map (λ _. kept_of_table r.0) (D.now disk)) }
    ensures file { IfOk result
        (λ r. D.now r.1.journal.disk ≡ option_map (opened (digest_of «module».plain)) (D.now disk)) }
    ensures refused { IfErr result (λ e. (e.0 ≡ Open DiskFailed) ⊎ (e.0 ≡ OutOfMemory)
        ⊎ IfSome (D.now disk) (λ file. standing_of «module».plain file ≡ Err e.0)) }
    ensures memory { IfErr result (λ e. e.0 ≢ Open OpenMemory) }
    ensures same { IfErr result (λ e. e.0 ≢ Open DiskFailed → D.now e.1 ≡ D.now disk) }
    ensures unwritten { IfErr result (λ e. e.0 ≢ Open DiskFailed →
        IfSome (D.now disk) (λ _. LeavesOnly D.moment D.since disk e.1 (D.images disk))) }
    ensures left_alone { IfOk result (λ r. IfSome (D.now disk) (λ file. opened (digest_of «module».plain) file ≡ file →
        LeavesOnly D.moment D.since disk r.1.journal.disk (D.images disk))) }
    ensures time { MatchResult result (λ r. LeavesOnly D.moment D.since disk r.1.journal.disk (λ _. Unit {0}))
        (λ e. LeavesOnly D.moment D.since disk e.1 (λ _. Unit {0})) }
    ensures any_moment { IfSome (D.now disk) (λ _. MatchResult result
        (λ r. LeavesOnly D.moment D.since disk r.1.journal.disk
        (HasRecordsOf (digest_of «module».plain) (D.images disk)))
        (λ e. LeavesOnly D.moment D.since disk e.1 (HasRecordsOf (digest_of «module».plain) (D.images disk)))) }
    ensures past { MatchResult result (λ r. HavePast D.moment D.images_at disk r.1.journal.disk)
        (λ e. HavePast D.moment D.images_at disk e.1) }
    ensures retained { IfSome (D.now disk) (λ _. MatchResult result
        (λ r. ComeFromEarlier D.moment D.images_at disk r.1.journal.disk (HaveSameRecords (digest_of «module».plain)))
        (λ e. ComeFromEarlier D.moment D.images_at disk e.1 (HaveSameRecords (digest_of «module».plain)))) }
    ensures no_fault { IfOk result (λ r. D.faults r.1.journal.disk ≡ D.faults disk) }
    ensures quiet { IfErr result (λ e. e.0 ≢ Open DiskFailed → D.faults e.1 ≡ D.faults disk) }
    ensures never_fall { IfErr result (λ e. D.faults disk ≤ D.faults e.1) }
    ensures cause { IfErr result (λ e. e.0 ≡ Open DiskFailed → HasRisen (D.faults disk) (D.faults e.1)) }
{
    let Ok((mut table, text)) = prepared(alloc, module) else {
        return Err((ResumeFault::Memory, disk));
    };
    let digest = Sha256::digest(text.as_slice());
    let (journal, bodies) = match Journal::open(alloc, disk, digest) {
        Ok(opened) => opened,
        Err((fault, disk)) => return Err((ResumeFault::from(fault), disk)),
    };
    let count = bodies.len() as u64;
    match read_bodies(alloc, &mut table, bodies) {
        Ok(()) => {
            let opened = Snapshot::of(&table);
            let keeper = SaveFile {
                alloc,
                journal,
                count,
                opened,
            };
            Ok((table, keeper))
        }
        Err(fault) => Err((fault, journal.into_disk())),
    }
}

/// The table of no square, and its module's canonical text.
///
/// # Errors
/// `Memory` if allocation fails.
fn prepared(alloc: Global, module: Module) -> Result<(Table, Vec<u8>), Memory>
    ensures resolved { IfOk result (λ r. r.0.resolved ≡ «module») }
    ensures start { IfOk result (λ r. r.0.start ≡ []) }
    ensures all_read { IfOk result (λ r. AllRead r.0.rows) }
    ensures text { IfOk result (λ r. r.1.items ≡ canonical_text «module».plain) }
{
    let table = Table::new(alloc, module)?;
    let text = table.module().canonical_text(alloc)?;
    Ok((table, text))
}

/// Puts the squares of these bodies, which are those of a file's records, behind those of the table, in order, and gives squares their
/// quasi-inverses. Each body is let go once it was read.
///
/// # Errors
/// `Strange` exactly where one of them is neither, with the number and the place of the first, and `Memory` if allocation fails.
fn read_bodies(
    alloc: Global,
    table: &mut Table,
    mut bodies: Vec<Vec<u8>>,
) -> Result<(), ResumeFault>
    requires all_read { AllRead table.old.rows }
    requires places { 40 + length (encoded (contents bodies.items)) < 2 ^ 63 }
    ensures read { OnOk result (kept_from (over table.old.resolved) (kept_of_table table.old) 0 (contents bodies.items)
        ≡ Ok (kept_of_table table.new)) }
    ensures resolved { table.new.resolved ≡ table.old.resolved }
    ensures all_read { AllRead table.new.rows }
    ensures is_table { OnOk result (IsTable table.new) }
    ensures refused { IfErr result (λ e. (e ≡ OutOfMemory)
        ⊎ IsStrange (over table.old.resolved) (kept_of_table table.old) (contents bodies.items) e) }
    ensures none { contents bodies.items ≡ [] → IsOk result }
{
    let mut place = 40;
    for i in 0..bodies.len() {
        let body = replace(&mut bodies[i], Vec::new(alloc));
        match read_body(alloc, table, i as u64, body.as_slice()) {
            Ok(()) => place += 41 + body.len() as u64,
            Err(fault) => return Err(refusal(fault, place)),
        }
    }
    table.front(0); // It is a table, which proofs learn here.
    Ok(())
}

/// Why a file is not taken up whose record at this place has a body that was not read.
fn refusal(fault: DecodeFault, place: u64) -> ResumeFault
    ensures { result ≡ body_refusal place fault }
{
    match fault {
        DecodeFault::Strange { number } => ResumeFault::Strange { number, place },
        DecodeFault::Memory => ResumeFault::Memory,
    }
}

/// Puts the square of a body behind those of the table, or gives one of them its quasi-inverse. `number` is that of its record.
///
/// # Errors
/// `Strange` exactly where it is neither, and `Memory` if allocation fails; the table is then as before.
fn read_body(alloc: Global, table: &mut Table, number: u64, body: &[u8]) -> Result<(), DecodeFault>
    requires { AllRead table.old.rows }
    ensures read { OnOk result (after_body (over table.old.resolved) (kept_of_table table.old) body.now
        ≡ Some (kept_of_table table.new)) }
    ensures resolved { table.new.resolved ≡ table.old.resolved }
    ensures all_read { AllRead table.new.rows }
    ensures strange { (n : ℕ) → result ≡ Err (StrangeBody n) →
        (n ≡ number) × (after_body (over table.old.resolved) (kept_of_table table.old) body.now ≡ None) }
    ensures err { OnErr result (table.new ≡ table.old) }
{
    match decode(alloc, table, number, body)? {
        Body::Square(square) => put_square(alloc, table, square),
        Body::Quasi { s, t, quasi } => match table.add_quasi(alloc, s, t, quasi) {
            Ok(()) => Ok(()),
            Err(_) => Err(DecodeFault::Memory),
        },
    }
}

/// Puts a square that was read behind those of the table.
///
/// # Errors
/// `Memory` if allocation fails; the table is then as before.
fn put_square(alloc: Global, table: &mut Table, square: Square) -> Result<(), DecodeFault>
    requires all_read { AllRead table.old.rows }
    requires row { square.s ≤ MAX_S }
    requires resolved { square.resolved ≡ table.old.resolved }
    requires start { square.start ≡ table.old.start ++ entry_of square ∷ [] }
    requires next { IsNext table.old.rows square.s square.above }
    ensures put { OnOk result (kept_of_table table.new ≡ kept_of_table table.old ++ kept_of square ∷ []) }
    ensures resolved { table.new.resolved ≡ table.old.resolved }
    ensures all_read { AllRead table.new.rows }
    ensures err { OnErr result ((table.new ≡ table.old) × (result ≡ Err WantOfMemory)) }
{
    table.front(square.s()); // It is a table, which proofs learn here.
    let Ok(square) = Arc::new(alloc, square) else {
        return Err(DecodeFault::Memory);
    };
    let Ok(()) = table.push(square) else {
        return Err(DecodeFault::Memory);
    };
    Ok(())
}
