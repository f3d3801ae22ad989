//! How a disk is opened.
ghost use Rattle.std.specs.Prelude.{◌≡◌, ◌≢◌, ◌⊎◌, ◌↔◌, ℕ, ◌+◌, ◌^◌, ◌<◌, ◌≤◌, List, Err, length, take, IfSome, IfOk, IfErr, OnOk, OnErr};
ghost use Rattle.std.specs.Option.{option_map};
ghost use Rattle.edge.specs.Disk.{LeavesOnly, HavePast, Elapses, Passes};
ghost use Rattle.edge.specs.Faults.{HasRisen};
ghost use Rattle.save_journal.specs.Records.{records_of, encoded, header, opened};
ghost use Rattle.save_journal.specs.Journals.{HasRecordsOf, HaveSameRecords, ComeFromEarlier, contents};
ghost use Rattle.save_journal.specs.Inside.Held.{IsHeld};
ghost use Rattle.save_journal.specs.declared.fault.OpenFault.TheVariants.{Failed as DiskFailed, Memory as WantOfMemory};

use crate::fault::OpenFault;
use crate::reading::{compare_header, fresh_file, read_records};
use edge::{Disk, Failed};
use std::alloc::Global;

/// What `Journal::open` does, on a disk that stays with the caller: the place of the gate that ends the records, and their
/// bodies.
pub fn open_on<D: Disk>(
    alloc: Global,
    disk: &mut D,
    digest: &[u8; 32],
) -> Result<(u64, Vec<Vec<u8>>), OpenFault>
    ensures held { IfOk result
        (λ r. IfSome (D.now disk.new) (λ file. IsHeld digest.now r.0 (contents r.1.items) file (D.images disk.new))) }
    ensures limit { IfOk result (λ r. r.0 < 2 ^ 63) }
    ensures end { IfOk result (λ r. r.0 ≡ 40 + length (encoded (contents r.1.items))) }
    ensures count { IfOk result (λ r. length r.1.items ≤ r.0) }
    ensures file { OnOk result (D.now disk.new ≡ option_map (opened digest.now) (D.now disk.old)) }
    ensures refused { IfErr result (λ e. (e ≡ DiskFailed) ⊎ (e ≡ WantOfMemory)
        ⊎ IfSome (D.now disk.old) (λ file. records_of digest.now file ≡ Err e)) }
    ensures same { IfErr result (λ e. e ≢ DiskFailed → D.now disk.new ≡ D.now disk.old) }
    ensures unwritten { IfErr result (λ e. e ≢ DiskFailed →
        LeavesOnly D.moment D.since disk.old disk.new (D.images disk.old)) }
    ensures left_alone { OnOk result (IfSome (D.now disk.old) (λ file. opened digest.now file ≡ file →
        LeavesOnly D.moment D.since disk.old disk.new (D.images disk.old))) }
    ensures time { LeavesOnly D.moment D.since disk.old disk.new (λ _. Unit {0}) }
    ensures any_moment { IfSome (D.now disk.old)
        (λ _. LeavesOnly D.moment D.since disk.old disk.new (HasRecordsOf digest.now (D.images disk.old))) }
    ensures past { HavePast D.moment D.images_at disk.old disk.new }
    ensures retained { IfSome (D.now disk.old)
        (λ _. ComeFromEarlier D.moment D.images_at disk.old disk.new (HaveSameRecords digest.now)) }
    ensures never_fall { D.faults disk.old ≤ D.faults disk.new }
    ensures no_fault { OnOk result (D.faults disk.new ≡ D.faults disk.old) }
    ensures quiet { IfErr result (λ e. e ≢ DiskFailed → D.faults disk.new ≡ D.faults disk.old) }
    ensures cause { result ≡ Err DiskFailed → HasRisen (D.faults disk.old) (D.faults disk.new) }
{
    disk.sync()?; // What is read is then what a crash leaves.
    let bytes = read_all(alloc, disk, digest)?;
    if bytes.len() > 41 {
        return read_records(alloc, &bytes, digest);
    }
    let fresh = fresh_file(digest);
    if bytes.as_slice() == fresh.as_slice() {
        return Ok((40, Vec::new(alloc)));
    }
    disk.write_at(0, &fresh)?;
    disk.sync()?;
    Ok((40, Vec::new(alloc)))
}

/// All the bytes of a disk. Of one that has room for a record the rest is read only if the first forty are ours.
fn read_all<D: Disk>(alloc: Global, disk: &mut D, digest: &[u8; 32]) -> Result<Vec<u8>, OpenFault>
    ensures read { IfOk result (λ v. IfSome (D.now disk.old) (λ file. v.items ≡ file)) }
    ensures ours { IfOk result (λ v. 41 < length v.items → take 40 v.items ≡ header digest.now) }
    ensures limit { IfOk result (λ v. length v.items < 2 ^ 63) }
    ensures refused { IfErr result (λ e. (e ≡ DiskFailed) ⊎ (e ≡ WantOfMemory)
        ⊎ IfSome (D.now disk.old) (λ file. records_of digest.now file ≡ Err e)) }
    ensures same { D.now disk.new ≡ D.now disk.old }
    ensures images { (c : List ℕ) → D.images disk.new c → D.images disk.old c }
    ensures any_moment { LeavesOnly D.moment D.since disk.old disk.new (D.images disk.old) }
    ensures passes { Passes (D.moment disk.old) (D.moment disk.new) (D.images_at disk.old) (D.images_at disk.new)
        (D.images disk.new) }
    ensures never_fall { D.faults disk.old ≤ D.faults disk.new }
    ensures no_fault { OnOk result (D.faults disk.new ≡ D.faults disk.old) }
    ensures quiet { IfErr result (λ e. e ≢ DiskFailed → D.faults disk.new ≡ D.faults disk.old) }
    ensures cause { IfErr result (λ e. e ≡ DiskFailed → HasRisen (D.faults disk.old) (D.faults disk.new)) }
{
    let len = disk.len()?;
    if len > 41 {
        return read_ours(alloc, disk, digest, len);
    }
    let mut bytes = vec![in alloc; 0u8; len as usize]?;
    if len > 0 {
        disk.read(0, bytes.as_mut_slice())?;
    }
    Ok(bytes)
}

/// All the bytes of a disk that has so many, with room for a record: the first forty, and if they are ours the rest.
fn read_ours<D: Disk>(
    alloc: Global,
    disk: &mut D,
    digest: &[u8; 32],
    len: u64,
) -> Result<Vec<u8>, OpenFault>
    requires told { IfSome (D.now disk.old) (λ file. len ≡ length file) }
    requires room { 41 < len }
    requires limit { len < 2 ^ 63 }
    ensures read { IfOk result (λ v. IfSome (D.now disk.old) (λ file. v.items ≡ file)) }
    ensures ours { IfOk result (λ v. take 40 v.items ≡ header digest.now) }
    ensures size { IfOk result (λ v. length v.items ≡ len) }
    ensures refused { IfErr result (λ e. (e ≡ DiskFailed) ⊎ (e ≡ WantOfMemory)
        ⊎ IfSome (D.now disk.old) (λ file. records_of digest.now file ≡ Err e)) }
    ensures same { D.now disk.new ≡ D.now disk.old }
    ensures images { (c : List ℕ) → D.images disk.new c ↔ D.images disk.old c }
    ensures any_moment { LeavesOnly D.moment D.since disk.old disk.new (D.images disk.old) }
    ensures passes { Passes (D.moment disk.old) (D.moment disk.new) (D.images_at disk.old) (D.images_at disk.new)
        (D.images disk.new) }
    ensures never_fall { D.faults disk.old ≤ D.faults disk.new }
    ensures no_fault { OnOk result (D.faults disk.new ≡ D.faults disk.old) }
    ensures quiet { IfErr result (λ e. e ≢ DiskFailed → D.faults disk.new ≡ D.faults disk.old) }
    ensures cause { IfErr result (λ e. e ≡ DiskFailed → HasRisen (D.faults disk.old) (D.faults disk.new)) }
{
    let mut head = [0; 40];
    disk.read(0, &mut head)?;
    compare_header(&head, digest)?;
    let mut bytes = vec![in alloc; 0u8; len as usize]?;
    read_rest(disk, &head, bytes.as_mut_slice())?;
    Ok(bytes)
}

/// Fills `into` with the forty bytes with which a disk begins, and with those behind them.
///
/// # Errors
/// `Failed` if the disk failed.
fn read_rest<D: Disk>(disk: &mut D, head: &[u8; 40], into: &mut [u8]) -> Result<(), Failed>
    requires room { 40 ≤ length into.old }
    requires told { IfSome (D.now disk.old) (λ file. length into.old ≡ length file) }
    ensures head { take 40 into.new ≡ head.now }
    ensures read { OnOk result (IfSome (D.now disk.old) (λ file. head.now ≡ take 40 file → into.new ≡ file)) }
    ensures same { D.now disk.new ≡ D.now disk.old }
    ensures images { (c : List ℕ) → D.images disk.new c ↔ D.images disk.old c }
    ensures time { Elapses (D.moment disk.old) (D.moment disk.new) (D.since disk.old) (D.since disk.new)
        (D.images disk.new) }
    ensures passes { Passes (D.moment disk.old) (D.moment disk.new) (D.images_at disk.old) (D.images_at disk.new)
        (D.images disk.new) }
    ensures never_fall { D.faults disk.old ≤ D.faults disk.new }
    ensures no_fault { OnOk result (D.faults disk.new ≡ D.faults disk.old) }
    ensures cause { OnErr result (HasRisen (D.faults disk.old) (D.faults disk.new)) }
{
    into[..40].copy_from_slice(head);
    disk.read(40, &mut into[40..])?;
    Ok(())
}
