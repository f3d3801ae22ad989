//! Journals.
ghost use Rattle.std.specs.Prelude.{◌≡◌, ◌≢◌, ◌⊎◌, ℕ, ◌+◌, ◌<◌, ◌≤◌, false, List, Ok, Err, length, IfOk, IfErr, IfSome, OnOk, OnErr, MatchResult};
ghost use Rattle.std.specs.Option.{option_map};
ghost use Rattle.edge.specs.Disk.{LeavesOnly, HavePast, IsTold, AreTold};
ghost use Rattle.edge.specs.Faults.{HasRisen};
ghost use Rattle.save_journal.specs.Records.{records_of, opened, and_last, encoded};
ghost use Rattle.save_journal.specs.Journals.{IsLive, HasRecordsOf, IsBeforeOrAfter, HaveSameRecords, ComeFromEarlier, contents};
ghost use Rattle.save_journal.specs.declared.fault.OpenFault.TheVariants.{Failed as DiskFailed, Memory as WantOfMemory};

use crate::fault::OpenFault;
use crate::framing::Framed;
use crate::opening::open_on;
use crate::reading::OPEN;
use edge::{Disk, Failed};
use std::alloc::Global;
use std::marker::Model;

/// A journal over a disk: bodies of records, in order, each of which a crash leaves whole or not at all. Contracts see its
/// disk, its digest, the place of its last gate, and whether it is live.
#[derive(Drop)]
pub struct Journal<D: Disk> {
    disk: D,
    digest: [u8; 32],
    end: u64,
    live: bool,
}

impl<D: Disk> Model for Journal<D> {
    ghost use Rattle.save_journal.specs.Journals.{JournalState};

    ghost Value = { JournalState D };

    ghost view = { λ j. record { disk = j.disk; digest = j.digest; end = j.end; live = j.live } };
}

impl<D: Disk> Journal<D> {
    /// Opens the disk, whose records are to belong to `digest`, and answers the journal with the bodies of the records.
    ///
    /// The disk is synced first. A file of at most 41 bytes, which has no room for a record, is read, and written anew unless it is what
    /// it would be then. A longer one is left as it is: its first forty bytes are read, and the rest only if these are ours.
    ///
    /// # Errors
    /// Each comes with the disk, on which a refusal writes nothing. `Failed` if the disk failed, `Memory` if allocation fails, and
    /// otherwise the refusal of the file.
    pub fn open(
        alloc: Global,
        disk: D,
        digest: [u8; 32],
    ) -> Result<(Journal<D>, Vec<Vec<u8>>), (OpenFault, D)>
        ensures live { IfOk result (λ r. IsLive D.now D.images r.0) }
        ensures bodies { IfOk result
            (λ r. IfSome (D.now r.0.disk) (λ file. records_of digest file ≡ Ok (contents r.1.items))) }
        ensures end { IfOk result (λ r. r.0.end ≡ 40 + length (encoded (contents r.1.items))) }
        ensures count { IfOk result (λ r. length r.1.items ≤ r.0.end) }
        ensures digest { IfOk result (λ r. r.0.digest ≡ digest) }
        ensures file { IfOk result (λ r. D.now r.0.disk ≡ option_map (opened digest) (D.now disk)) }
        ensures refused { IfErr result (λ e. (e.0 ≡ DiskFailed) ⊎ (e.0 ≡ WantOfMemory)
            ⊎ IfSome (D.now disk) (λ file. records_of digest file ≡ Err e.0)) }
        ensures same { IfErr result (λ e. e.0 ≢ DiskFailed → D.now e.1 ≡ D.now disk) }
        ensures unwritten { IfErr result (λ e. e.0 ≢ DiskFailed →
            LeavesOnly D.moment D.since disk e.1 (D.images disk)) }
        ensures left_alone { IfOk result (λ r. IfSome (D.now disk) (λ file. opened digest file ≡ file →
            LeavesOnly D.moment D.since disk r.0.disk (D.images disk))) }
        ensures time { MatchResult result (λ r. LeavesOnly D.moment D.since disk r.0.disk (λ _. Unit {0}))
            (λ e. LeavesOnly D.moment D.since disk e.1 (λ _. Unit {0})) }
        ensures any_moment { IfSome (D.now disk) (λ _. MatchResult result
            (λ r. LeavesOnly D.moment D.since disk r.0.disk (HasRecordsOf digest (D.images disk)))
            (λ e. LeavesOnly D.moment D.since disk e.1 (HasRecordsOf digest (D.images disk)))) }
        ensures past { MatchResult result (λ r. HavePast D.moment D.images_at disk r.0.disk)
            (λ e. HavePast D.moment D.images_at disk e.1) }
        ensures retained { IfSome (D.now disk) (λ _. MatchResult result
            (λ r. ComeFromEarlier D.moment D.images_at disk r.0.disk (HaveSameRecords digest))
            (λ e. ComeFromEarlier D.moment D.images_at disk e.1 (HaveSameRecords digest))) }
        ensures no_fault { IfOk result (λ r. D.faults r.0.disk ≡ D.faults disk) }
        ensures quiet { IfErr result (λ e. e.0 ≢ DiskFailed → D.faults e.1 ≡ D.faults disk) }
        ensures never_fall { IfErr result (λ e. D.faults disk ≤ D.faults e.1) }
        ensures cause { IfErr result (λ e. e.0 ≡ DiskFailed → HasRisen (D.faults disk) (D.faults e.1)) }
    {
        let mut disk = disk;
        match open_on(alloc, &mut disk, &digest) {
            Ok((end, list)) => {
                let journal = Journal {
                    disk,
                    digest,
                    end,
                    live: true,
                };
                Ok((journal, list))
            }
            Err(fault) => Err((fault, disk)),
        }
    }

    /// Puts a body at the end. Once it has answered Ok, each image has it. What each image had before is in each image at every
    /// moment of the call. It takes no memory.
    ///
    /// # Errors
    /// `Failed` if the disk failed. The journal then takes no more: open the disk again.
    pub fn append(&mut self, framed: &Framed) -> Result<(), Failed>
        requires { IsLive D.now D.images self.old }
        ensures live { OnOk result (IsLive D.now D.images self.new) }
        ensures appended { OnOk result (IfSome (D.now self.old.disk) (λ file. IsTold (D.now self.new.disk)
            (λ f. records_of self.old.digest f ≡ and_last (records_of self.old.digest file) framed.now))) }
        ensures durable { OnOk result (IfSome (D.now self.old.disk) (λ file. (c : List ℕ) → D.images self.new.disk c →
            records_of self.old.digest c ≡ and_last (records_of self.old.digest file) framed.now)) }
        ensures grown { OnOk result (self.old.end < self.new.end) }
        ensures dead { OnErr result (self.new.live ≡ false) }
        ensures told { AreTold
            (λ file f. IsBeforeOrAfter self.old.digest (records_of self.old.digest file) framed.now f)
            (D.now self.old.disk) (D.now self.new.disk) }
        ensures time { LeavesOnly D.moment D.since self.old.disk self.new.disk (λ _. Unit {0}) }
        ensures any_moment { IfSome (D.now self.old.disk) (λ file. LeavesOnly D.moment D.since self.old.disk
            self.new.disk (IsBeforeOrAfter self.old.digest (records_of self.old.digest file) framed.now)) }
        ensures past { HavePast D.moment D.images_at self.old.disk self.new.disk }
        ensures retained { IfSome (D.now self.old.disk)
            (λ _. ComeFromEarlier D.moment D.images_at self.old.disk self.new.disk
            (λ d c. IsBeforeOrAfter self.old.digest (records_of self.old.digest d) framed.now c)) }
        ensures same { self.new.digest ≡ self.old.digest }
        ensures never_fall { D.faults self.old.disk ≤ D.faults self.new.disk }
        ensures no_fault { OnOk result (D.faults self.new.disk ≡ D.faults self.old.disk) }
        ensures cause { OnErr result (HasRisen (D.faults self.old.disk) (D.faults self.new.disk)) }
    {
        self.live = false;
        let gate = self.end;
        let bytes = framed.bytes();
        self.disk.write_at(gate + 1, bytes)?;
        self.disk.sync()?;
        self.disk.write_at(gate, &[OPEN])?;
        self.disk.sync()?;
        self.end = gate + bytes.len() as u64;
        self.live = true;
        Ok(())
    }

    /// The disk.
    pub fn into_disk(self) -> D
        ensures { result ≡ self.disk }
    {
        self.disk
    }
}
