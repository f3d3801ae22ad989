//! The keeper of a save file.
ghost use Rattle.std.specs.Prelude.{◌≡◌, ◌⊎◌, ◌↔◌, ℕ, ◌≤◌, ◌+ℤ◌, pos, List, [], ◌∷◌, ◌++◌, Option, Err, IfOk, IfSome, IsSome, OnOk};
ghost use Rattle.std.specs.Option.{option_map};
ghost use Rattle.edge.specs.Disk.{HavePast};
ghost use Rattle.edge.specs.Faults.{HasRisen};
ghost use Rattle.f2_matrix.specs.Reduction.{Reduction};
ghost use Rattle.resolution_laws.specs.Start.{Entry};
ghost use Rattle.square.specs.Squares.{entry_of, IsSquare, KeptWhereMade, over, bottom_of};
ghost use Rattle.square.specs.Tables.{square_at, IsQuasiAt};
ghost use Rattle.square.specs.Keeping.{with_squares, IsNextIn, IsImageBetween, Retains, IsKeeperOf, HasKept};
ghost use Rattle.square.specs.declared.keep.KeepFault as KeepFault;
ghost use Rattle.save_journal.specs.Journals.{ComeFromEarlier};
ghost use Rattle.save_file.specs.Bodies.{kept_of, with_quasi_at};
ghost use Rattle.save_file.specs.Files.{kept_in_file};
ghost use Rattle.save_file.specs.Saved.{IsReadAs, IsReadAsQuasi};
ghost use Rattle.save_file.specs.Saving.{TakesSquares, kept_in, quasis_in, IsKeptBare, HasQuasiOrNot, WasLeftAt, WasLeft, telling_of};
ghost use Rattle.save_file.specs.Inside.SavingLaws.{left_since, left_earlier, left_is_kept};

use crate::writing::{encode, encode_quasi};
use edge::Disk;
use memory::Memory;
use save_journal::{Framed, Journal, frame};
use square::{Keep, KeepFault, Square, Table};
use std::alloc::Global;
use std::marker::Model;
use std::snapshot::Snapshot;

/// The keeper of a save file: each square that it keeps stands in the file, as a record of its own, with its quasi-inverse if the
/// square has kept that. Another record gives a square that stands there its quasi-inverse.
///
/// What it has kept are the squares of as many first records of the file as were read when it was taken up, or appended since. An
/// image is what a file that a crash may leave stands for. After an append that failed the file may have one record more,
/// which does not count.
///
/// It holds the allocator that it was taken up with, since `keep` is given none, and its table as a value without bytes,
/// which tells its module and its start.
#[derive(Drop)]
pub struct SaveFile<D: Disk> {
    pub(crate) alloc: Global,
    pub(crate) journal: Journal<D>,
    pub(crate) count: u64,
    pub(crate) opened: Snapshot<Table>,
}

impl<D: Disk> Model for SaveFile<D> {
    ghost use Rattle.save_file.specs.Saving.{SaveState};

    ghost Value = { SaveState D };

    ghost view = { λ k. record {
      journal = k.journal;
      count = k.count;
      resolved = k.opened.value.resolved;
      start = k.opened.value.start;
    } };
}

impl<D: Disk> SaveFile<D> {
    /// The disk.
    pub fn into_disk(self) -> D
        ensures { result ≡ self.journal.disk }
    {
        self.journal.into_disk()
    }

    /// Puts the quasi-inverse of the square in row `s` and of degree `t` at the end of the file, which has the square without
    /// one. No square is added.
    ///
    /// # Errors
    /// `Failed` if the disk failed; the keeper is then no longer live, and keeps what it kept. `Memory` if allocation fails; it is
    /// then as before.
    pub fn keep_quasi(&mut self, table: &Table, s: u16, t: i32) -> Result<(), KeepFault>
        requires live { TakesSquares D.now D.images self.old }
        requires there { IsSome (square_at table.now s t) }
        requires kernel { (r : Reduction) → IsQuasiAt table.now s t r →
            IfSome (square_at table.now s t) (λ q. r.kernel ≡ q.content.kernel) }
        requires of_table { IsKeeperOf (telling_of D.now D.moment D.images D.images_at D.since D.faults self.old)
            table.now }
        requires bare { IfSome (quasis_in D.now self.old) (λ kept. (k : ℕ) →
            t ≡ bottom_of table.now.resolved +ℤ pos k → IsKeptBare kept s k) }
        ensures live { OnOk result (TakesSquares D.now D.images self.new) }
        ensures no_fault { OnOk result (D.faults self.new.journal.disk ≡ D.faults self.old.journal.disk) }
        ensures put { OnOk result ((k : ℕ) (r : Reduction) → t ≡ bottom_of table.now.resolved +ℤ pos k →
            IsQuasiAt table.now s t r →
            quasis_in D.now self.new ≡ option_map (λ kept. with_quasi_at kept s k r) (quasis_in D.now self.old)) }
        ensures kept { HasKept (over self.old.resolved) self.old.start
            (telling_of D.now D.moment D.images D.images_at D.since D.faults self.old)
            (telling_of D.now D.moment D.images D.images_at D.since D.faults self.new) [] }
        ensures between { IfSome (quasis_in D.now self.old) (λ kept. (c : List ℕ) →
            D.since self.new.journal.disk (D.moment self.old.journal.disk) c →
            HasQuasiOrNot table.now s t kept (kept_in_file self.old.resolved c)) }
        ensures durable { OnOk result (IfSome (quasis_in D.now self.new) (λ kept. (c : List ℕ) →
            D.images self.new.journal.disk c → kept_in_file self.old.resolved c ≡ kept)) }
        ensures past { HavePast D.moment D.images_at self.old.journal.disk self.new.journal.disk }
        ensures retained { IfSome (quasis_in D.now self.old) (λ _. ComeFromEarlier D.moment D.images_at
            self.old.journal.disk self.new.journal.disk (λ d c. HasQuasiOrNot table.now s t
            (kept_in_file self.old.resolved d) (kept_in_file self.old.resolved c))) }
        ensures failed { result ≡ Err KeepFault.Failed →
            HasRisen (D.faults self.old.journal.disk) (D.faults self.new.journal.disk) }
        ensures dead { result ≡ Err KeepFault.Failed → TakesSquares D.now D.images self.new → ⊥ }
        ensures unput { result ≡ Err KeepFault.Failed → quasis_in D.now self.new ≡ quasis_in D.now self.old }
        ensures memory { result ≡ Err KeepFault.Memory → self.new ≡ self.old }
        ensures never_fall { D.faults self.old.journal.disk ≤ D.faults self.new.journal.disk }
    {
        let body = framed_quasi(self.alloc, table, s, t)?;
        match self.journal.append(&body) {
            Ok(()) => {
                self.count += 1;
                Ok(())
            }
            Err(_) => Err(KeepFault::Failed),
        }
    }
}

impl<D: Disk> Keep for SaveFile<D> {
    ghost telling = { λ k. telling_of D.now D.moment D.images D.images_at D.since D.faults k };

    fn keep(&mut self, square: &Square) -> Result<(), KeepFault>
        requires live { TakesSquares D.now D.images self.old }
        requires next { IfSome (kept_in D.now self.old) (λ list. IsNextIn list square.now) }
        requires resolved { square.now.resolved ≡ self.old.resolved }
        requires start { square.now.start ≡ self.old.start }
        ensures live { OnOk result (TakesSquares D.now D.images self.new) }
        ensures no_fault { OnOk result (D.faults self.new.journal.disk ≡ D.faults self.old.journal.disk) }
        ensures put { OnOk result
            (kept_in D.now self.new ≡ with_squares (kept_in D.now self.old) (entry_of square.now ∷ [])) }
        ensures quasis { OnOk result (quasis_in D.now self.new
            ≡ option_map (λ kept. kept ++ kept_of square.now ∷ []) (quasis_in D.now self.old)) }
        ensures failed { result ≡ Err KeepFault.Failed →
            HasRisen (D.faults self.old.journal.disk) (D.faults self.new.journal.disk) }
        ensures dead { result ≡ Err KeepFault.Failed → TakesSquares D.now D.images self.new → ⊥ }
        ensures unput { result ≡ Err KeepFault.Failed → (kept_in D.now self.new ≡ kept_in D.now self.old)
            × (quasis_in D.now self.new ≡ quasis_in D.now self.old) }
        ensures memory { result ≡ Err KeepFault.Memory → self.new ≡ self.old }
        ensures never_fall { D.faults self.old.journal.disk ≤ D.faults self.new.journal.disk }
        ensures same_module { self.new.resolved ≡ self.old.resolved }
        ensures same_start { self.new.start ≡ self.old.start }
        ensures later { D.moment self.old.journal.disk ≤ D.moment self.new.journal.disk }
        ensures between { IfSome (kept_in D.now self.old) (λ list. (image : Option (List Entry)) →
            WasLeft D.since self.new (D.moment self.old.journal.disk) image → IsImageBetween list square.now image) }
        ensures earlier { IfSome (kept_in D.now self.old) (λ list. (m : ℕ) (image : Option (List Entry)) →
            m ≤ D.moment self.old.journal.disk → WasLeft D.since self.new m image
            ↔ (WasLeft D.since self.old m image
            ⊎ WasLeft D.since self.new (D.moment self.old.journal.disk) image)) }
        ensures past { (m : ℕ) (image : Option (List Entry)) → m ≤ D.moment self.old.journal.disk →
            WasLeftAt D.images_at self.new m image ↔ WasLeftAt D.images_at self.old m image }
        ensures retained { IfSome (kept_in D.now self.old)
            (λ _. Retains (telling_of D.now D.moment D.images D.images_at D.since D.faults self.old)
            (telling_of D.now D.moment D.images D.images_at D.since D.faults self.new)) }
    {
        let Ok(body) = framed(self.alloc, square) else {
            return Err(KeepFault::Memory);
        };
        match self.journal.append(&body) {
            Ok(()) => {
                self.count += 1;
                Ok(())
            }
            Err(_) => Err(KeepFault::Failed),
        }
    }

    ghost since_is = { λ k t image.
        left_since D.now D.moment D.images D.images_at D.since D.faults D.since_is k t image };

    ghost since_earlier = { λ k m n image le left. left_earlier D.since D.since_earlier k m n image le left };

    ghost image_is_kept = { λ k takes. left_is_kept D.now D.moment D.images D.since D.only_now k takes };
}

/// The body of a square, ready to be appended.
///
/// # Errors
/// `Memory` if allocation fails.
fn framed(alloc: Global, square: &Square) -> Result<Framed, Memory>
    ensures read { IfOk result (λ body. IsReadAs square.now body) }
    ensures is_square { IfOk result (λ _. IsSquare square.now) }
    ensures where_made { IfOk result (λ _. KeptWhereMade square.now) }
{
    let body = encode(alloc, square)?;
    match frame(alloc, body) {
        Ok(framed) => Ok(framed),
        Err((memory, _)) => Err(memory),
    }
}

/// The body of the quasi-inverse of a square, ready to be appended.
///
/// # Errors
/// `Memory` if allocation fails.
fn framed_quasi(alloc: Global, table: &Table, s: u16, t: i32) -> Result<Framed, Memory>
    requires there { IsSome (square_at table.now s t) }
    requires kernel { (r : Reduction) → IsQuasiAt table.now s t r →
        IfSome (square_at table.now s t) (λ q. r.kernel ≡ q.content.kernel) }
    ensures read { IfOk result (λ body. IsReadAsQuasi table.now s t body) }
{
    let body = encode_quasi(alloc, table, s, t)?;
    match frame(alloc, body) {
        Ok(framed) => Ok(framed),
        Err((memory, _)) => Err(memory),
    }
}
