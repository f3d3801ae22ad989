//! Where squares are kept.
ghost use Rattle.std.specs.Prelude.{◌≡◌, ◌≢◌, ℕ, ◌≤◌, ◌<◌, ◌↔◌, ◌⊎◌, Option, Some, None, List, [], ◌∷◌, true, false, length, IfSome, IsOkAnd, OnOk, OnErr, Ok, Err};
ghost use Rattle.edge.specs.Faults.{HasRisen, one_up};
ghost use Rattle.resolution_laws.specs.Start.{Entry};
ghost use Rattle.square.specs.Squares.{entry_of};
ghost use Rattle.square.specs.Keeping.{Keeper, with_squares, IsNextIn, IsImageBetween, WasImageSince, HasFirst, Retains};
ghost use Rattle.square.specs.Inside.MemKeep.{keep_fails, after_keep, after_failed_keep, IsFirstPart, IsPartOf, whole_part, longer_part, parts_since};
ghost use Rattle.square.specs.declared.keep.KeepFault as KeepFault;
ghost use Rattle.square.specs.declared.keep.KeepFault.TheVariants.{Failed, Memory as WantOfMemory};

use crate::square::Square;
use memory::Memory;
use start::Start;
use std::alloc::Global;
use std::marker::Model;
use thiserror::Error;

/// Why a square was not kept.
#[derive(Clone, Copy, Debug, PartialEq, Eq, Error)]
pub enum KeepFault {
    /// The keeper failed, and keeps no more.
    #[error("a square could not be kept")]
    Failed,
    /// The keeper is out of memory.
    #[error("out of memory")]
    Memory,
}

impl From<Memory> for KeepFault {
    ghost from_gives = { λ _ fault. fault ≡ WantOfMemory };

    fn from(_: Memory) -> Self {
        KeepFault::Memory
    }
}

/// What keeps squares, as a save file does.
///
/// An image is what may be left of it where a run is cut off. Contracts see it as the list of squares that it stands for, or as
/// none where it stands for no list, as torn bytes do: so a clause that says which lists an image may be also says that it is
/// not torn.
pub trait Keep {
    /// What contracts see of the keeper. It is one record, so that a fact on a keeper at two moments is one relation,
    /// `HasKept`, which is closed under composition.
    ghost telling: { Self → Keeper };

    /// Puts a square at the end of what is kept.
    ///
    /// # Errors
    /// `Failed` if the keeper failed; it is then no longer live, and keeps what it kept. `Memory` if it is out of memory; it is
    /// then as before.
    fn keep(&mut self, square: &Square) -> Result<(), KeepFault>
        requires live { (telling self.old).live }
        requires next { IfSome (telling self.old).kept (λ list. IsNextIn list square.now) }
        requires resolved { IfSome (telling self.old).resolved (λ m. square.now.resolved ≡ m) }
        requires start { IfSome (telling self.old).start (λ st. square.now.start ≡ st) }
        ensures live { OnOk result (telling self.new).live }
        ensures no_fault { OnOk result ((telling self.new).faults ≡ (telling self.old).faults) }
        ensures put { OnOk result
            ((telling self.new).kept ≡ with_squares (telling self.old).kept (entry_of square.now ∷ [])) }
        ensures failed { result ≡ Err KeepFault.Failed → HasRisen (telling self.old).faults (telling self.new).faults }
        ensures dead { result ≡ Err KeepFault.Failed → (telling self.new).live → ⊥ }
        ensures unput { result ≡ Err KeepFault.Failed → (telling self.new).kept ≡ (telling self.old).kept }
        ensures memory { result ≡ Err KeepFault.Memory → self.new ≡ self.old }
        ensures never_fall { (telling self.old).faults ≤ (telling self.new).faults }
        ensures same_module { (telling self.new).resolved ≡ (telling self.old).resolved }
        ensures same_start { (telling self.new).start ≡ (telling self.old).start }
        ensures later { (telling self.old).moment ≤ (telling self.new).moment }
        ensures between { IfSome (telling self.old).kept (λ list. (image : Option (List Entry)) →
            (telling self.new).since (telling self.old).moment image → IsImageBetween list square.now image) }
        ensures earlier { IfSome (telling self.old).kept (λ list. (m : ℕ) (image : Option (List Entry)) →
            m ≤ (telling self.old).moment →
            (telling self.new).since m image
            ↔ ((telling self.old).since m image ⊎ (telling self.new).since (telling self.old).moment image)) }
        ensures past { (t : ℕ) (image : Option (List Entry)) → t ≤ (telling self.old).moment →
            (telling self.new).images_at t image ↔ (telling self.old).images_at t image }
        ensures retained { IfSome (telling self.old).kept (λ _. Retains (telling self.old) (telling self.new)) };

    /// The images since a moment are those at it and at the moments behind it.
    ghost since_is: { (k : Self) (t : ℕ) (image : Option (List Entry)) → (telling k).since t image
        ↔ WasImageSince (telling k) t image };

    /// An image since a moment is one since each earlier moment.
    ghost since_earlier: { (k : Self) (m n : ℕ) (image : Option (List Entry)) → m ≤ n → (telling k).since n image →
        (telling k).since m image };

    /// While the keeper is live, every image now is what it has kept.
    ghost image_is_kept: { (k : Self) → (telling k).live →
        IfSome (telling k).kept (λ list. (image : Option (List Entry)) → (telling k).since (telling k).moment image →
        image ≡ Some list) };
}

/// For runs without a save file: nothing is kept, and no memory is taken.
#[derive(Clone, Copy, Debug)]
pub struct NoKeep;

impl Keep for NoKeep {
    ghost telling = { λ _. record {
      live = Unit {0};
      faults = 0;
      kept = None;
      resolved = None;
      start = None;
      moment = 0;
      images_at = λ _ _. ⊥;
      since = λ _ _. ⊥;
    } };

    fn keep(&mut self, _square: &Square) -> Result<(), KeepFault>
        ensures always { result ≡ Ok tt }
    {
        Ok(())
    }

    ghost since_is = { λ _ _ _. (λ e. absurd e, λ w. absurd w.there) };

    ghost since_earlier = { λ _ _ _ _ _ e. e };

    ghost image_is_kept = { λ _ _. tt };
}

/// A keeper of tests. It tells what it has kept, which takes no memory.
#[derive(Drop)]
pub struct MemKeep {
    list: Start,
    failing: Vec<u64>,
    calls: u64,
    faults: u64,
    live: bool,
}

impl Model for MemKeep {
    ghost use Rattle.square.specs.Inside.MemKeep.{Kept};

    ghost Value = { Kept };

    ghost view = { λ k. record {
      list = k.list;
      failing = k.failing.items;
      calls = k.calls;
      faults = k.faults;
      live = k.live;
    } };
}

impl MemKeep {
    /// A keeper that has kept nothing. The calls in `failing` fail, counted from 1.
    ///
    /// # Errors
    /// None: it takes over the memory that it needs.
    pub fn new(_alloc: Global, failing: Vec<u64>) -> Result<MemKeep, Memory>
        ensures { IsOkAnd result (λ keeper. keeper ≡ record {
          list = [];
          failing = failing.items;
          calls = 0;
          faults = 0;
          live = true;
        }) }
    {
        Ok(MemKeep {
            list: Start::empty(),
            failing,
            calls: 0,
            faults: 0,
            live: true,
        })
    }

    /// Whether it has not failed yet.
    pub fn is_live(&self) -> bool
        ensures { result ≡ self.now.live }
    {
        self.live
    }

    /// Whether the next call fails.
    fn fails_next(&self) -> bool
        ensures { result ≡ keep_fails self.now }
    {
        let call = self.calls.saturating_add(1);
        self.failing.contains(&call)
    }
}

impl Keep for MemKeep {
    ghost telling = { λ k. record {
      live = k.live ≡ true;
      faults = k.faults;
      kept = Some k.list;
      resolved = None;
      start = None;
      moment = length k.list;
      images_at = λ t image. IsPartOf k.list t image;
      since = λ m image. IsFirstPart k.list m image;
    } };

    fn keep(&mut self, square: &Square) -> Result<(), KeepFault>
        requires { self.old.live ≡ true }
        ensures live { OnOk result (self.new.live ≡ true) }
        ensures no_fault { OnOk result (self.new.faults ≡ self.old.faults) }
        ensures put { OnOk result (Some self.new.list ≡ with_squares (Some self.old.list) (entry_of square.now ∷ [])) }
        ensures failed { result ≡ Err KeepFault.Failed → HasRisen self.old.faults self.new.faults }
        ensures dead { result ≡ Err KeepFault.Failed → self.new.live ≡ true → ⊥ }
        ensures unput { result ≡ Err KeepFault.Failed → Some self.new.list ≡ Some self.old.list }
        ensures memory { result ≡ Err KeepFault.Memory → self.new ≡ self.old }
        ensures never_fall { self.old.faults ≤ self.new.faults }
        ensures later { length self.old.list ≤ length self.new.list }
        ensures between { (image : Option (List Entry)) → IsFirstPart self.new.list (length self.old.list) image →
            IsImageBetween self.old.list square.now image }
        ensures earlier { (m : ℕ) (image : Option (List Entry)) → m ≤ length self.old.list →
            IsFirstPart self.new.list m image
            ↔ (IsFirstPart self.old.list m image ⊎ IsFirstPart self.new.list (length self.old.list) image) }
        ensures past { (t : ℕ) (image : Option (List Entry)) → t ≤ length self.old.list →
            IsPartOf self.new.list t image ↔ IsPartOf self.old.list t image }
        ensures retained { (first : List Entry) (u v : ℕ) → length self.old.list ≤ u → u ≤ v →
            v ≤ length self.new.list →
            ((image : Option (List Entry)) → IsPartOf self.new.list u image → HasFirst first image) →
            (image : Option (List Entry)) → IsPartOf self.new.list v image → HasFirst first image }
        ensures keeps { OnOk result ((keep_fails self.old ≡ false) × (self.new ≡ after_keep self.old square.now)) }
        ensures fails { OnErr result ((keep_fails self.old ≡ true) × (result ≡ Err KeepFault.Failed)
            × (self.new ≡ after_failed_keep self.old)) }
    {
        let fails = self.fails_next();
        self.calls = self.calls.saturating_add(1);
        if fails {
            self.faults = self.faults.saturating_add(1);
            self.live = false;
            return Err(KeepFault::Failed);
        }
        self.list = self
            .list
            .then(square.s(), square.above(), square.gens(), square.kernel());
        Ok(())
    }

    ghost since_is = { λ k t image. parts_since (k.live ≡ true) k.faults k.list t image };

    ghost since_earlier = { λ k m n image before part. longer_part k.list m n image before part };

    ghost image_is_kept = { λ k _ image part. whole_part k.list image part };
}
