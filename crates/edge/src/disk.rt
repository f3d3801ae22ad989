//! What keeps bytes over a crash.
ghost use Rattle.std.specs.Prelude.{◌≡◌, ℕ, ◌+◌, ◌^◌, ◌<◌, ◌≤◌, ◌↔◌, Option, List, length, take, drop, IfSome, IfOk, OnOk, OnErr};
ghost use Rattle.std.specs.Option.{option_map};
ghost use Rattle.edge.specs.Disk.{written, Torn, Follows, Only, AreTold, Elapses, Passes, WasImageSince};
ghost use Rattle.edge.specs.Faults.{HasRisen};

use crate::faults::Failed;

/// A file of bytes, at most 2^63 - 1 of them. An image is a file that one may find in its place after a crash.
///
/// What was written since the last sync is not settled yet: an image may have anything there and behind the old end, and may
/// end wherever lies from the old end to the new. All other bytes are in every image as they are. A sync that succeeds settles
/// everything: from then until the next write the file, as a read gives it, is the only image. It is one at any time. Whether
/// a call succeeds or fails, a sync adds no image, and a write changes the images by the one step of writing its bytes.
///
/// A disk that tells nothing of its bytes has contracts on faults, lengths and moments alone; without the lengths a caller
/// could not bound the sum of a place and a length. Whether a disk tells its bytes never changes, not even in a call that
/// fails: else no clause could say that its bytes are as before.
pub trait Disk {
    /// What a read gives, none where it does not tell.
    ghost now: { Self → Option (List ℕ) };

    /// The moment, a number that does not fall.
    ghost moment: { Self → ℕ };

    /// What a crash now may leave.
    ghost images: { Self → List ℕ → Type 0 };

    /// What a crash at that moment might have left. Each call that changes the images makes the moment rise.
    ghost images_at: { Self → ℕ → List ℕ → Type 0 };

    /// What a crash at some moment from that one on might have left.
    ghost since: { Self → ℕ → List ℕ → Type 0 };

    /// How often it has failed.
    ghost faults: { Self → ℕ };

    /// How many bytes there are.
    ///
    /// # Errors
    /// `Failed` if the disk failed.
    fn len(&mut self) -> Result<u64, Failed>
        ensures len { IfOk result (λ n. IfSome (now self.old) (λ file. n ≡ length file)) }
        ensures limit { IfOk result (λ n. n < 2 ^ 63) }
        ensures same { now self.new ≡ now self.old }
        ensures images { (c : List ℕ) → images self.new c ↔ images self.old c }
        ensures time { Elapses (moment self.old) (moment self.new) (since self.old) (since self.new) (images self.new) }
        ensures passes { Passes (moment self.old) (moment self.new) (images_at self.old)
            (images_at self.new) (images self.new) }
        ensures never_fall { faults self.old ≤ faults self.new }
        ensures no_fault { OnOk result (faults self.new ≡ faults self.old) }
        ensures cause { OnErr result (HasRisen (faults self.old) (faults self.new)) };

    /// Fills `into` with the bytes from `at` on.
    ///
    /// # Errors
    /// `Failed` if the disk failed. What `into` holds then is open.
    fn read(&mut self, at: u64, into: &mut [u8]) -> Result<(), Failed>
        requires within { IfSome (now self.old) (λ file. at + length into.old ≤ length file) }
        ensures read { OnOk result (IfSome (now self.old) (λ file. into.new ≡ take (length into.old) (drop at file))) }
        ensures same { now self.new ≡ now self.old }
        ensures images { (c : List ℕ) → images self.new c ↔ images self.old c }
        ensures time { Elapses (moment self.old) (moment self.new) (since self.old) (since self.new) (images self.new) }
        ensures passes { Passes (moment self.old) (moment self.new) (images_at self.old)
            (images_at self.new) (images self.new) }
        ensures never_fall { faults self.old ≤ faults self.new }
        ensures no_fault { OnOk result (faults self.new ≡ faults self.old) }
        ensures cause { OnErr result (HasRisen (faults self.old) (faults self.new)) };

    /// Writes the bytes from `at` on, over what is there and past the end.
    ///
    /// # Errors
    /// `Failed` if the disk failed, as where the greatest length would be passed. Any part of the range may be written then.
    fn write_at(&mut self, at: u64, bytes: &[u8]) -> Result<(), Failed>
        requires within { IfSome (now self.old) (λ file. at ≤ length file) }
        ensures written { OnOk result (now self.new ≡ option_map (written at bytes.now) (now self.old)) }
        ensures limit { OnOk result (at + length bytes.now < 2 ^ 63) }
        ensures torn { OnErr result (AreTold (Torn at (length bytes.now)) (now self.old) (now self.new)) }
        ensures images { Follows (Torn at (length bytes.now)) (images self.old) (images self.new) }
        ensures time { Elapses (moment self.old) (moment self.new) (since self.old) (since self.new) (images self.new) }
        ensures passes { Passes (moment self.old) (moment self.new) (images_at self.old)
            (images_at self.new) (images self.new) }
        ensures never_fall { faults self.old ≤ faults self.new }
        ensures no_fault { OnOk result (faults self.new ≡ faults self.old) }
        ensures cause { OnErr result (HasRisen (faults self.old) (faults self.new)) };

    /// Waits until what was written is kept: after it, a crash leaves what a read gives.
    ///
    /// # Errors
    /// `Failed` if the disk failed. No image is added then.
    fn sync(&mut self) -> Result<(), Failed>
        ensures durable { OnOk result (IfSome (now self.old) (λ file. Only file (images self.new))) }
        ensures same { now self.new ≡ now self.old }
        ensures images { (c : List ℕ) → images self.new c → images self.old c }
        ensures time { Elapses (moment self.old) (moment self.new) (since self.old) (since self.new) (images self.new) }
        ensures passes { Passes (moment self.old) (moment self.new) (images_at self.old)
            (images_at self.new) (images self.new) }
        ensures never_fall { faults self.old ≤ faults self.new }
        ensures no_fault { OnOk result (faults self.new ≡ faults self.old) }
        ensures cause { OnErr result (HasRisen (faults self.old) (faults self.new)) };

    /// What a read gives is an image now.
    ghost now_is_image: { (disk : Self) → IfSome (now disk) (λ file. images disk file) };

    /// The images at the moment now are those that a crash may leave now.
    ghost images_at_now: { (disk : Self) (c : List ℕ) → images_at disk (moment disk) c ↔ images disk c };

    /// At each moment up to now there is an image.
    ghost some_image: { (disk : Self) → IfSome (now disk)
        (λ _. (t : ℕ) → t ≤ moment disk → (c : List ℕ) × images_at disk t c) };

    /// The images since a moment are those at it and at the moments behind it.
    ghost since_is: { (disk : Self) (t : ℕ) (c : List ℕ) → since disk t c ↔ WasImageSince (moment disk) (images_at disk) t c };

    /// An image now is one since now.
    ghost counts_now: { (disk : Self) (c : List ℕ) → images disk c → since disk (moment disk) c };

    /// Since now there is no other.
    ghost only_now: { (disk : Self) (c : List ℕ) → since disk (moment disk) c → images disk c };

    /// An image since a moment is one since each earlier moment.
    ghost since_earlier: { (disk : Self) (t u : ℕ) (c : List ℕ) → t ≤ u → since disk u c → since disk t c };
}
