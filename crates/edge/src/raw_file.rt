//! What a disk asks of a file of the system.
ghost use Rattle.std.specs.Prelude.{◌≡◌, ℕ, ◌+◌, ◌≤◌, ◌↔◌, Option, List, length, take, drop, IfSome, IfOk, OnOk, OnErr};
ghost use Rattle.std.specs.Option.{option_map};
ghost use Rattle.edge.specs.Disk.{written, Torn, Follows, Only, AreTold, Elapses, Passes, WasImageSince};

use std::io;

/// A file of the system, by the four calls that a disk over it makes. They are those of std, and their contracts say what std and
/// the system do: how the bytes and the images change. Faults are not counted and lengths have no limit here.
pub trait RawFile {
    /// What a read gives, none where it does not tell.
    ghost now: { Self → Option (List ℕ) };

    /// The moment, a number that does not fall.
    ghost moment: { Self → ℕ };

    /// What a crash now may leave.
    ghost images: { Self → List ℕ → Type 0 };

    /// What a crash at that moment might have left.
    ghost images_at: { Self → ℕ → List ℕ → Type 0 };

    /// What a crash at some moment from that one on might have left.
    ghost since: { Self → ℕ → List ℕ → Type 0 };

    /// How many bytes there are.
    ///
    /// # Errors
    /// The system's error.
    fn len(&mut self) -> io::Result<u64>
        ensures len { IfOk result (λ n. IfSome (now self.old) (λ file. n ≡ length file)) }
        ensures same { now self.new ≡ now self.old }
        ensures images { (c : List ℕ) → images self.new c ↔ images self.old c }
        ensures time { Elapses (moment self.old) (moment self.new) (since self.old) (since self.new) (images self.new) }
        ensures passes { Passes (moment self.old) (moment self.new) (images_at self.old) (images_at self.new)
            (images self.new) };

    /// Fills `into` with the bytes from `at` on.
    ///
    /// # Errors
    /// The system's error. What `into` holds then is open.
    fn read_exact_at(&mut self, into: &mut [u8], at: u64) -> io::Result<()>
        requires within { IfSome (now self.old) (λ file. at + length into.old ≤ length file) }
        ensures read { OnOk result (IfSome (now self.old) (λ file. into.new ≡ take (length into.old) (drop at file))) }
        ensures same { now self.new ≡ now self.old }
        ensures images { (c : List ℕ) → images self.new c ↔ images self.old c }
        ensures time { Elapses (moment self.old) (moment self.new) (since self.old) (since self.new) (images self.new) }
        ensures passes { Passes (moment self.old) (moment self.new) (images_at self.old) (images_at self.new)
            (images self.new) };

    /// Writes the bytes from `at` on, over what is there and past the end.
    ///
    /// # Errors
    /// The system's error. Any part of the range may be written then.
    fn write_all_at(&mut self, bytes: &[u8], at: u64) -> io::Result<()>
        requires within { IfSome (now self.old) (λ file. at ≤ length file) }
        ensures written { OnOk result (now self.new ≡ option_map (written at bytes.now) (now self.old)) }
        ensures torn { OnErr result (AreTold (Torn at (length bytes.now)) (now self.old) (now self.new)) }
        ensures images { Follows (Torn at (length bytes.now)) (images self.old) (images self.new) }
        ensures time { Elapses (moment self.old) (moment self.new) (since self.old) (since self.new) (images self.new) }
        ensures passes { Passes (moment self.old) (moment self.new) (images_at self.old) (images_at self.new)
            (images self.new) };

    /// Waits until what was written is kept: after it, a crash leaves what a read gives.
    ///
    /// # Errors
    /// The system's error. No image is added then.
    fn sync_all(&mut self) -> io::Result<()>
        ensures durable { OnOk result (IfSome (now self.old) (λ file. Only file (images self.new))) }
        ensures same { now self.new ≡ now self.old }
        ensures images { (c : List ℕ) → images self.new c → images self.old c }
        ensures time { Elapses (moment self.old) (moment self.new) (since self.old) (since self.new) (images self.new) }
        ensures passes { Passes (moment self.old) (moment self.new) (images_at self.old) (images_at self.new)
            (images self.new) };

    /// What a read gives is an image now.
    ghost now_is_image: { (file : Self) → IfSome (now file) (λ bytes. images file bytes) };

    /// The images at the moment now are those that a crash may leave now.
    ghost images_at_now: { (file : Self) (c : List ℕ) → images_at file (moment file) c ↔ images file c };

    /// At each moment up to now there is an image.
    ghost some_image: { (file : Self) → IfSome (now file)
        (λ _. (t : ℕ) → t ≤ moment file → (c : List ℕ) × images_at file t c) };

    /// The images since a moment are those at it and at the moments behind it.
    ghost since_is: { (file : Self) (t : ℕ) (c : List ℕ) → since file t c
        ↔ WasImageSince (moment file) (images_at file) t c };

    /// An image now is one since now.
    ghost counts_now: { (file : Self) (c : List ℕ) → images file c → since file (moment file) c };

    /// Since now there is no other.
    ghost only_now: { (file : Self) (c : List ℕ) → since file (moment file) c → images file c };

    /// An image since a moment is one since each earlier moment.
    ghost since_earlier: { (file : Self) (t u : ℕ) (c : List ℕ) → t ≤ u → since file u c → since file t c };
}
