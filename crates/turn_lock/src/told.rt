//! What lies behind a turn.
ghost use Rattle.std.specs.Prelude.{◌≡◌, ℕ, ◌<◌, List, length};

/// A state that tells its history: a list of entries, each with the number of the pass that made it.
///
/// Its name and its entries need no bound, since they exist in contracts. Only where a turn or a pass is let go the state
/// has to be `Drop`; otherwise all passes are joined, and the turn is closed.
pub trait Told {
    /// What stays the same of the state, from its first moment on. It exists in contracts alone.
    type Name;

    /// What a pass adds to the history.
    type Entry;

    ghost name: { Self → Self.Name };

    /// The history, oldest entry first, each entry with the number of its pass.
    ghost entries: { Self → List (ℕ × Self.Entry) };

    /// The front numbers of a history, by index.
    ghost front_of: { Self.Name → List (ℕ × Self.Entry) → ℕ → ℕ };

    /// How many front numbers there are.
    ghost width: { Self.Name → ℕ };

    /// How many entries the history has.
    fn length(&self) -> u64
        ensures { result ≡ length (entries self.now) };

    /// The front number of index `i`, from 0.
    fn front(&self, i: usize) -> u64
        requires { i < width (name self.now) }
        ensures { result ≡ front_of (name self.now) (entries self.now) i };
}
