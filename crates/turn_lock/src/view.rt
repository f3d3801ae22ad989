//! What a pass knows of its turn.
use std::collections::LinkedList;

/// What the seat of a pass knows. It exists in proofs alone: no value of it is made.
pub struct View<N, E> {
    /// The name of the turn's state, none where the pass was joined into another.
    pub name: Option<N>,
    /// The number of the pass, which is the place of its seat.
    pub number: u64,
    /// The history as the pass saw it in its last turn, rest or join.
    pub seen: LinkedList<(u64, E)>,
    /// The history at its last load of a word.
    pub latest: LinkedList<(u64, E)>,
    /// The entries that it made.
    pub own: LinkedList<E>,
    /// The numbers that were joined, with their entries.
    pub joined: LinkedList<(u64, LinkedList<E>)>,
    /// The fronts that it was told, each with its index.
    pub told: LinkedList<(u64, u64)>,
    /// Whether it holds the turn.
    pub holds: bool,
    /// The front words that it stored in this turn, from the first on.
    pub stored: LinkedList<u64>,
    /// How many passes were made, where this is the first of them; else 0.
    pub made: u64,
}
