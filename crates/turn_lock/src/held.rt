//! The state while a pass holds the turn.

/// The state, lent to the pass that holds the turn. It ends in `Turn::release`: it cannot be dropped, nor taken apart elsewhere.
pub struct Held<T> {
    /// The state. It may be changed, or exchanged for another one that meets the conditions of `Turn::release`.
    pub value: T,
    pub(crate) taken: Taken,
}

/// That a turn was taken. It is no `Drop`, so it has to come back.
pub(crate) struct Taken;
