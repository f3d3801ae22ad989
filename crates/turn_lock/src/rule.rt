//! The rule of the turn's table.
use crate::told::Told;
use crate::view::View;
use atomic_table::TableRule;
use std::snapshot::Snapshot;

/// What the table is told when it is made: the first state, and how many passes there are.
pub struct Opening<T> {
    pub first: Snapshot<T>,
    pub passes: usize,
}

impl<T> Drop for Opening<T> {
    fn drop(self) {
        let Opening {
            first: _,
            passes: _,
        } = self;
    }
}

/// The rule: there is one history, which the words count, the slot holds while the turn is free, and each pass knows a beginning of.
///
/// Word 0 is twice the number of entries, and one more while the turn is held. Word i + 1 is the front number i. The one slot has the
/// state, and nothing while the turn is held.
pub struct OneHistory;

impl<T: Told> TableRule<Option<T>, View<T::Name, T::Entry>, Opening<T>> for OneHistory {
    ghost use Rattle.turn_lock.specs.Inside.Rule.{Keeps, first_view};

    ghost holds = { λ key s. Keeps T.entries T.name (T.front_of (T.name key.first.value))
        (T.width (T.name key.first.value)) (T.name key.first.value) key.passes s };

    ghost first = { λ key. first_view (T.name key.first.value) };
}
