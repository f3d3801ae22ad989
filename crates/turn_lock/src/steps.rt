//! The steps of the turn, each with what it tells the pass that makes it.
use crate::told::Told;
use crate::view::View;
use atomic_table::{Join, Play, Split};

/// A load of word 0 that counts the history.
pub struct Count;

impl<T: Told> Play<Option<T>, View<T::Name, T::Entry>> for Count {
    ghost use Rattle.turn_lock.specs.Inside.Steps.{Counts};

    ghost then = { Counts };
}

/// A load of word 0 that sees the history, as a turn does.
pub struct See;

impl<T: Told> Play<Option<T>, View<T::Name, T::Entry>> for See {
    ghost use Rattle.turn_lock.specs.Inside.Steps.{Sees};

    ghost then = { Sees };
}

/// A load of a front word.
pub struct Read;

impl<T: Told> Play<Option<T>, View<T::Name, T::Entry>> for Read {
    ghost use Rattle.turn_lock.specs.Inside.Steps.{Reads};

    ghost then = { Reads T.front_of };
}

/// The exchange on word 0 that takes the turn.
pub struct Acquire;

impl<T: Told> Play<Option<T>, View<T::Name, T::Entry>> for Acquire {
    ghost use Rattle.turn_lock.specs.Inside.Steps.{Acquires};

    ghost then = { Acquires T.entries T.name T.front_of };
}

/// A store of a front word.
pub struct Store;

impl<T: Told> Play<Option<T>, View<T::Name, T::Entry>> for Store {
    ghost use Rattle.turn_lock.specs.Inside.Steps.{Stores};

    ghost then = { Stores };
}

/// The store on word 0 that ends the turn.
pub struct Release;

impl<T: Told> Play<Option<T>, View<T::Name, T::Entry>> for Release {
    ghost use Rattle.turn_lock.specs.Inside.Steps.{Releases};

    ghost then = { Releases T.entries };
}

/// The first pass makes another.
pub struct Make;

impl<N, E> Split<View<N, E>> for Make {
    ghost use Rattle.turn_lock.specs.Inside.Rule.{making, made_by};

    ghost left = { making };

    ghost right = { made_by };
}

/// A pass is joined into another.
pub struct TakeIn;

impl<N, E> Join<View<N, E>> for TakeIn {
    ghost use Rattle.turn_lock.specs.Inside.Rule.{joining, spent_view};

    ghost both = { joining };

    ghost spent = { spent_view };
}
