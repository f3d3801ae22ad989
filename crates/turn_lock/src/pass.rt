//! What a thread takes its turns with.
ghost use Rattle.std.specs.Prelude.{◌≡◌};

use crate::rule::Opening;
use crate::told::Told;
use crate::view::View;
use atomic_table::Seat;
use std::marker::Model;
use std::snapshot::Snapshot;

/// A pass of a turn. It has a number, and what it has seen of the turn's history. It may go to any thread where the state may.
///
/// A pass that is dropped keeps its number: then the turn cannot be closed.
///
/// What it has seen is two beginnings of the history: as of its last turn, rest or join, and as of its last look by `count`
/// or `front`. A look leaves the first as it is, so `Turn::rest` waits for more entries than that one has.
#[derive(Drop)]
pub struct Pass<T: Told> {
    pub(crate) seat: Seat<Option<T>, View<T::Name, T::Entry>>,
    pub(crate) of: Snapshot<Opening<T>>,
    pub(crate) number: u64,
    /// How many entries the history had when the pass last saw it in a turn or rest.
    pub(crate) count: u64,
}

impl<T: Told> Model for Pass<T> {
    ghost use Rattle.turn_lock.specs.Inside.Passes.{IsPass};
    ghost use Rattle.turn_lock.specs.Turns.{PassState};

    ghost Value = { PassState T.Name T.Entry };

    ghost view = { λ p. record {
      turn = record {
        table = p.seat.table_id;
        name = T.name p.of.value.first.value;
        passes = p.of.value.passes;
      };
      number = p.number;
      seen = p.seat.me.0.seen;
      latest = p.seat.me.0.latest;
      own = p.seat.me.0.own;
      joined = p.seat.me.0.joined;
      told = p.seat.me.0.told;
      holds = p.seat.me.0.holds;
    } };

    ghost invariant = { λ p. IsPass (T.name p.of.value.first.value) p.number p.count p.seat.me };
}

impl<T: Told> Pass<T> {
    /// Its number, from 0, which its entries carry.
    pub fn number(&self) -> u64
        ensures { result ≡ self.now.number }
    {
        self.number
    }
}
