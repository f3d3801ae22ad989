//! What was done to a disk of tests, as contracts alone see it.
ghost use Rattle.std.specs.Prelude.{◌≡◌};
ghost use Rattle.edge.specs.Inside.MemDisk.{opened, wrote, synced};

use ghost_list::GhostList;
use std::marker::Model;

/// A write of these bytes from this place on.
#[derive(Drop)]
struct Write {
    at: u64,
    bytes: Vec<u8>,
}

impl Model for Write {
    ghost use Rattle.edge.specs.Inside.MemDisk.{Write as Written};

    ghost Value = { Written };

    ghost view = { λ w. record { at = w.at; bytes = w.bytes.items } };
}

/// The bytes that a disk was opened with, and what was done to it since. It has no bytes, and is made without memory.
#[derive(Drop)]
pub(crate) struct Past {
    first: GhostList<u8>,
    steps: GhostList<Option<Write>>,
}

impl Model for Past {
    ghost use Rattle.edge.specs.Inside.MemDisk.{History};

    ghost Value = { History };

    ghost view = { λ p. record { first = p.first; steps = p.steps } };
}

impl Past {
    /// It was opened with these bytes.
    pub(crate) fn opened(bytes: &[u8]) -> Past
        ensures { result ≡ opened bytes.now }
    {
        Past {
            first: GhostList::of(bytes),
            steps: GhostList::empty(),
        }
    }

    /// Then these bytes were written from `at` on.
    pub(crate) fn wrote(&mut self, at: u64, bytes: &[u8])
        ensures { self.new ≡ wrote at bytes.now self.old }
    {
        self.steps = GhostList::picked(&(&self.steps, at, bytes));
    }

    /// Then all was synced.
    pub(crate) fn synced(&mut self)
        ensures { self.new ≡ synced self.old }
    {
        self.steps = GhostList::picked(&&self.steps);
    }
}
