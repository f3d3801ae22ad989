//! The value of which the writer and its reader share two copies: the newest view.
ghost use Rattle.std.specs.Prelude.{◌≡◌, ◌⊎◌, [], IfOk};
ghost use Rattle.live_view.specs.Published.{last_view, ArePublished};
ghost use Rattle.live_view.specs.Handles.{Continues};
ghost use Rattle.live_view.specs.Chart.{squares_within};

use crate::known::Known;
use crate::view::View;
use atomic_table::{Join, Split};
use crossbeam_utils::rule::{Outcome, Protocol};
use left_right::Absorb;
use memory::Memory;
use std::alloc::{AllocError, Global};
use std::marker::Model;

/// The newest of the published views that are known. Contracts see it as their list.
#[derive(Drop)]
pub(crate) struct Newest {
    pub(crate) view: View,
    pub(crate) known: Known,
}

impl Model for Newest {
    ghost use Rattle.std.specs.Prelude.{◌≡◌};
    ghost use Rattle.live_view.specs.Published.{KnownViews, last_view};

    ghost Value = { KnownViews };

    ghost view = { λ l. l.known };

    ghost invariant = { λ l. l.view ≡ last_view l.known.published };
}

impl Newest {
    /// The blank view, which stands before the first that is published.
    pub(crate) fn blank(alloc: Global, known: &Known) -> Result<Newest, Memory>
        requires { known.now.published ≡ [] }
        ensures { IfOk result (λ l. l ≡ known.now) }
    {
        let view = View::blank(alloc)?;
        Ok(Newest {
            view,
            known: known.again(),
        })
    }

    /// A copy.
    pub(crate) fn again(&self, alloc: Global) -> Result<Newest, Memory>
        ensures { IfOk result (λ l. l ≡ self.now) }
    {
        let view = self.view.again(alloc)?;
        Ok(Newest {
            view,
            known: self.known.again(),
        })
    }

    /// Becomes the other.
    pub(crate) fn copy_from(&mut self, other: &Newest)
        ensures { self.new ≡ other.now }
    {
        self.view.copy_from(&other.view);
        self.known = other.known.again();
    }

    /// Becomes the other if that is newer.
    pub(crate) fn see(&mut self, other: &Newest)
        requires { other.now.book ≡ self.old.book }
        ensures one { (self.new ≡ self.old) ⊎ (self.new ≡ other.now) }
        ensures old { Continues self.old self.new }
        ensures other { Continues other.now self.new }
    {
        if self.known.is_less(&other.known) {
            self.copy_from(other);
        }
    }
}

impl Absorb<Newest> for Newest {
    type State = Newest;

    ghost state = { λ newest. newest };

    ghost applied = { λ newest next. next };

    ghost never_fails = { Unit {0} };

    fn absorb_first(&mut self, operation: &Newest, _other: &Newest) -> Result<(), AllocError> {
        self.copy_from(operation);
        Ok(())
    }
}

/// What a reader or the writer knows of the book that lists the published views. Only proofs speak of it.
pub(crate) type Tie = Option<(u64, u64, u64)>;

/// The rule of the two copies: whoever knows of a book knows of the one that the value is of.
pub(crate) struct OneBook;

impl Protocol<Newest, Tie> for OneBook {
    ghost use Rattle.std.specs.Prelude.{None};
    ghost use Rattle.live_view.specs.Inside.Ties.{AllTied};

    ghost holds = { λ newest. AllTied newest.book };

    ghost first = { None };
}

/// Whoever sees the value knows of its book.
pub(crate) struct Sees;

impl Outcome<Newest, Tie> for Sees {
    ghost use Rattle.live_view.specs.Inside.Ties.{HasSeen};

    ghost then = { λ v x y w. HasSeen v x.book y.book w };
}

/// Both know what the one knew.
pub(crate) struct Shares;

impl Split<Tie> for Shares {
    ghost left = { λ v. v };

    ghost right = { λ v. v };
}

/// The one knows what the other knew.
pub(crate) struct Takes;

impl Join<Tie> for Takes {
    ghost use Rattle.std.specs.Prelude.{None};

    ghost both = { λ v w. w };

    ghost spent = { None };
}
