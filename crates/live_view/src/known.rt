//! What is known of the published views.
ghost use Rattle.std.specs.Prelude.{◌≡◌, ◌⊎◌, [], ◌∷◌, ◌++◌, MatchBool};
ghost use mathlib.Core.List.{IsPrefix};
ghost use Rattle.live_view.specs.Published.{ArePublished, MayFollow};
ghost use Rattle.live_view.specs.Inside.SeriesRules.{head_of};

use crate::published::Published;
use crate::series::{Add, Head, NoGain, SeriesRule};
use logbook::{Offer, Seen};
use std::marker::Model;

/// What is known of the published views: a beginning of their list, and its length. It stays so for good.
#[derive(Drop)]
pub(crate) struct Known {
    count: u64,
    seen: Seen<Published, u64, SeriesRule>,
}

impl Model for Known {
    ghost use Rattle.std.specs.Prelude.{◌≡◌, length};
    ghost use Rattle.live_view.specs.Published.{KnownViews, ArePublished};

    ghost Value = { KnownViews };

    ghost view = { λ k. record { book = k.seen.book; published = k.seen.log } };

    ghost invariant = { λ k. (k.count ≡ length k.seen.log) × ArePublished k.seen.log };
}

impl Known {
    /// Knows of no view, since none was published yet.
    pub(crate) fn nothing(seen: Seen<Published, u64, SeriesRule>) -> Known
        requires { seen.log ≡ [] }
        ensures { (result.book ≡ seen.book) × (result.published ≡ []) }
    {
        Known { count: 0, seen }
    }

    /// A copy.
    pub(crate) fn again(&self) -> Known
        ensures same { result ≡ self.now }
        ensures published { ArePublished self.now.published }
    {
        Known {
            count: self.count,
            seen: self.seen.again(),
        }
    }

    /// Whether fewer views are known here than there. The shorter list begins the longer.
    pub(crate) fn is_less(&self, other: &Known) -> bool
        requires { other.now.book ≡ self.now.book }
        ensures { MatchBool result (IsPrefix self.now.published other.now.published)
            (IsPrefix other.now.published self.now.published) }
    {
        let mut both = self.seen.again();
        both.learn(&other.seen);
        self.count < other.count
    }

    /// Adds a view behind all that are known, and says whether it did. It did not if more were published, or if the
    /// count is full.
    pub(crate) fn add(&mut self, head: &Head, shown: &Published) -> bool
        requires head { head.now ≡ head_of self.old.book }
        requires legal { MayFollow self.old.published shown.now }
        ensures book { self.new.book ≡ self.old.book }
        ensures added { MatchBool result (self.new.published ≡ self.old.published ++ shown.now ∷ [])
            (IsPrefix self.old.published self.new.published) }
    {
        let count = self.count;
        let Some(next) = count.checked_add(1) else {
            return false;
        };
        let mut offer: Offer<Published, u64, SeriesRule, NoGain> = self
            .seen
            .plain::<NoGain, Published, Add>(shown);
        let mut pen = self.seen.no_pen();
        let found = head.compare_exchange::<Add, NoGain>(
            count,
            next,
            &mut self.seen,
            &mut offer,
            &mut pen,
        );
        self.count = if found == count { next } else { found };
        found == count
    }
}
