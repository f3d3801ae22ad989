//! The list of the published views, to which only the writer adds. Only its length has bytes.
ghost use Rattle.std.specs.Prelude.{◌≡◌, [], ◌∷◌, ◌++◌, MatchBool};
ghost use Rattle.live_view.specs.Published.{MayFollow};
ghost use Rattle.live_view.specs.Inside.SeriesRules.{head_of};

use crate::known::Known;
use crate::published::Published;
use logbook::{Gain, Plain, Play, Rule, Seen, Start, Word};

/// The rule of the list: a word counts its views, which are right and rise.
pub struct SeriesRule;

impl Rule<Published, u64> for SeriesRule {
    ghost use Rattle.std.specs.Prelude.{[]};
    ghost use base.Fml.{ftrue};
    ghost use Rattle.live_view.specs.Inside.SeriesRules.{IsKept};

    ghost holds = { λ cells published. IsKept cells published };

    ghost first = { [] };

    ghost hinted = { λ n published. Unit {0} };

    ghost shows = { λ published. [] };

    ghost keeps = { λ names published. ftrue };

    ghost moves = { λ ask before after answer. Unit {0} };
}

/// Whoever adds a view trades nothing for it.
pub struct NoGain;

impl Gain<Published, u64> for NoGain {
    ghost use base.Fml.{ftrue};

    ghost after = { λ names about answer. ftrue };
}

/// The step that adds a view.
pub struct Add;

impl Play<Published, u64> for Add {
    ghost use Rattle.live_view.specs.Inside.SeriesRules.{Adds};

    ghost then = { Adds };
}

impl Plain<Published, Published, u64> for Add {
    ghost use Rattle.std.specs.Prelude.{None};

    ghost ask = { λ shown. shown };

    ghost state = { λ shown. None };
}

/// The word that counts the published views.
pub(crate) type Head = Word<Published, u64, SeriesRule>;

/// The list of the published views, as the writer has it.
#[derive(Drop)]
pub(crate) struct Series {
    head: Head,
    pub(crate) known: Known,
    ghost head_is: { head ≡ head_of known.book },
}

impl Series {
    /// The empty list.
    pub(crate) fn new() -> Series
        ensures { result.known.published ≡ [] }
    {
        let (seen, mut first, _second) = Seen::open(Start::alone(), 0, 0);
        Series {
            head: Word::tracked(0, &mut first),
            known: Known::nothing(seen),
        }
    }

    /// Adds a view, and says whether it did. It does as long as nobody else adds one and the count fits its word.
    pub(crate) fn add(&mut self, shown: &Published) -> bool
        requires { MayFollow self.old.known.published shown.now }
        ensures { MatchBool result
            (self.new.known ≡ record self.old.known { published = self.old.known.published ++ shown.now ∷ [] })
            (self.new.known ≡ self.old.known) }
    {
        let mut known = self.known.again();
        if !known.add(&self.head, shown) {
            return false;
        }
        self.known = known;
        true
    }
}
