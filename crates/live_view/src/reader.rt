//! The reader of the views that a writer publishes.
ghost use Rattle.std.specs.Prelude.{◌≡◌, IfOk};
ghost use Rattle.live_view.specs.Chart.{live_chart, squares_within};
ghost use Rattle.live_view.specs.Handles.{LiveState, with_known, Continues};
ghost use Rattle.live_view.specs.Published.{last_view, ArePublished, IsPartOfCharts};
ghost use Rattle.live_view.specs.Inside.Ties.{tie_of};
ghost use Rattle.left_right.specs.Sides.{view as tie_at};

use crate::chart::chart;
use crate::laws::{right_chart_is_part, right_view_is_canonical};
use crate::newest::{Newest, OneBook, Sees, Tie};
use crate::note::Note;
use bidegree::Range;
use core::mem::replace_with;
use left_right::reader::Reader;
use memory::Memory;
use std::alloc::Global;
use std::marker::Model;

/// A reader of the shared value.
pub(crate) type Seat = Reader<Newest, Tie, OneBook>;

/// A reader of the shared value, with the newest view that it saw or learnt.
#[derive(Drop)]
pub(crate) struct Sight {
    pub(crate) seat: Seat,
    pub(crate) kept: Newest,
    ghost tied: { tie_at seat.place ≡ tie_of kept.book },
}

/// A reader sees the views that its writer publishes. It may go to any thread, and none of its calls waits.
///
/// A contract sees it as its range, the least degree, and the views that it knows: a beginning of the list of those that its
/// writer published. It answers from the last of them. No contract promises that it sees a view of which it learnt no note.
#[derive(Drop)]
pub struct LiveReader {
    pub(crate) sight: Sight,
    pub(crate) range: Range,
    pub(crate) bottom: i32,
}

impl Model for LiveReader {
    ghost use Rattle.std.specs.Prelude.{◌≤◌, ◌+ℤ◌, ◌≤ℤ◌, pos};
    ghost use Rattle.bidegree.specs.declared.range.TheConstants.{MAX_S, MAX_T};
    ghost use Rattle.live_view.specs.Handles.{LiveState};

    ghost Value = { LiveState };

    ghost view = { λ r. record { range = r.range; bottom = r.bottom; known = r.sight.kept } };

    ghost invariant = { λ r. (r.range.s ≤ MAX_S)
        × (r.range.t ≤ MAX_T)
        × ((r.bottom +ℤ pos r.range.t) ≤ℤ pos 2147483647) };
}

impl LiveReader {
    /// Takes in a note of its writer. From then on the reader answers from that view, or from a later one.
    pub fn learn(&mut self, note: Note)
        requires { note.book ≡ self.old.known.book }
        ensures same { self.new ≡ with_known self.old self.new.known }
        ensures seen { Continues self.old.known self.new.known }
        ensures learnt { Continues note self.new.known }
    {
        self.sight.kept.see(&note.newest);
    }

    /// Takes in the view that is published now, unless the shared value refuses the entry.
    fn look(&mut self)
        ensures same { self.new ≡ with_known self.old self.new.known }
        ensures seen { Continues self.old.known self.new.known }
        ensures published { ArePublished self.new.known.published }
    {
        replace_with(&mut self.sight, (), see_through);
        let _known = self.sight.kept.known.again();
    }

    /// How many squares of the range the view has that the reader answers from. That view is a published one. It has all
    /// squares of each view that the reader answered from before, and of each that was published before a note that it learnt.
    pub fn squares(&mut self) -> u64
        ensures same { self.new ≡ with_known self.old self.new.known }
        ensures seen { Continues self.old.known self.new.known }
        ensures squares { result ≡ squares_within self.old.range (last_view self.new.known.published) }
        ensures published { ArePublished self.new.known.published }
    {
        self.look();
        self.sight.kept.view.squares(self.range)
    }

    /// The chart of the view that the reader answers from: a line for each row of the range, the greatest first, in it a mark
    /// for each stem, and last the line of the stems. A square that the view does not have is a space. Each other mark is the
    /// one of the finished chart, if the squares that the board opened with are canonical.
    ///
    /// # Errors
    /// `Memory` if allocation fails.
    pub fn chart(&mut self, alloc: Global) -> Result<Vec<u8>, Memory>
        ensures same { self.new ≡ with_known self.old self.new.known }
        ensures seen { Continues self.old.known self.new.known }
        ensures chart { IfOk result (λ text. text.items
            ≡ live_chart self.old.bottom self.old.range (last_view self.new.known.published)) }
        ensures published { ArePublished self.new.known.published }
        ensures part { IfOk result (λ text.
            IsPartOfCharts self.old.bottom self.old.range self.new.known.published text.items) }
    {
        self.look();
        right_view_is_canonical();
        right_chart_is_part();
        self.kept_chart(alloc)
    }

    /// The chart of the view that the reader keeps.
    fn kept_chart(&self, alloc: Global) -> Result<Vec<u8>, Memory>
        ensures { IfOk result (λ text. text.items
            ≡ live_chart self.now.bottom self.now.range (last_view self.now.known.published)) }
    {
        chart(alloc, &self.sight.kept.view, self.range, self.bottom)
    }
}

/// Takes in what the seat finds published.
fn see_through(sight: Sight, _nothing: ()) -> (Sight, ())
    ensures { Continues sight.kept result.0.kept }
{
    let Sight { seat, mut kept } = sight;
    match seat.enter_as::<Sees>() {
        Ok(reading) => {
            kept.see(reading.get());
            let seat = reading.leave();
            (Sight { seat, kept }, ())
        }
        Err(seat) => (Sight { seat, kept }, ()),
    }
}
