//! The writer of the views that a reader sees.
ghost use Rattle.std.specs.Prelude.{◌≡◌, ◌≤◌, pos, ◌+ℤ◌, ◌≤ℤ◌, [], ◌∷◌, ◌++◌, drop, IfOk, IfSome, OnErr};
ghost use Rattle.bidegree.specs.declared.range.TheConstants.{MAX_S, MAX_T};
ghost use mathlib.Core.List.{IsPrefix};
ghost use Rattle.square_board.specs.Boards.{IsSamePass};
ghost use Rattle.square_board.specs.Courses.{events_of};
ghost use Rattle.left_right.specs.Sides.{view as tie_at};
ghost use Rattle.live_view.specs.Handles.{LiveState, with_known};
ghost use Rattle.live_view.specs.Published.{KnownViews, MayFollow};
ghost use Rattle.live_view.specs.Publishing.{MayPublish, HasPublished};
ghost use Rattle.live_view.specs.Inside.Ties.{tie_of};

use crate::counted::Counted;
use crate::newest::{Newest, OneBook, Sees, Shares, Takes, Tie};
use crate::note::Note;
use crate::published::Published;
use crate::reader::{LiveReader, Seat, Sight};
use crate::reading::read_board;
use crate::series::Series;
use crate::view::View;
use bidegree::Range;
use core::mem::replace_with;
use left_right::writer::Writer;
use memory::Memory;
use square_board::{Board, BoardPass};
use std::alloc::Global;
use std::marker::Model;
use std::sync::Wait;
use std::time::Clock;

/// The writer of the shared value.
type Pen = Writer<Newest, Newest, Tie, OneBook>;

/// The writer of the shared value, with no operation pending: the reader sees the value as the writer has it.
struct Flushed {
    pen: Pen,
    ghost settled: { drop pen.behind pen.log.items ≡ [] },
    ghost tied: { tie_at pen.desk.place ≡ tie_of pen.desk.shown.value.book },
}

/// A writer publishes views of one board. It cannot be dropped: `close` ends it.
///
/// A contract sees it as its range, the least degree, and the views that it published, of which its reader may see the last.
pub struct LiveWriter {
    flushed: Flushed,
    series: Series,
    range: Range,
    bottom: i32,
}

impl Model for LiveWriter {
    ghost use Rattle.std.specs.Prelude.{◌≡◌, ◌≤◌, ◌+ℤ◌, ◌≤ℤ◌, pos};
    ghost use Rattle.bidegree.specs.declared.range.TheConstants.{MAX_S, MAX_T};
    ghost use Rattle.live_view.specs.Handles.{LiveState};

    ghost Value = { LiveState };

    ghost view = { λ w. record { range = w.range; bottom = w.bottom; known = w.series.known } };

    ghost invariant = { λ w. (w.flushed.pen.desk.shown.value ≡ w.series.known)
        × (w.range.s ≤ MAX_S)
        × (w.range.t ≤ MAX_T)
        × ((w.bottom +ℤ pos w.range.t) ≤ℤ pos 2147483647) };
}

/// A writer and its one reader, for a board of this range whose module has this bottom, its least degree. Nothing is published
/// yet, and the reader answers from the view without a square.
///
/// # Errors
/// `Memory` if allocation fails.
pub fn new<R: Wait>(
    wait: &R,
    alloc: Global,
    range: Range,
    bottom: i32,
) -> Result<(LiveWriter, LiveReader), Memory>
    requires rows { range.s ≤ MAX_S }
    requires degrees { range.t ≤ MAX_T }
    requires fits { (bottom +ℤ pos range.t) ≤ℤ pos 2147483647 }
    ensures range { IfOk result (λ made. made.0.range ≡ range) }
    ensures bottom { IfOk result (λ made. made.0.bottom ≡ bottom) }
    ensures empty { IfOk result (λ made. made.0.known.published ≡ []) }
    ensures one { IfOk result (λ made. made.1 ≡ made.0) }
{
    let series = Series::new();
    let kept = Newest::blank(alloc, &series.known)?;
    let mut flushed = first_flushed(wait, alloc, &kept)?;
    let Some(seat) = seat_at(&mut flushed) else {
        let Flushed { pen } = flushed;
        drop(pen.take(wait));
        return Err(Memory);
    };
    let writer = LiveWriter {
        flushed,
        series,
        range,
        bottom,
    };
    let reader = LiveReader {
        sight: Sight { seat, kept },
        range,
        bottom,
    };
    Ok((writer, reader))
}

/// The writer of two copies of this value. One operation was added and shown, so that there is room for each later one.
fn first_flushed<R: Wait>(wait: &R, alloc: Global, first: &Newest) -> Result<Flushed, Memory>
    ensures { IfOk result (λ flushed. flushed.pen.desk.shown.value ≡ first.now) }
{
    let one = first.again(alloc)?;
    let two = first.again(alloc)?;
    let operation = first.again(alloc)?;
    let mut pen: Pen = Writer::new(alloc, one, two, 1)?;
    if pen.append(operation).is_err() {
        drop(pen.take(wait));
        return Err(Memory);
    }
    Ok(shown(wait, pen))
}

/// A reader of the shared value, none if there is no memory.
fn seat_at(flushed: &mut Flushed) -> Option<Seat>
    ensures shown { flushed.new.pen.desk.shown.value ≡ flushed.old.pen.desk.shown.value }
    ensures seat { IfSome result (λ seat. tie_at seat.place ≡ tie_of flushed.old.pen.desk.shown.value.book) }
{
    let mut seat = flushed.pen.factory().reader().ok()?;
    seat.learn::<Takes>(flushed.pen.tell::<Shares>());
    Some(seat)
}

/// Publishes a view of the board, all at once, and gives a note of it. It has each square of the range that was done after what
/// the pass had seen, and only squares that are done after what the pass has seen now. It looks at the board alone, and makes no entry.
///
/// # Errors
/// `Memory` if allocation fails; then nothing is published, and the reader sees what it would have seen.
pub fn publish<R: Wait + Clock, T: Counted>(
    wait: &R,
    alloc: Global,
    writer: &mut LiveWriter,
    board: &Board<T>,
    pass: &mut BoardPass<T>,
) -> Result<Note, Memory>
    requires { MayPublish T.words T.table_of board.now pass.old writer.old }
    ensures may { MayPublish T.words T.table_of board.now pass.new writer.new }
    ensures same { IsSamePass pass.old pass.new }
    ensures own { pass.new.own ≡ pass.old.own }
    ensures seen { IsPrefix pass.old.seen pass.new.seen }
    ensures writer { writer.new ≡ with_known writer.old writer.new.known }
    ensures published { IfOk result (λ note. HasPublished T.words T.table_of board.now.name
        (events_of pass.old.seen) (events_of pass.new.seen) writer.old.known writer.new.known) }
    ensures note { IfOk result (λ note. note ≡ writer.new.known) }
    ensures memory { OnErr result (writer.new ≡ writer.old) }
{
    let _known = writer.series.known.again();
    let newest = writer.flushed.pen.published();
    let mut view = newest.view.again(alloc)?;
    read_board(wait, board, pass, &mut view, writer.range);
    let shown = Published::of_board(board, &view);
    writer.show(wait, alloc, view, &shown)
}

/// Ends a writer and its reader. It waits until the reader has left the shared value.
pub fn close<R: Wait>(wait: &R, writer: LiveWriter, reader: LiveReader) {
    let LiveWriter {
        flushed: Flushed { pen },
        series: _,
        range: _,
        bottom: _,
    } = writer;
    drop(reader);
    drop(pen.take(wait));
}

impl LiveWriter {
    /// Publishes a view, all at once.
    fn show<R: Wait>(
        &mut self,
        wait: &R,
        alloc: Global,
        view: View,
        shown: &Published,
    ) -> Result<Note, Memory>
        requires follows { MayFollow self.old.known.published shown.now }
        requires view { view ≡ shown.now.view }
        ensures same { self.new ≡ with_known self.old self.new.known }
        ensures published { IfOk result (λ note.
            self.new.known ≡ record self.old.known { published = self.old.known.published ++ shown.now ∷ [] }) }
        ensures note { IfOk result (λ note. note ≡ self.new.known) }
        ensures memory { OnErr result (self.new ≡ self.old) }
    {
        let noted = view.again(alloc)?;
        if !self.series.add(shown) {
            return Err(Memory);
        }
        let newest = Newest {
            view: noted,
            known: self.series.known.again(),
        };
        let next = Newest {
            view,
            known: self.series.known.again(),
        };
        replace_with(&mut self.flushed, (wait, next), put_out);
        Ok(Note { newest })
    }
}

/// Shows the reader the next value.
fn put_out<R: Wait>(flushed: Flushed, with: (&R, Newest)) -> (Flushed, ())
    requires { with.1.book ≡ flushed.pen.desk.shown.value.book }
    ensures { result.0.pen.desk.shown.value ≡ with.entry.1 }
{
    let (wait, next) = with;
    let Flushed { mut pen } = flushed;
    append(wait, &mut pen, next);
    (shown(wait, pen), ())
}

/// Adds an operation. There has been room for it since the first was added, so no try fails.
fn append<R: Wait>(wait: &R, pen: &mut Pen, mut operation: Newest)
    requires { drop pen.old.behind pen.old.log.items ≡ [] }
    ensures desk { pen.new.desk ≡ pen.old.desk }
    ensures pending { drop pen.new.behind pen.new.log.items ≡ operation ∷ [] }
{
    for _ in wait.forever() {
        match pen.append(operation) {
            Ok(()) => return,
            Err(back) => operation = back,
        }
    }
    unreachable!()
}

/// Shows the reader the one operation that is pending.
fn shown<R: Wait>(wait: &R, pen: Pen) -> Flushed
    requires { (next : KnownViews)
        × (drop pen.behind pen.log.items ≡ next ∷ [])
        × (next.book ≡ pen.desk.shown.value.book) }
    ensures { drop pen.behind pen.log.items ≡ result.pen.desk.shown.value ∷ [] }
{
    let (pen, published) = pen.publish_as::<Sees, R>(wait);
    let Ok(()) = published else { unreachable!() };
    Flushed { pen }
}
