//! The finished squares of a board, read into a view.
ghost use Rattle.std.specs.Prelude.{◌≡◌, ◌<◌, ◌≤◌, Contains};
ghost use Rattle.bidegree.specs.declared.range.TheConstants.{MAX_S, MAX_T};
ghost use Rattle.bidegree.specs.declared.shape.Shape.TheVariants.{Rectangle};
ghost use Rattle.square_board.specs.Boards.{IsPassOf, IsSamePass};
ghost use Rattle.square_board.specs.Courses.{events_of};
ghost use Rattle.square_board.specs.Openings.{subject_of, shape_of, front_after};
ghost use Rattle.square_worker.specs.Kept.{IsCount};
ghost use Rattle.live_view.specs.Counted.{module_in, start_in};
ghost use Rattle.live_view.specs.Views.{IsRight};
ghost use Rattle.live_view.specs.Publishing.{AreDone};
ghost use Rattle.live_view.specs.Inside.Reading.{AreFalling, HasRead, HasReadRow};
ghost use mathlib.Core.List.{IsPrefix};

use crate::counted::Counted;
use crate::view::View;
use bidegree::Range;
use square_board::{Board, BoardPass};
use std::sync::Wait;
use std::time::Clock;

/// Puts the finished squares of the range into the view. It goes from the last row down to row 0, so that they are a
/// staircase: when a square is done, so is the one below it.
pub(crate) fn read_board<R: Wait + Clock, T: Counted>(
    wait: &R,
    board: &Board<T>,
    pass: &mut BoardPass<T>,
    view: &mut View,
    range: Range,
)
    requires pass { IsPassOf board.now pass.old }
    requires whole { shape_of T.words board.now.name ≡ Rectangle }
    requires reached { T.words.reaches (subject_of T.words board.now.name) board.now.name.range }
    requires rows { range.s ≤ MAX_S }
    requires degrees { range.t ≤ MAX_T }
    requires range { board.now.name.range ≡ range }
    requires right { IsRight (module_in T.words T.table_of board.now.name) (start_in T.words T.table_of board.now.name)
        view.old }
    requires done { AreDone T.words board.now.name (events_of pass.old.seen) view.old }
    ensures pass { IsPassOf board.now pass.new }
    ensures same { IsSamePass pass.old pass.new }
    ensures own { pass.new.own ≡ pass.old.own }
    ensures seen { IsPrefix pass.old.seen pass.new.seen }
    ensures read { HasRead T.words T.table_of board.now.name (events_of pass.old.seen) (events_of pass.new.seen) view.old
        view.new }
{
    for i in 0..=range.s {
        read_row(wait, board, pass, view, range.s - i, range.t);
    }
}

/// Puts the finished squares of row `s` into the view, through `t` degrees above the bottom.
fn read_row<R: Wait + Clock, T: Counted>(
    wait: &R,
    board: &Board<T>,
    pass: &mut BoardPass<T>,
    view: &mut View,
    s: u16,
    t: u16,
)
    requires pass { IsPassOf board.now pass.old }
    requires whole { shape_of T.words board.now.name ≡ Rectangle }
    requires reached { T.words.reaches (subject_of T.words board.now.name) board.now.name.range }
    requires row { s ≤ board.now.name.range.s }
    requires degree { t ≤ board.now.name.range.t }
    requires rows { board.now.name.range.s ≤ MAX_S }
    requires degrees { t ≤ MAX_T }
    ensures pass { IsPassOf board.now pass.new }
    ensures same { IsSamePass pass.old pass.new }
    ensures own { pass.new.own ≡ pass.old.own }
    ensures seen { IsPrefix pass.old.seen pass.new.seen }
    ensures read { HasReadRow T.words T.table_of board.now.name (events_of pass.old.seen) (events_of pass.new.seen)
        view.old view.new s t }
{
    let front = board.front(pass, s);
    let first = view.row_len(s) as u16;
    let past = front.min(u64::from(t) + 1) as u16;
    for k in first..past {
        let count = count_at(wait, board, pass, s, k, front);
        view.push(s, count);
    }
}

/// How many generators the square in row `s` and `above` degrees above the bottom has. The square is done, since the pass
/// was told this front of its row.
fn count_at<R: Wait + Clock, T: Counted>(
    wait: &R,
    board: &Board<T>,
    pass: &mut BoardPass<T>,
    s: u16,
    above: u16,
    front: u64,
) -> usize
    requires pass { IsPassOf board.now pass.old }
    requires whole { shape_of T.words board.now.name ≡ Rectangle }
    requires reached { T.words.reaches (subject_of T.words board.now.name) board.now.name.range }
    requires row { s ≤ board.now.name.range.s }
    requires degree { above ≤ board.now.name.range.t }
    requires told { Contains pass.old.told (s, front) }
    requires done { above < front }
    ensures pass { IsPassOf board.now pass.new }
    ensures same { IsSamePass pass.old pass.new }
    ensures own { pass.new.own ≡ pass.old.own }
    ensures seen { IsPrefix pass.old.seen pass.new.seen }
    ensures told { pass.new.told ≡ pass.old.told }
    ensures front { front ≤ front_after T.words board.now.name (events_of pass.new.seen) s }
    ensures falling { AreFalling T.words board.now.name (events_of pass.new.seen) }
    ensures count { IsCount (module_in T.words T.table_of board.now.name) (start_in T.words T.table_of board.now.name)
        s above result }
{
    T::counts_are_of_table();
    match board.generators(wait, pass, s, above) {
        Some(count) => count,
        None => unreachable!(),
    }
}
