//! What stays the same of a board.
ghost use Rattle.std.specs.Prelude.{◌+◌, IfOk, OnOk};
ghost use Rattle.board_core.specs.Machine.{IsStaircase, stands_in};
ghost use Rattle.square_board.specs.Openings.{ListsSquares, below_fronts};
ghost use Rattle.square_board.specs.Inside.Starts.{ListsPart};

use crate::stock::Stock;
use bidegree::Range;
use ghost_list::GhostList;
use memory::Memory;
use std::alloc::Global;
use std::snapshot::Snapshot;

/// What a board was made with. It exists in contracts, but for the range. It is the board's name, of values without bytes.
pub struct Opening<T> {
    /// The stock, with the squares that were done.
    pub first: Snapshot<T>,
    pub range: Range,
    /// The squares of the stock, each by its row and its degree, and after those that it stands on.
    pub start: GhostList<(u16, i32)>,
}

impl<T> Drop for Opening<T> {
    fn drop(self) {
        let Opening {
            first: _,
            range: _,
            start: _,
        } = self;
    }
}

/// The squares of the stock, each by its row and its degree: row by row, and each row from its least degree on. The stock can
/// hold the range.
pub(crate) fn squares_of<T: Stock>(
    alloc: Global,
    stock: &T,
    range: Range,
) -> Result<Vec<(u16, i32)>, Memory>
    requires reached { T.words.reaches (T.words.subject stock.now) range }
    ensures { IfOk result (λ squares.
        ListsSquares (stands_in (T.words.shape (T.words.subject stock.now)) range.s range.t)
        (T.words.bottom (T.words.subject stock.now)) squares.items (T.words.fronts stock.now)) }
{
    let mut squares = Vec::new(alloc);
    for s in 0..stock.rows() {
        push_row(stock, range, s, &mut squares)?;
    }
    Ok(squares)
}

/// Puts the squares of row `s` behind those of the rows below.
fn push_row<T: Stock>(
    stock: &T,
    range: Range,
    s: u16,
    squares: &mut Vec<(u16, i32)>,
) -> Result<(), Memory>
    requires stairs { IsStaircase (stands_in (T.words.shape (T.words.subject stock.now)) range.s range.t)
        (below_fronts (T.words.fronts stock.now)) }
    requires below { ListsPart (stands_in (T.words.shape (T.words.subject stock.now)) range.s range.t)
        (T.words.bottom (T.words.subject stock.now)) squares.old.items (T.words.fronts stock.now) s 0 }
    ensures listed { OnOk result
        (ListsPart (stands_in (T.words.shape (T.words.subject stock.now)) range.s range.t)
        (T.words.bottom (T.words.subject stock.now)) squares.new.items (T.words.fronts stock.now) (s + 1) 0) }
{
    let bottom = stock.bottom();
    for k in 0..stock.front(s) {
        squares.push((s, bottom + k as i32))?;
    }
    Ok(())
}
