//! The passes of a board, joined into one.
ghost use Rattle.std.specs.Prelude.{◌≡◌, ◌<◌, length};
ghost use Rattle.turn_lock.specs.Turns.{HasAll};
ghost use Rattle.square_board.specs.Boards.{IsPassOf};
ghost use Rattle.square_board.specs.Workers.{AreItsPasses, HasJoined, HasPairs};

use crate::board::{Board, BoardPass};
use crate::stock::Stock;

/// Joins all passes of a board, which are in order of their numbers, into the last of them: it then has the entries of each, and
/// has seen no less than any of them.
pub fn join_all<T: Stock>(board: &Board<T>, mut passes: Vec<BoardPass<T>>) -> BoardPass<T>
    requires some { 0 < board.now.passes }
    requires count { length passes.items ≡ board.now.passes }
    requires passes { AreItsPasses board.now passes.items }
    ensures pass { IsPassOf board.now result }
    ensures all { HasAll result }
    ensures joined { HasJoined passes.items result }
    ensures pairs { HasPairs board.now.passes result }
{
    let Some(mut last) = passes.pop() else {
        unreachable!()
    };
    while let Some(other) = passes.pop() {
        board.join(&mut last, other);
    }
    last
}
