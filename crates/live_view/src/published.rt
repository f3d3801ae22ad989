//! What proofs keep of a view that was published.
ghost use Rattle.std.specs.Prelude.{◌≡◌, [], ◌∷◌};
ghost use Rattle.live_view.specs.Counted.{counted_in};

use crate::counted::Counted;
use crate::view::View;
use ghost_list::GhostList;
use square::Table;
use square_board::Board;
use std::collections::LinkedList;

/// A view that was published: its numbers, and as the one item of a list the table whose numbers those on its board are. It has
/// no bytes.
#[derive(Drop)]
pub struct Published {
    pub of: GhostList<Table>,
    pub view: GhostList<LinkedList<usize>>,
}

impl Published {
    /// The view, as one of this board.
    pub(crate) fn of_board<T: Counted>(board: &Board<T>, view: &View) -> Published
        ensures of { result.of ≡ counted_in T.words T.table_of board.now.name ∷ [] }
        ensures view { result.view ≡ view.now }
    {
        Published {
            of: GhostList::picked(board),
            view: GhostList::picked(view),
        }
    }
}
