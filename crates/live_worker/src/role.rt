//! What each thread does at a board.
use crate::reports::Reports;
use edge::Sink;
use live_view::{LiveReader, LiveWriter};
use square_board::{BoardPass, Stock};

/// What the watcher has: a pass, a writer of views and their reader, and what it reported.
pub struct Watcher<T: Stock, E: Sink> {
    pub pass: BoardPass<T>,
    pub writer: LiveWriter,
    pub reader: LiveReader,
    pub reports: Reports<E>,
}

/// What one thread does: it makes squares, or it watches.
pub enum Role<T: Stock, E: Sink> {
    Work(BoardPass<T>),
    Watch(Watcher<T, E>),
}
