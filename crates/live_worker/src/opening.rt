//! A board, its roles and a writer of its views.
ghost use Rattle.std.specs.Prelude.{◌≡◌, ◌≤◌, IfOk, IfErr};
ghost use Rattle.bidegree.specs.declared.range.TheConstants.{MAX_S, MAX_T};
ghost use Rattle.live_worker.specs.Inside.Opened.{IsOpenedFor};

use crate::role::Role;
use bidegree::Range;
use edge::Sink;
use live_view::{Counted, LiveReader, LiveWriter, close, new};
use square_board::{Board, BoardPass, Stock};
use std::alloc::Global;
use std::sync::Wait;
use std::time::Clock;

/// A board with its passes, a writer of its views with their reader, and room for the roles.
pub struct Opened<T: Stock, E: Sink> {
    pub board: Board<T>,
    pub passes: Vec<BoardPass<T>>,
    pub writer: LiveWriter,
    pub reader: LiveReader,
    pub roles: Vec<Role<T, E>>,
}

/// A board for so many workers and a watcher.
///
/// # Errors
/// The stock, if allocation fails.
pub(crate) fn prepared<R: Wait + Clock, T: Counted, E: Sink>(
    wait: &R,
    alloc: Global,
    workers: usize,
    stock: T,
    range: Range,
) -> Result<Opened<T, E>, T>
    requires rows { range.s ≤ MAX_S }
    requires degrees { range.t ≤ MAX_T }
    requires reached { T.words.reaches (T.words.subject stock) range }
    requires takes { T.words.takes stock }
    ensures opened { IfOk result (λ o. IsOpenedFor T.words workers stock range o) }
    ensures refused { IfErr result (λ back. back ≡ stock) }
{
    let Some(count) = workers.checked_add(1) else {
        return Err(stock);
    };
    let Ok(roles) = Vec::with_capacity(alloc, count) else {
        return Err(stock);
    };
    let bottom = stock.bottom();
    let Ok((writer, reader)) = new(wait, alloc, range, bottom) else {
        roles.destroy_empty();
        return Err(stock);
    };
    match Board::new(alloc, stock, range, count) {
        Ok((board, passes)) => Ok(Opened {
            board,
            passes,
            writer,
            reader,
            roles,
        }),
        Err((_, stock)) => {
            roles.destroy_empty();
            close(wait, writer, reader);
            Err(stock)
        }
    }
}
