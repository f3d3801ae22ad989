//! The roles of the passes of a board, and the passes joined again.
ghost use Rattle.std.specs.Prelude.{◌≡◌, ◌-◌, ◌<◌, ◌≤◌, [], All, length, vec_capacity};
ghost use Rattle.bidegree.specs.declared.shape.Shape.TheVariants.{Rectangle};
ghost use Rattle.turn_lock.specs.Turns.{HasAll};
ghost use Rattle.square_board.specs.Workers.{AreItsPasses};
ghost use Rattle.square_board.specs.Openings.{bottom_of, shape_of, subject_of};
ghost use Rattle.live_worker.specs.Reports.{squares_of};
ghost use Rattle.live_worker.specs.Inside.Roles.{CanWatch, AreRoles, HasGathered, HasTold};

use crate::reports::Reports;
use crate::role::{Role, Watcher};
use edge::Sink;
use live_view::{Counted, LiveReader, LiveWriter};
use square_board::{Board, BoardPass};
use std::snapshot::Snapshot;

/// Makes the roles of these passes, for which there is room: the last pass watches, and the others work.
pub(crate) fn fill<T: Counted, E: Sink>(
    board: &Board<T>,
    roles: &mut Vec<Role<T, E>>,
    mut passes: Vec<BoardPass<T>>,
    writer: LiveWriter,
    reader: LiveReader,
    reports: Reports<E>,
)
    requires some { 0 < length passes.items }
    requires passes { AreItsPasses board.now passes.items }
    requires fresh { All (λ pass. pass.own ≡ []) passes.items }
    requires empty { roles.old.items ≡ [] }
    requires room { length passes.items ≤ vec_capacity roles.old }
    requires whole { shape_of T.words board.now.name ≡ Rectangle }
    requires reached { T.words.reaches (subject_of T.words board.now.name) board.now.name.range }
    requires range { board.now.name.range ≡ writer.range }
    requires bottom { bottom_of T.words board.now.name ≡ writer.bottom }
    requires none { writer.known.published ≡ [] }
    requires reader { reader ≡ writer }
    requires all { reports.all ≡ squares_of board.now.name.range }
    requires within { reports.most ≤ reports.all }
    ensures count { length roles.new.items ≡ length passes.items }
    ensures roles { AreRoles T.words T.table_of E.written E.faults reports board.now (length passes.items - 1)
        roles.new.items }
{
    let _ = board;
    let Some(pass) = passes.pop() else {
        unreachable!()
    };
    roles.push_reserved(Role::Watch(Watcher {
        pass,
        writer,
        reader,
        reports,
    }));
    while let Some(pass) = passes.pop() {
        roles.push_reserved(Role::Work(pass));
    }
    roles.reverse();
}

/// The watcher, with all other passes joined into its own.
pub(crate) fn gathered<T: Counted, E: Sink>(
    board: &Board<T>,
    mut roles: Vec<Role<T, E>>,
    first: &Snapshot<Reports<E>>,
) -> Watcher<T, E>
    requires some { 0 < board.now.passes }
    requires count { length roles.items ≡ board.now.passes }
    requires roles { AreRoles T.words T.table_of E.written E.faults first.now.value board.now (length roles.items - 1)
        roles.items }
    ensures can { CanWatch T.words T.table_of board.now result }
    ensures all { HasAll result.pass }
    ensures gathered { HasGathered board.now.passes result.pass }
    ensures told { HasTold E.written E.faults first.now.value result.reports }
{
    let _ = first;
    let last = roles.pop();
    let Some(Role::Watch(mut watcher)) = last else {
        unreachable!()
    };
    while let Some(role) = roles.pop() {
        let Role::Work(pass) = role else {
            unreachable!()
        };
        board.join(&mut watcher.pass, pass);
    }
    roles.destroy_empty();
    watcher
}
