//! A square that is kept and put into a table.
ghost use Rattle.std.specs.Prelude.{◌≡◌, ◌<◌, length, Err, OnOk, OnErr};
ghost use Rattle.edge.specs.Faults.{HasRisen};
ghost use Rattle.resolution_laws.specs.Start.{IsOf};
ghost use Rattle.square.specs.Squares.{over};
ghost use Rattle.square.specs.Tables.{IsNext};
ghost use Rattle.square.specs.Keeping.{IsKeeperOf, HasPut, HasNotPut};
ghost use Rattle.square.specs.declared.keep.KeepFault as KeepFault;

use crate::keep::{Keep, KeepFault};
use crate::square::Square;
use crate::table::Table;
use std::alloc::Global;
use std::sync::Arc;

/// Keeps a square that is the next of its row, and puts it into the table. What is kept also finds its place there.
///
/// # Errors
/// `Failed` if the keeper failed, and `Memory` if there is no memory, before the keeper is called or in it.
pub fn put<K: Keep>(
    alloc: Global,
    table: &mut Table,
    keeper: &mut K,
    square: Square,
) -> Result<(), KeepFault>
    requires row { square.s < length table.old.rows }
    requires next { IsNext table.old.rows square.s square.above }
    requires resolved { square.resolved ≡ table.old.resolved }
    requires start { square.start ≡ table.old.start }
    requires is_of { IsOf (over table.old.resolved) table.old.start square.s square.above square.content }
    requires live { (K.telling keeper.old).live }
    requires of_table { IsKeeperOf (K.telling keeper.old) table.old }
    ensures ok { OnOk result (HasPut (over table.old.resolved) table.old.start (K.telling keeper.old)
        (K.telling keeper.new) table.old table.new square) }
    ensures err { OnErr result (HasNotPut (over table.old.resolved) table.old.start (K.telling keeper.old)
        (K.telling keeper.new) table.old table.new) }
    ensures failed { result ≡ Err KeepFault.Failed →
        HasRisen (K.telling keeper.old).faults (K.telling keeper.new).faults }
    ensures dead { result ≡ Err KeepFault.Failed → (K.telling keeper.new).live → ⊥ }
    ensures memory { result ≡ Err KeepFault.Memory → keeper.new ≡ keeper.old }
{
    let Ok(square) = Arc::new(alloc, square) else {
        return Err(KeepFault::Memory);
    };
    table.reserve(1)?;
    keeper.keep(&square)?;
    match table.push(square) {
        Ok(()) => Ok(()),
        Err(_) => unreachable!(),
    }
}
