//! A range resolved on one thread.
ghost use Rattle.std.specs.Prelude.{◌≡◌, ◌+◌, ◌<◌, ◌≤◌, ℕ, suc, [], length, replicate, IfOk, OnOk};
ghost use Rattle.bidegree.specs.declared.range.TheConstants.{MAX_S, MAX_T};
ghost use Rattle.resolution_laws.specs.Resolution.{IsCanonicalTable};
ghost use Rattle.square.specs.declared.keep.KeepFault as KeepFault;
ghost use Rattle.square.specs.Squares.{over};
ghost use Rattle.square.specs.Tables.{row_in, plain_rows, cut, IsThrough, IsNextAt};
ghost use Rattle.square.specs.Keeping.{IsKeeperOf, HasFared};
ghost use Rattle.resolution_step.specs.Alone.{AreOfStart, IsInRange, IsBefore, IsUntouched, HasResolved};
ghost use Rattle.resolution_step.specs.Inside.Adding.{IsNewAt, IsEndOf, IsInRow, HasAdded};

use crate::step_on::step;
use bidegree::Range;
use finite_module::Module;
use memory::Memory;
use square::{Keep, KeepFault, NoKeep, Square, Table, put};
use std::alloc::Global;

/// The table with each square of the range. Those that are not there yet are made, and no others, row by row from row 0 on and
/// each row from its bottom degree on, and each is given to the keeper.
///
/// # Errors
/// `Failed` if the keeper failed; it is then no longer live. `Memory` if there is no memory for a square; the keeper is then
/// live. The squares that were given are kept.
pub fn resolve_alone<K: Keep>(
    alloc: Global,
    mut table: Table,
    range: Range,
    mut keeper: K,
) -> (Result<Table, KeepFault>, K)
    requires rows { range.s ≤ MAX_S }
    requires degrees { range.t ≤ MAX_T }
    requires live { (K.telling keeper).live }
    requires of_table { IsKeeperOf (K.telling keeper) table }
    ensures resolved { HasResolved KeepFault.Failed KeepFault.Memory IsBefore range table result.0 (K.telling keeper)
        (K.telling result.1) }
    ensures untouched { IsUntouched K.telling keeper result.1 }
{
    match add_rows(alloc, &mut table, range, &mut keeper) {
        Ok(()) => (Ok(table), keeper),
        Err(fault) => (Err(fault), keeper),
    }
}

/// The canonical table of a module through the range, made from nothing on the caller's thread. No square of it is given to a
/// keeper. It shares the Milnor bases of `beside`, and the products that are kept with them, if there is such a table.
///
/// # Errors
/// `Memory` if allocation fails.
pub fn resolved(
    alloc: Global,
    module: Module,
    range: Range,
    beside: Option<&Table>,
) -> Result<Table, Memory>
    requires rows { range.s ≤ MAX_S }
    requires degrees { range.t ≤ MAX_T }
    ensures module_is { IfOk result (λ table. table.resolved ≡ «module») }
    ensures unread { IfOk result (λ table. table.start ≡ []) }
    ensures through { IfOk result (λ table. IsThrough range table.rows) }
    ensures only { IfOk result (λ table. (s k : ℕ) → k < length (row_in table.rows s) → IsInRange range s k) }
    ensures are_of_start { IfOk result AreOfStart }
    ensures canonical { IfOk result (λ table. IsCanonicalTable (over «module») range.s range.t
        (cut range (plain_rows table.rows))) }
{
    let table = empty_table(alloc, module, beside)?;
    let (made, _) = resolve_alone(alloc, table, range, NoKeep);
    match made {
        Ok(table) => Ok(table),
        Err(KeepFault::Memory) => Err(Memory),
        Err(KeepFault::Failed) => unreachable!(),
    }
}

/// The table of no square of a module.
fn empty_table(alloc: Global, module: Module, beside: Option<&Table>) -> Result<Table, Memory>
    ensures { IfOk result (λ table. table ≡ record {
      resolved = «module»;
      start = [];
      rows = replicate (MAX_S + 1) [];
      spare = 0;
    }) }
{
    match beside {
        Some(other) => other.beside(alloc, module),
        None => Table::new(alloc, module),
    }
}

/// Makes the squares of the range that are not there.
fn add_rows<K: Keep>(
    alloc: Global,
    table: &mut Table,
    range: Range,
    keeper: &mut K,
) -> Result<(), KeepFault>
    requires rows { range.s ≤ MAX_S }
    requires degrees { range.t ≤ MAX_T }
    requires live { (K.telling keeper.old).live }
    requires of_table { IsKeeperOf (K.telling keeper.old) table.old }
    ensures through { OnOk result (IsThrough range table.new.rows) }
    ensures are_of_start { OnOk result (AreOfStart table.new) }
    ensures keeper { HasFared KeepFault.Failed KeepFault.Memory (λ _. table.new) result (K.telling keeper.old)
        (K.telling keeper.new) }
    ensures added { HasAdded (IsInRange range) (K.telling keeper.old) (K.telling keeper.new) table.old table.new }
    ensures untouched { IsUntouched K.telling keeper.old keeper.new }
{
    for s in 0..range.s + 1 {
        add_row(alloc, table, s, range.t, keeper)?;
    }
    Ok(())
}

/// Makes the squares of row `s` through `t` degrees above the bottom that are not there.
fn add_row<K: Keep>(
    alloc: Global,
    table: &mut Table,
    s: u16,
    t: u16,
    keeper: &mut K,
) -> Result<(), KeepFault>
    requires s { s ≤ MAX_S }
    requires t { t ≤ MAX_T }
    requires below { (i : ℕ) → suc i ≡ s → t < length (row_in table.old.rows i) }
    requires live { (K.telling keeper.old).live }
    requires of_table { IsKeeperOf (K.telling keeper.old) table.old }
    ensures through { OnOk result (t < length (row_in table.new.rows s)) }
    ensures are_of_start { OnOk result (AreOfStart table.new) }
    ensures keeper { HasFared KeepFault.Failed KeepFault.Memory (λ _. table.new) result (K.telling keeper.old)
        (K.telling keeper.new) }
    ensures added { HasAdded (IsInRow s t) (K.telling keeper.old) (K.telling keeper.new) table.old table.new }
    ensures untouched { IsUntouched K.telling keeper.old keeper.new }
{
    let bottom = table.module().bottom();
    for k in table.front(s)..usize::from(t) + 1 {
        add_square(alloc, table, s, bottom + k as i32, keeper)?;
    }
    Ok(())
}

/// Makes the square in row `s` and of degree `t`, the next of its row. No clause says whether it is kept or put into the
/// table first: after a failure the table is lost.
fn add_square<K: Keep>(
    alloc: Global,
    table: &mut Table,
    s: u16,
    t: i32,
    keeper: &mut K,
) -> Result<(), KeepFault>
    requires row { s < length table.old.rows }
    requires next { IsNextAt table.old s t }
    requires live { (K.telling keeper.old).live }
    requires of_table { IsKeeperOf (K.telling keeper.old) table.old }
    ensures longer { OnOk result (length (row_in table.new.rows s) ≡ length (row_in table.old.rows s) + 1) }
    ensures keeper { HasFared KeepFault.Failed KeepFault.Memory (λ _. table.new) result (K.telling keeper.old)
        (K.telling keeper.new) }
    ensures added { HasAdded (IsEndOf table.old s) (K.telling keeper.old) (K.telling keeper.new) table.old table.new }
    ensures untouched { IsUntouched K.telling keeper.old keeper.new }
{
    let square = next_square(alloc, table, s, t)?;
    put(alloc, table, keeper, square)
}

/// The square in row `s` and of degree `t`, the next of its row.
fn next_square(alloc: Global, table: &Table, s: u16, t: i32) -> Result<Square, Memory>
    requires { IsNextAt table.now s t }
    ensures { IfOk result (IsNewAt table.now s t) }
{
    let inputs = table.inputs(alloc, s, t)?;
    step(alloc, &inputs)
}
