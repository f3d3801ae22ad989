//! What no clause says: that there is memory for each call. The first square of the sphere, worked by hand, and keepers of it.
ghost use Rattle.std.specs.Prelude.{◌≡◌, true, [], ◌∷◌, None, IfOk};
ghost use Rattle.finite_module.specs.DerivedAction.{derived_module};
ghost use Rattle.finite_module.specs.Checked.{sphere_file};

use bidegree::Range;
use f2_matrix::{Matrix, Reduced};
use f2_vec::BitVec;
use finite_module::Module;
use memory::Memory;
use square::{Inputs, Keep, KeepFault, MemKeep, NoKeep, Square, Table};
use std::alloc::Global;
use std::sync::Arc;
use std::test::Fail;

// The vector with the one coordinate 1.
fn one(alloc: Global) -> Result<BitVec, Memory>
    ensures { IfOk result (λ v. v ≡ true ∷ []) }
{
    let mut vector = BitVec::zero(alloc, 0)?;
    vector.push(true)?;
    Ok(vector)
}

// The list of that vector.
pub(crate) fn one_row(alloc: Global) -> Result<Vec<BitVec>, Memory>
    ensures { IfOk result (λ rows. rows.items ≡ (true ∷ []) ∷ []) }
{
    let mut rows = Vec::new(alloc);
    rows.push(one(alloc)?)?;
    Ok(rows)
}

// The square (0, 0) of the sphere: its generator goes to the module's, and there is no kernel.
fn first_square(alloc: Global, inputs: &Inputs) -> Result<Square, Memory>
    requires sphere { inputs.now.resolved.plain ≡ derived_module sphere_file }
    requires below { inputs.now.below ≡ None }
    requires before { inputs.now.squares ≡ [] }
    ensures resolved { IfOk result (λ q. q.resolved ≡ inputs.now.resolved) }
    ensures start { IfOk result (λ q. q.start ≡ inputs.now.start) }
    ensures s { IfOk result (λ q. q.s ≡ inputs.now.s) }
    ensures above { IfOk result (λ q. q.above ≡ inputs.now.above) }
{
    let matrix = Matrix::from_rows(1, one_row(alloc)?);
    let quasi = Reduced::of(alloc, &matrix)?;
    Ok(Square::made(inputs, one_row(alloc)?, Vec::new(alloc), quasi))
}

// The sphere's table of that square.
fn table_of_one(alloc: Global) -> Result<Table, Memory> {
    let mut table = Table::new(alloc, Module::sphere(alloc)?)?;
    let inputs = table.inputs(alloc, 0, 0)?;
    let square = Arc::new(alloc, first_square(alloc, &inputs)?)?;
    table.reserve(1)?;
    match table.push(square) {
        Ok(()) => Ok(table),
        Err(_) => unreachable!(),
    }
}

// Whether the rows are the one vector with the one coordinate 1.
pub(crate) fn is_one_row(rows: &[BitVec]) -> bool {
    match rows {
        [row] => row.len() == 1 && row.first_one() == Some(0),
        _ => false,
    }
}

#[test]
fn a_table_of_one_square(rt: HostRuntime) -> Result<(), Fail> {
    let alloc = rt.alloc();
    let table = table_of_one(alloc)?;
    assert_eq!(rt;
        (table.front(0), table.front(1), table.front(128)),
        (1, 0, 0)
    );
    assert!(rt; table.at(0, 1).is_none() && table.at(0, -1).is_none());
    match table.at(0, 0) {
        Some(square) => {
            assert!(rt; is_one_row(square.gens()));
            assert_eq!(rt; square.kernel().len(), 0);
            assert_eq!(rt; square.kernel_rows(alloc)?.as_slice().len(), 0);
            assert_eq!(rt; (square.s(), square.t(), square.above()), (0, 0, 0));
            assert_eq!(rt; square.widths(), (1, 1));
            assert!(rt; square.kept_quasi().is_some());
            let quasi = table.quasi(alloc, 0, 0)?;
            assert!(rt; is_one_row(quasi.image()) && is_one_row(quasi.chosen()));
            assert_eq!(rt; quasi.kernel().len(), 0);
        }
        None => assert!(rt; false),
    }
    Ok(())
}

// A value that may go to any thread, and that any thread may share.
fn crosses_threads<T: Send + Sync>(_value: &T) {}

#[test]
fn threads_may_share_squares(rt: HostRuntime) -> Result<(), Fail> {
    let alloc = rt.alloc();
    let table = Table::new(alloc, Module::sphere(alloc)?)?;
    let inputs = table.inputs(alloc, 0, 0)?;
    crosses_threads(table.module());
    crosses_threads(&table);
    crosses_threads(&inputs);
    crosses_threads(&first_square(alloc, &inputs)?);
    Ok(())
}

#[test]
fn nothing_below_row_zero(rt: HostRuntime) -> Result<(), Fail> {
    let alloc = rt.alloc();
    let table = Table::new(alloc, Module::sphere(alloc)?)?;
    let inputs = table.inputs(alloc, 0, 0)?;
    assert!(rt; inputs.kernel_rows_below(alloc)?.is_none());
    Ok(())
}

#[test]
fn widths_of_the_first_square(rt: HostRuntime) -> Result<(), Fail> {
    let alloc = rt.alloc();
    let table = Table::new(alloc, Module::sphere(alloc)?)?;
    assert_eq!(rt; table.next_widths(0, 0, 1), Some((1, 1)));
    assert_eq!(rt; table.next_widths(0, 0, 3), Some((1, 3)));
    Ok(())
}

#[test]
fn keepers(rt: HostRuntime) -> Result<(), Fail> {
    let alloc = rt.alloc();
    let table = Table::new(alloc, Module::sphere(alloc)?)?;
    let inputs = table.inputs(alloc, 0, 0)?;
    let square = first_square(alloc, &inputs)?;
    assert_eq!(rt; NoKeep.keep(&square), Ok(()));
    let mut failing = Vec::new(alloc);
    failing.push(2)?;
    let mut keeper = MemKeep::new(alloc, failing)?;
    assert_eq!(rt; keeper.keep(&square), Ok(()));
    assert!(rt; keeper.is_live());
    assert_eq!(rt; keeper.keep(&square), Err(KeepFault::Failed));
    assert!(rt; !keeper.is_live());
    let range = Range { s: 127, t: 255 };
    assert_eq!(rt; (range.s, range.t), (127, 255));
    Ok(())
}
