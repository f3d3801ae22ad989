//! What no clause says: that there is memory for each call, and that a reader sees a view of which it learnt no note.
ghost use Rattle.std.specs.Prelude.{◌≡◌, IfOk};
ghost use Rattle.finite_module.specs.Module.{bottom};
ghost use Rattle.square_board.specs.Boards.{IsPassOf};
ghost use Rattle.square_worker.specs.Openings.{bottom_of};

use bidegree::Range;
use finite_module::Module;
use live_view::{LiveReader, close, new, publish};
use memory::Memory;
use resolution_step::step;
use square::{Keep, NoKeep, Table};
use square_board::{Board, BoardPass, Taken};
use square_worker::Kept;
use std::alloc::Global;
use std::process::Abort;
use std::sync::Wait;
use std::test::*;
use std::time::Clock;

const RANGE: Range = Range { s: 0, t: 1 };

// A board of the table, with a pass for who makes squares and one for who publishes them.
fn board_of(
    alloc: Global,
    table: Table,
) -> Result<
    (
        Board<Kept<NoKeep>>,
        BoardPass<Kept<NoKeep>>,
        BoardPass<Kept<NoKeep>>,
    ),
    Memory,
>
    ensures range { IfOk result (λ made. made.0.name.range ≡ record { s = 0; t = 1 }) }
    ensures bottom { IfOk result (λ made. bottom_of made.0.name ≡ bottom table.resolved.plain.generators) }
    ensures maker { IfOk result (λ made. IsPassOf made.0 made.1) }
    ensures publisher { IfOk result (λ made. IsPassOf made.0 made.2) }
{
    let first = Kept {
        table,
        keeper: NoKeep,
    };
    let Ok((board, mut passes)) = Board::new(alloc, first, RANGE, 2) else {
        return Err(Memory);
    };
    let Some(publisher) = passes.pop() else {
        return Err(Memory);
    };
    let Some(maker) = passes.pop() else {
        return Err(Memory);
    };
    Ok((board, maker, publisher))
}

// Makes the next square of the board.
fn make<R: Wait + Clock + Abort, K: Keep>(
    rt: &R,
    alloc: Global,
    board: &Board<Kept<K>>,
    pass: &mut BoardPass<Kept<K>>,
)
    requires { IsPassOf board.now pass.old }
    ensures { IsPassOf board.now pass.new }
{
    let job = match board.take(rt, alloc, pass) {
        Ok(Taken::Job(job)) => job,
        Ok(Taken::Idle) | Ok(Taken::Over) | Ok(Taken::Stopped(_)) | Err(_) => panic!(rt; "no job"),
    };
    let square = step(alloc, job.inputs()).expect(rt, "memory");
    let given = board.give(rt, alloc, pass, job, square);
    assert!(rt; given.is_ok());
}

// What a reader answers.
fn answers<R: Abort>(rt: &R, alloc: Global, reader: &mut LiveReader, squares: u64, chart: &[u8])
    ensures { reader.new.known.book ≡ reader.old.known.book }
{
    assert_eq!(rt; reader.squares(), squares);
    let text = reader.chart(alloc).expect(rt, "memory");
    assert_eq!(rt; text.as_slice(), chart);
}

// A reader sees the view whose note it learnt, and one of which it learnt none. The counts are those of the sphere: 1 in degree 0
// and 0 in degree 1.
#[test]
fn a_reader_sees_views(rt: HostRuntime) -> Result<(), Fail> {
    let alloc = rt.alloc();
    let table = Table::new(alloc, Module::sphere(alloc)?)?;
    let bottom = table.module().bottom();
    let (board, mut maker, mut publisher) = board_of(alloc, table)?;
    let (mut writer, mut reader) = new(&rt, alloc, RANGE, bottom)?;
    answers(&rt, alloc, &mut reader, 0, b" 0 |  \nstems 0..1\n");
    make(&rt, alloc, &board, &mut maker);
    let Ok(note) = publish(&rt, alloc, &mut writer, &board, &mut publisher) else {
        panic!(rt; "memory")
    };
    reader.learn(note);
    answers(&rt, alloc, &mut reader, 1, b" 0 |1 \nstems 0..1\n");
    make(&rt, alloc, &board, &mut maker);
    answers(&rt, alloc, &mut reader, 1, b" 0 |1 \nstems 0..1\n");
    let Ok(_note) = publish(&rt, alloc, &mut writer, &board, &mut publisher) else {
        panic!(rt; "memory")
    };
    answers(&rt, alloc, &mut reader, 2, b" 0 |1.\nstems 0..1\n");
    close(&rt, writer, reader);
    Ok(())
}
