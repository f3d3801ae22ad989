//! What no clause says of a run with reports: that there is memory for it, and that a sink that fails does not stop it.
ghost use Rattle.std.specs.Prelude.{◌<◌};

use bidegree::Range;
use edge::MemSink;
use finite_module::Module;
use live_worker::resolve_live;
use memory::Memory;
use square::{NoKeep, Table};
use square_worker::OpenGate;
use std::alloc::Global;
use std::sync::Wait;
use std::test::*;
use std::thread::Threads;
use std::time::Clock;

const RANGE: Range = Range { s: 4, t: 8 };

// Whether so many workers make the sphere's table, whether their sink, which fails at these calls, did not, and the sink.
fn run_by<R: Threads + Wait + Clock + Sync>(
    rt: &R,
    alloc: Global,
    workers: usize,
    failing: Vec<u64>,
) -> Result<(bool, bool, MemSink), Memory>
    requires { 0 < workers }
{
    let table = Table::new(alloc, Module::sphere(alloc)?)?;
    let mut err = MemSink::new(alloc, 7, 10000, failing)?;
    let (made, _keeper, told) = resolve_live(
        rt, alloc, workers, table, RANGE, NoKeep, &OpenGate, &mut err,
    );
    Ok((made.is_ok(), told.is_ok(), err))
}

// The range has 5 rows of 9 squares.
#[test]
fn the_last_report_has_all_squares(rt: HostRuntime) -> Result<(), Fail> {
    let alloc = rt.alloc();
    for workers in 1..4 {
        let (made, told, err) = run_by(&rt, alloc, workers, Vec::new(alloc))?;
        assert!(rt; made && told);
        assert!(rt; err.written().ends_with(b"live 45 of 45\n"));
    }
    Ok(())
}

// The first write takes 7 bytes, and the second fails.
#[test]
fn a_sink_fails(rt: HostRuntime) -> Result<(), Fail> {
    let alloc = rt.alloc();
    let (made, told, err) = run_by(&rt, alloc, 2, vec![in alloc; 2; 1]?)?;
    assert!(rt; made && !told);
    assert_eq!(rt; err.written().len(), 7);
    assert_eq!(rt; err.faults(), 1);
    Ok(())
}
