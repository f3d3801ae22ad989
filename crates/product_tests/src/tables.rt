//! Tables of the sphere and of the module of two cells that Sq1 joins.
ghost use Rattle.std.specs.Prelude.{◌≤◌, IfOk};
ghost use Rattle.bidegree.specs.declared.range.TheConstants.{MAX_S, MAX_T};
ghost use Rattle.square.specs.Tables.{IsThrough};
ghost use Rattle.lift_laws.specs.Lifts.{IsSphere};
ghost use Rattle.chain_map.specs.Lifting.{resolution_of};

use bidegree::Range;
use chain_map::tables_of_the_sphere;
use finite_module::Module;
use memory::Memory;
use module_check::check;
use module_json::read;
use resolution_step::resolved;
use square::Table;
use std::alloc::Global;

/// The table of the sphere through the range.
pub fn sphere_table(alloc: Global, range: Range) -> Result<Table, Memory>
    requires rows { range.s ≤ MAX_S }
    requires degrees { range.t ≤ MAX_T }
    ensures through { IfOk result (λ table. IsThrough range table.rows) }
    ensures sphere { IfOk result (λ table. IsSphere (resolution_of table)) }
{
    tables_of_the_sphere();
    let sphere = Module::sphere(alloc)?;
    resolved(alloc, sphere, range, None)
}

/// The module of two cells, in degrees 0 and 1.
pub fn two_cells(alloc: Global) -> Result<Option<Module>, Memory> {
    let text =
        r#"{"type":"finite dimensional module","p":2,"gens":{"x0":0,"x1":1},"actions":["Sq1 x0 = x1"]}"#;
    let Ok(spec) = read(alloc, text.as_bytes()) else {
        return Ok(None);
    };
    match check(alloc, &spec) {
        Ok(module) => Ok(Some(module)),
        Err(_) => Ok(None),
    }
}
