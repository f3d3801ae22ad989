//! The sphere's table.
ghost use Rattle.std.specs.Prelude.{◌≡◌, ◌≤◌, ◌<◌, ℕ, length, IfOk};
ghost use Rattle.bidegree.specs.declared.range.TheConstants.{MAX_S, MAX_T};
ghost use Rattle.finite_module.specs.Checked.{sphere_file};
ghost use Rattle.finite_module.specs.DerivedAction.{derived_module};
ghost use Rattle.square.specs.Tables.{row_in, IsThrough};
ghost use Rattle.resolution_step.specs.Alone.{IsInRange};
ghost use Rattle.lift_laws.specs.Lifts.{IsSphere};
ghost use Rattle.chain_map.specs.Lifting.{resolution_of, IsCanonicalIn};

use bidegree::Range;
use finite_module::Module;
use memory::Memory;
use resolution_step::resolved;
use square::Table;
use std::alloc::Global;

/// The canonical table of the sphere through the range, made on the caller's thread. It shares the Milnor bases of `beside`, and
/// the products that are kept with them, if there is such a table.
///
/// # Errors
/// `Memory` if allocation fails.
pub fn sphere_table(alloc: Global, range: Range, beside: Option<&Table>) -> Result<Table, Memory>
    requires rows { range.s ≤ MAX_S }
    requires degrees { range.t ≤ MAX_T }
    ensures module_is { IfOk result (λ table. table.resolved.plain ≡ derived_module sphere_file) }
    ensures through { IfOk result (λ table. IsThrough range table.rows) }
    ensures only { IfOk result (λ table. (s k : ℕ) → k < length (row_in table.rows s) → IsInRange range s k) }
    ensures canonical { IfOk result (IsCanonicalIn range) }
    ensures sphere { IfOk result (λ table. IsSphere (resolution_of table)) }
{
    let sphere = Module::sphere(alloc)?;
    resolved(alloc, sphere, range, beside)
}
