//! The numbers and tables of a case.
ghost use Rattle.std.specs.Prelude.{◌≤◌, IfOk};
ghost use Rattle.bidegree.specs.declared.range.TheConstants.{MAX_S, MAX_T};
ghost use Rattle.square.specs.Tables.{IsThrough};

use bidegree::{MAX_S, MAX_T, Range};
use cases::{Case, Fault};
use ext_products::sphere_table;
use module_check::check;
use module_json::read;
use resolution_step::resolved;
use square::Table;
use std::alloc::Global;
use std::str::FromStr;

/// A number of a case.
pub(crate) fn number<T: FromStr>(case: &Case, text: &str) -> Result<T, Fault>
where
    T::Err: Drop,
{
    match text.parse() {
        Ok(number) => Ok(number),
        Err(_) => Err(case.refused("no number")),
    }
}

/// The range of the tables of a case.
pub(crate) fn range_of(case: &Case) -> Result<Range, Fault>
    ensures rows { IfOk result (λ range. range.s ≤ MAX_S) }
    ensures degrees { IfOk result (λ range. range.t ≤ MAX_T) }
{
    let Some((s, t)) = case.answer("through")?.split_once(' ') else {
        return Err(case.refused("no range"));
    };
    let range = Range {
        s: number(case, s)?,
        t: number(case, t)?,
    };
    if range.s > MAX_S || range.t > MAX_T {
        return Err(case.refused("past the greatest range"));
    }
    Ok(range)
}

/// The table of the module of a case through a range.
pub(crate) fn table_of(alloc: Global, case: &Case, range: Range) -> Result<Table, Fault>
    requires rows { range.s ≤ MAX_S }
    requires degrees { range.t ≤ MAX_T }
    ensures through { IfOk result (λ table. IsThrough range table.rows) }
{
    let Some(file) = case.text("module") else {
        return Ok(sphere_table(alloc, range, None)?);
    };
    let Ok(spec) = read(alloc, file.as_bytes()) else {
        return Err(case.refused("no module"));
    };
    let Ok(module) = check(alloc, &spec) else {
        return Err(case.refused("no module"));
    };
    Ok(resolved(alloc, module, range, None)?)
}
