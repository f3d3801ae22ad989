//! The generators of a row of a table.
ghost use Rattle.std.specs.Prelude.{◌≡◌, IfOk};
ghost use Rattle.resolution_laws.specs.Resolution.{row_of, degrees_from};
ghost use Rattle.ext_chart.specs.Dump.{places_from};
ghost use Rattle.square.specs.Squares.{bottom_of};

use crate::place::{Place, with_square};
use crate::shown::{Shown, degree};
use free_module::Gens;
use memory::Memory;
use std::alloc::Global;

/// The generators of a row: their degrees, and their places.
#[derive(Drop)]
pub(crate) struct RowGens {
    pub(crate) gens: Gens,
    pub(crate) places: Vec<Place>,
}

/// The generators of row `s`.
pub(crate) fn row_gens<R: Shown>(alloc: Global, table: &R, s: u16) -> Result<RowGens, Memory>
    ensures gens { IfOk result
        (λ row. row.gens ≡ degrees_from (bottom_of (R.seen table.now).resolved) (row_of (R.seen table.now).rows s)) }
    ensures places { IfOk result (λ row. row.places.items
        ≡ places_from s (bottom_of (R.seen table.now).resolved) (row_of (R.seen table.now).rows s)) }
{
    let n = table.front(s) as u16;
    let mut gens = Gens::new(alloc);
    let mut places = Vec::new(alloc);
    for k in 0..n {
        let count = table.images(s, k).len();
        gens.push_many(count, degree(table, k))?;
        places = with_square(places, s, degree(table, k), count)?;
    }
    Ok(RowGens { gens, places })
}
