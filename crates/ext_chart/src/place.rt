//! Where a generator stands, as text.
ghost use Rattle.std.specs.Prelude.{◌≡◌, ◌++◌, IfOk};
ghost use Rattle.ext_chart.specs.Dump.{place_text, square_places};

use crate::classes::class_text;
use memory::Memory;
use std::alloc::Global;

/// Where a generator of a resolution stands: its row, its internal degree, and its number among the generators of its
/// square, from 0.
#[derive(Clone, Copy, Debug, PartialEq, Eq)]
pub struct Place {
    pub s: u16,
    pub t: i32,
    pub i: usize,
}

/// The place as `(s,t,i)`.
pub(crate) fn place_text(alloc: Global, place: Place) -> Result<Vec<u8>, Memory>
    ensures { IfOk result (λ text. text.items ≡ place_text place) }
{
    class_text(alloc, i32::from(place.s), place.t, place.i)
}

/// `places`, and behind them those of the `count` generators of a square.
pub(crate) fn with_square(
    mut places: Vec<Place>,
    s: u16,
    t: i32,
    count: usize,
) -> Result<Vec<Place>, Memory>
    ensures { IfOk result (λ v. v.items ≡ places.items ++ square_places s t count) }
{
    for i in 0..count {
        places.push(Place { s, t, i })?;
    }
    Ok(places)
}
