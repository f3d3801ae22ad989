//! The basis of what is made, in the order of degree.
ghost use Rattle.std.specs.Prelude.{◌≡◌, map, IfOk};
ghost use Rattle.std.specs.List.{range_with_len};
ghost use Rattle.module_build.specs.Inside.Construction.{placed, size_of, order_of};

use crate::construction::Construction;
use memory::Memory;
use std::alloc::Global;

/// A basis element: its number, and its degree.
#[derive(Clone, Copy)]
pub(crate) struct Placed {
    pub(crate) degree: i64,
    pub(crate) number: usize,
}

/// The basis elements by degree; those of one degree keep their order.
pub(crate) fn in_order(alloc: Global, construction: &Construction) -> Result<Vec<Placed>, Memory>
    ensures { IfOk result (λ order. order.items ≡ order_of construction.now) }
{
    let mut order = numbered(alloc, construction)?;
    order.sort_by_key(|placed| placed.degree)?;
    Ok(order)
}

/// The basis elements by number.
fn numbered(alloc: Global, construction: &Construction) -> Result<Vec<Placed>, Memory>
    ensures { IfOk result
        (λ order. order.items ≡ map (placed construction.now) (range_with_len 0 (size_of construction.now))) }
{
    let size = construction.size();
    let mut order = Vec::with_capacity(alloc, size)?;
    for number in 0..size {
        let degree = construction.degree(number);
        order.push(Placed { degree, number })?;
    }
    Ok(order)
}
