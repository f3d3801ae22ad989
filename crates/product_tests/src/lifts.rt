//! What no clause says of lifts: that there is memory for each call. The values come from the mathematics.
ghost use Rattle.std.specs.Prelude.{◌≡◌, ◌+◌, ◌+ℤ◌, ℕ, pos};
ghost use Rattle.square.specs.Squares.{bottom_of};
ghost use Rattle.square.specs.Tables.{IsThrough};
ghost use Rattle.chain_map.specs.Lifting.{IsLiftOver};

use crate::tables::{sphere_table, two_cells};
use bidegree::{Class, Range};
use chain_map::{Held, Lift, Source, lift, lifts};
use f2_vec::BitVec;
use resolution_step::resolved;
use square::Table;
use std::test::Fail;
use yoneda::place_of;

/// The value of map 1 of a lift of the class on a generator of the row above it, none where one of them is not there in the range.
fn value_on<'a>(
    table: &Source<'_>,
    sphere: &Table,
    range: Range,
    class: Class,
    lift: &'a Lift,
    generator: Class,
) -> Option<&'a BitVec>
    requires through { IsThrough range table.now.rows }
    requires sphere { IsThrough range sphere.now.rows }
    requires lift { (above : ℕ) → class.t ≡ bottom_of table.now.resolved +ℤ pos above →
        IsLiftOver table.now sphere.now class.s above class.i 1 lift.now }
    requires row { generator.s ≡ class.s + 1 }
{
    let Ok(_) = place_of(table, range, class) else {
        return None;
    };
    match place_of(table, range, generator) {
        Ok(_) => Some(lift.value(1, generator.t, generator.i)),
        Err(_) => None,
    }
}

// On the module of two cells the class of (1, 3) is h1 on the top cell, which h0 takes to the class of (2, 4): so its lift takes that generator
// to Sq() on the generator of h0.
#[test]
fn a_lift_on_two_cells(rt: HostRuntime) -> Result<(), Fail> {
    let alloc = rt.alloc();
    let range = Range { s: 2, t: 4 };
    let sphere = sphere_table(alloc, range)?;
    let Some(module) = two_cells(alloc)? else {
        assert!(rt; false);
        return Ok(());
    };
    let squares = resolved(alloc, module, range, None)?;
    let table = Source {
        held: Held::Squares(&squares),
    };
    let class = Class { s: 1, t: 3, i: 0 };
    let generator = Class { s: 2, t: 4, i: 0 };
    let Ok(_) = place_of(&table, range, class) else {
        assert!(rt; false);
        return Ok(());
    };
    let one = lift(alloc, &table, &sphere, class, 1)?;
    let value = value_on(&table, &sphere, range, class, &one, generator);
    assert_eq!(rt; value.map(|v| (v.len(), v.first_one())), Some((1, Some(0))));
    let all = lifts(alloc, &table, &sphere, 1, 3, 1)?;
    let [only] = all.as_slice() else {
        assert!(rt; false);
        return Ok(());
    };
    let value = value_on(&table, &sphere, range, class, only, generator);
    assert_eq!(rt; value.map(|v| (v.len(), v.first_one())), Some((1, Some(0))));
    Ok(())
}
