//! Where a class stands in a table.
ghost use Rattle.std.specs.Prelude.{◌≡◌, ◌≤ℤ◌, neg_ℤ, IfOk, IfErr, OnOk, None, Some};
ghost use Rattle.module_spec.specs.declared.limits.TheConstants.{MAX_DEGREE};
ghost use Rattle.square.specs.Squares.{bottom_of};
ghost use Rattle.square.specs.Tables.{IsTable, IsThrough};
ghost use Rattle.chain_map.specs.Classes.{through, missing_in};
ghost use Rattle.yoneda.specs.Products.{IsPlaceOf};

use bidegree::{Class, Place, Range, above_of};
use chain_map::Source;

/// Where the class stands in the table.
///
/// # Errors
/// How many classes are in its square, where it is not one of them: the square has the generators that the table has there, and none
/// outside of the range.
pub fn place_of(table: &Source<'_>, range: Range, class: Class) -> Result<Place, usize>
    requires { IsThrough range table.now.rows }
    ensures there { OnOk result (missing_in (through range table.now) class ≡ None) }
    ensures missing { IfErr result (λ count. missing_in (through range table.now) class ≡ Some count) }
    ensures place { IfOk result (IsPlaceOf table.now range class) }
    ensures is_table { OnOk result (IsTable table.now) }
{
    let Some(above) = above_of(table.module().bottom(), class.t) else {
        return Err(0);
    };
    if class.s > u32::from(range.s) || above > u64::from(range.t) {
        return Err(0);
    }
    let (s, above) = (class.s as u16, above as u16);
    let count = table.images_of(s, above).len();
    if class.i < count {
        Ok(Place {
            s,
            above,
            i: class.i,
        })
    } else {
        Err(count)
    }
}

/// Hands what holds of every table to the proof of whoever calls it.
pub fn known(table: &Source<'_>)
    ensures is_table { IsTable table.now }
    ensures least { neg_ℤ MAX_DEGREE ≤ℤ bottom_of table.now.resolved }
    ensures most { bottom_of table.now.resolved ≤ℤ MAX_DEGREE }
{
    let _rows = table.front(0);
    let _bottom = table.module().bottom();
}
