//! Which classes of row 1 the sphere has.
ghost use Rattle.std.specs.Prelude.{◌≡◌, ◌==◌, true, IfErr, OnOk, Some, Err};
ghost use Rattle.std.specs.List.{All, list_all};
ghost use Rattle.bidegree.specs.declared.shape.Shape.{Shape};
ghost use Rattle.lift_laws.specs.Lifts.{Resolution};
ghost use Rattle.chain_map.specs.Classes.{missing_in};
ghost use Rattle.ext_products.specs.Products.{IsProductsAnswer};
ghost use Rattle.ext_h_products.specs.RowOne.{IsH, OfSpheres};

use crate::power::exponent_in;
use bidegree::{Class, Range};
use ext_products::{Named, Refusal};

/// Whether all of the classes are of row 1.
pub fn are_in_row_one(by: &[Class]) -> bool
    ensures { result ≡ list_all (λ class. class.s == 1) by.now }
{
    by.iter().all(|class| class.s == 1)
}

/// Looks for each of these classes of row 1. The sphere has one in each degree 2^v, and none in other degrees.
///
/// # Errors
/// The refusal of the first class that the sphere has not through the range.
pub fn find_each(by: &[Class], range: Range) -> Result<(), Refusal>
    requires { list_all (λ class. class.s == 1) by.now ≡ true }
    ensures there { OnOk result (All (IsH range) by.now) }
    ensures missing { IfErr result (λ refusal.
        OfSpheres range (λ q. (shape : Shape) (r : Resolution) → IsProductsAnswer shape range by.now r q (Err refusal))) }
{
    h_laws::row_one_has_squares();
    for class in by {
        if let Err(count) = find(*class, range) {
            return Err(Refusal::NoClass {
                named: Named::By,
                class: *class,
                count,
            });
        }
    }
    Ok(())
}

/// Looks for a class of row 1.
///
/// # Errors
/// How many classes the sphere has in its degree through the range, where it is none of them.
fn find(class: Class, range: Range) -> Result<(), usize>
    requires { class.s ≡ 1 }
    ensures there { OnOk result (IsH range class) }
    ensures missing { IfErr result (λ count. OfSpheres range (λ q. missing_in q class ≡ Some count)) }
{
    h_laws::row_one_has_squares();
    h_laws::row_one_is_powers();
    let Some(_v) = exponent_in(class.t, range.t) else {
        return Err(0);
    };
    if range.s == 0 {
        return Err(0);
    }
    if class.i > 0 {
        return Err(1);
    }
    Ok(())
}
