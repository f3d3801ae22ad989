//! The lines of the products with classes of the sphere, or the refusal of a class.
ghost use Rattle.std.specs.Prelude.{◌≡◌, ◌≢◌, ◌≤◌, IfOk, IfErr, OnOk, Ok, Err};
ghost use Rattle.bidegree.specs.declared.range.TheConstants.{MAX_S, MAX_T};
ghost use Rattle.square.specs.Tables.{IsThrough};
ghost use Rattle.ext_products.specs.Products.{AreProductLines, IsInSphere, IsAnswerOfOne, IsProductsAnswer, IsAnswerOver, IsAnswerIn};
ghost use Rattle.ext_products.specs.Inside.{reach_of};
ghost use Rattle.ext_products.specs.declared.refusal.ClassesFault.TheVariants.{Refused, Memory as OutOfMemory};
ghost use Rattle.ext_products.specs.declared.refusal.Refusal.{Refusal as WhyNot};

use crate::headed::add_headed;
use crate::lines::lines;
use crate::refusal::{ClassesFault, Named, Refusal};
use crate::sphere::sphere_table;
use bidegree::{Class, Range, Shape, above_of};
use chain_map::{Held, Source};
use ext_chart::{ProductLine, product_lines};
use std::alloc::Global;
use yoneda::{known, place_of};

/// For each of the classes `by` of the sphere, in their order, a line for each class of the table's module whose product with it is in the
/// squares of the range that are of this shape: the class, and the product as a sum of classes. They stand by row, then by degree, then by
/// number. Where there are several classes `by`, a line that names each stands in front of its lines.
///
/// # Errors
/// `Refused` for the first class that the sphere has not through the range. `Memory` if allocation fails.
pub fn products_text(
    alloc: Global,
    table: &Source<'_>,
    range: Range,
    shape: Shape,
    by: &[Class],
) -> Result<Vec<u8>, ClassesFault>
    requires rows { range.s ≤ MAX_S }
    requires degrees { range.t ≤ MAX_T }
    requires through { IsThrough range table.now.rows }
    ensures text { IfOk result (λ text. IsAnswerOver (IsProductsAnswer shape range by.now) table.now range (Ok text.items)) }
    ensures refused { IfErr result (λ e. e ≢ OutOfMemory →
        (refusal : WhyNot) × (e ≡ Refused refusal) ×
        IsAnswerIn (IsProductsAnswer shape range by.now) table.now range (Err refusal)) }
{
    let named = by.len() > 1;
    let mut text = Vec::new(alloc);
    for class in by {
        let lines = text_of_one(alloc, table, range, shape, *class)?;
        add_headed(alloc, named, *class, lines.as_slice(), &mut text)?;
    }
    Ok(text)
}

/// The lines of the products with one class, as text.
fn text_of_one(
    alloc: Global,
    table: &Source<'_>,
    range: Range,
    shape: Shape,
    by: Class,
) -> Result<Vec<u8>, ClassesFault>
    requires rows { range.s ≤ MAX_S }
    requires degrees { range.t ≤ MAX_T }
    requires through { IsThrough range table.now.rows }
    ensures text { IfOk result (λ text. IsAnswerOver (IsAnswerOfOne shape range by) table.now range (Ok text.items)) }
    ensures there { OnOk result (IsInSphere range by) }
    ensures refused { IfErr result (λ e. e ≢ OutOfMemory →
        (refusal : WhyNot) × (e ≡ Refused refusal) ×
        IsAnswerIn (IsAnswerOfOne shape range by) table.now range (Err refusal)) }
{
    let lines = products_with(alloc, table, range, shape, by)?;
    Ok(product_lines(alloc, lines.as_slice())?)
}

/// The products of one class of the sphere with the classes of the table's module, those that are in the squares of the range that are of this
/// shape. They stand by row, then by degree, then by number. The sphere's resolution is made as far as the class.
///
/// # Errors
/// `Refused` where the sphere has not this class through the range. `Memory` if allocation fails.
pub fn products_with(
    alloc: Global,
    table: &Source<'_>,
    range: Range,
    shape: Shape,
    by: Class,
) -> Result<Vec<ProductLine>, ClassesFault>
    requires rows { range.s ≤ MAX_S }
    requires degrees { range.t ≤ MAX_T }
    requires through { IsThrough range table.now.rows }
    ensures lines { IfOk result (λ lines. IsAnswerOver (AreProductLines shape range by) table.now range lines.items) }
    ensures there { OnOk result (IsInSphere range by) }
    ensures refused { IfErr result (λ e. e ≢ OutOfMemory →
        (refusal : WhyNot) × (e ≡ Refused refusal) ×
        IsAnswerIn (IsAnswerOfOne shape range by) table.now range (Err refusal)) }
{
    finite_module::modules_are_graded_modules();
    lift_laws::lifts_give_one_product();
    known(table);
    let reach = reach_of(range, by);
    let sphere = sphere_table(alloc, reach, table.squares())?;
    let whole = Source {
        held: Held::Squares(&sphere),
    };
    match place_of(&whole, reach, by) {
        Ok(a) => Ok(lines(alloc, table, &sphere, range, shape, a)?),
        Err(count) => Err(ClassesFault::Refused(Refusal::NoClass {
            named: Named::By,
            class: by,
            count,
        })),
    }
}

/// How far the sphere's resolution is asked: as far as the class, within the range.
pub(crate) fn reach_of(range: Range, by: Class) -> Range
    ensures { result ≡ reach_of range by }
{
    let t = match above_of(0, by.t) {
        Some(above) => above.min(u64::from(range.t)) as u16,
        None => 0,
    };
    Range {
        s: by.s.min(u32::from(range.s)) as u16,
        t,
    }
}
