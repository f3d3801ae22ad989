//! The table with classes of any row, of which products are made by lifts.
ghost use Rattle.std.specs.Prelude.{◌≡◌, ◌≢◌, ◌≤◌, None, IfOk, IfErr, OnOk, Ok, Err};
ghost use Rattle.bidegree.specs.declared.range.TheConstants.{MAX_S, MAX_T};
ghost use Rattle.square.specs.Tables.{IsThrough};
ghost use Rattle.ext_products.specs.Products.{OneEach, IsAnswerOver, IsAnswerIn};
ghost use Rattle.ext_products.specs.declared.refusal.ClassesFault.TheVariants.{Refused, Memory as OutOfMemory};
ghost use Rattle.ext_products.specs.declared.refusal.Refusal.{Refusal as WhyNot};
ghost use Rattle.ext_table.specs.Answers.{IsListing, IsTableAnswer};
ghost use Rattle.ext_table.specs.Inside.{AreInSphere};

use crate::listed::{Listed, add_listed};
use crate::squares::{Counted, table_of};
use bidegree::{Class, Range, Shape};
use chain_map::Source;
use ext_products::{ClassesFault, products_with};
use finite_module::Module;
use std::alloc::Global;

impl<'a> Counted for Source<'a> {
    ghost use Rattle.std.specs.Prelude.{⊤, length};
    ghost use Rattle.square.specs.Tables.{content_at};

    ghost resolved = { λ t. t.resolved };

    ghost counts = { λ t s k. length (content_at t.rows s k).images };

    ghost has = { λ t s k. ⊤ };

    fn module(&self) -> &Module {
        Source::module(self)
    }

    fn count(&self, s: u16, k: u16) -> usize {
        self.images_of(s, k).len()
    }
}

/// The table of the squares of the range that are of this shape, with these classes of the sphere. The sphere's resolution is made as far as
/// each of them.
///
/// # Errors
/// `Refused` for the first class that the sphere has not through the range. `Memory` if allocation fails.
pub fn table_by_lifts(
    alloc: Global,
    source: &Source<'_>,
    range: Range,
    shape: Shape,
    by: &[Class],
) -> Result<Vec<u8>, ClassesFault>
    requires rows { range.s ≤ MAX_S }
    requires degrees { range.t ≤ MAX_T }
    requires through { IsThrough range source.now.rows }
    ensures text { IfOk result (λ text. IsAnswerOver (IsTableAnswer shape range by.now) source.now range (Ok text.items)) }
    ensures refused { IfErr result (λ e. e ≢ OutOfMemory →
        (refusal : WhyNot) × (e ≡ Refused refusal) ×
        IsAnswerIn (IsTableAnswer shape range by.now) source.now range (Err refusal)) }
{
    let lists = lists_of(alloc, source, range, shape, by)?;
    Ok(table_of(alloc, source, range, shape, lists.as_slice())?)
}

/// The products with each of the classes.
///
/// # Errors
/// `Refused` for the first class that the sphere has not through the range. `Memory` if allocation fails.
fn lists_of(
    alloc: Global,
    source: &Source<'_>,
    range: Range,
    shape: Shape,
    by: &[Class],
) -> Result<Vec<Listed>, ClassesFault>
    requires rows { range.s ≤ MAX_S }
    requires degrees { range.t ≤ MAX_T }
    requires through { IsThrough range source.now.rows }
    ensures lists { IfOk result (λ lists. OneEach
        (λ class listing. IsAnswerOver (IsListing shape range class) source.now range listing) by.now lists.items) }
    ensures there { OnOk result (AreInSphere range by.now) }
    ensures refused { IfErr result (λ e. e ≢ OutOfMemory →
        (refusal : WhyNot) × (e ≡ Refused refusal) ×
        IsAnswerIn (IsTableAnswer shape range by.now) source.now range (Err refusal)) }
{
    let mut lists = Vec::new(alloc);
    for class in by {
        let lines = products_with(alloc, source, range, shape, *class)?;
        add_listed(&mut lists, *class, lines)?;
    }
    Ok(lists)
}
