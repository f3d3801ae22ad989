//! A bracket as text, or why there is none.
ghost use Rattle.std.specs.Prelude.{◌≡◌, ◌≢◌, ◌≤◌, IfOk, IfErr, Ok, Err};
ghost use Rattle.bidegree.specs.declared.range.TheConstants.{MAX_S, MAX_T};
ghost use Rattle.square.specs.Tables.{IsThrough};
ghost use Rattle.ext_chart.specs.Classes.{bracket_text as text_of};
ghost use Rattle.ext_products.specs.declared.refusal.ClassesFault.TheVariants.{Refused, Memory as OutOfMemory};
ghost use Rattle.ext_products.specs.declared.refusal.Refusal.{Refusal as WhyNot};
ghost use Rattle.ext_products.specs.Products.{IsAnswerIn, IsAnswerOver};
ghost use Rattle.ext_brackets.specs.Brackets.{IsBracketAnswer, IsOfPlaces};

use crate::refusal::fault_of;
use bidegree::{Class, Range};
use bracket_laws::units_have_no_zero_products;
use chain_map::{Held, Source};
use ext_chart::bracket_lines;
use ext_products::{ClassesFault, sphere_table};
use finite_module::modules_are_graded_modules;
use lift_laws::lifts_give_one_product;
use massey::{Bracket, bracket, reach};
use memory::Memory;
use range_laws::brackets_are_same_in_each_range;
use std::alloc::Global;
use yoneda::known;

/// The bracket <a, b, c> of the classes a and b of the sphere with the class c of the table's module: a line with one of its values, and
/// one for each vector of a basis of its indeterminacy. The sphere's resolution is made through the square of ab, also where the module is
/// the sphere, so that what is refused of a class of the sphere depends on no file.
///
/// # Errors
/// `Refused` with the first of: a, b or c is no class through the range; the square of ab, of bc or of the bracket is past it; ab is not
/// zero, or bc. `Memory` if allocation fails.
pub fn bracket_text(
    alloc: Global,
    table: &Source<'_>,
    range: Range,
    a: Class,
    b: Class,
    c: Class,
) -> Result<Vec<u8>, ClassesFault>
    requires rows { range.s ≤ MAX_S }
    requires degrees { range.t ≤ MAX_T }
    requires through { IsThrough range table.now.rows }
    ensures text { IfOk result (λ text. IsAnswerOver (IsBracketAnswer range a b c) table.now range (Ok text.items)) }
    ensures refused { IfErr result (λ e. e ≢ OutOfMemory → (refusal : WhyNot) × (e ≡ Refused refusal) ×
        IsAnswerOver (IsBracketAnswer range a b c) table.now range (Err refusal)) }
    ensures sure { IfErr result (λ e. e ≢ OutOfMemory → (refusal : WhyNot) × (e ≡ Refused refusal) ×
        (IsOfPlaces refusal → IsAnswerIn (IsBracketAnswer range a b c) table.now range (Err refusal))) }
{
    // Why what is so through ab is so through the range.
    modules_are_graded_modules();
    lifts_give_one_product();
    units_have_no_zero_products();
    brackets_are_same_in_each_range();
    known(table);
    let far = reach(range, a, b);
    let sphere = sphere_table(alloc, far, table.squares())?;
    known(&Source {
        held: Held::Squares(&sphere),
    });
    match bracket(alloc, table, &sphere, range, a, b, c) {
        Ok(found) => Ok(lines(alloc, &found)?),
        Err(fault) => Err(fault_of(fault, a, b, c)),
    }
}

/// The lines of a bracket.
fn lines(alloc: Global, found: &Bracket) -> Result<Vec<u8>, Memory>
    ensures { IfOk result
        (λ text. text.items ≡ text_of found.now.s found.now.t found.now.value found.now.indeterminacy.rows) }
{
    bracket_lines(
        alloc,
        found.s,
        found.t,
        &found.value,
        found.indeterminacy.rows(),
    )
}
