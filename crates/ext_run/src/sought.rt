//! What is sought of classes: how far it asks a module's resolution, and its text.
ghost use Rattle.std.specs.Prelude.{◌≡◌, ◌≢◌, ◌≤◌, IfOk, IfErr, Ok, Err};
ghost use Rattle.bidegree.specs.declared.range.TheConstants.{MAX_S, MAX_T};
ghost use Rattle.square.specs.Tables.{IsThrough};
ghost use Rattle.ext_products.specs.declared.refusal.ClassesFault.TheVariants.{Refused, Memory as OutOfMemory};
ghost use Rattle.ext_products.specs.declared.refusal.Refusal.{Refusal as WhyNot};
ghost use Rattle.ext_products.specs.Products.{IsAnswerIn, IsAnswerOver};
ghost use Rattle.ext_brackets.specs.Brackets.{IsOfPlaces};
ghost use Rattle.ext_run.specs.Plan.{range_for};
ghost use Rattle.ext_run.specs.Forms.{IsSoughtAnswer};

use crate::plan::Sought;
use bidegree::Range;
use chain_map::Source;
use ext_brackets::bracket_text;
use ext_products::{ClassesFault, one_product_text};
use finite_module::Module;
use least_range::{bracket_range, product_range};
use std::alloc::Global;

/// The least range that has what is sought, as far as ranges go.
pub(crate) fn range_for(sought: Sought, module: &Module) -> Range
    ensures range { result ≡ range_for sought «module».now.plain }
    ensures rows { result.s ≤ MAX_S }
    ensures degrees { result.t ≤ MAX_T }
{
    let bottom = module.bottom();
    match sought {
        Sought::Product { a, x } => product_range(bottom, a, x),
        Sought::Bracket { a, b, c } => bracket_range(bottom, a, b, c),
    }
}

/// What is sought of the classes of the table, as text.
///
/// # Errors
/// `Refused` where a class is not there, a square is past the range, or a product is not zero that has to be. `Memory` if allocation fails.
pub(crate) fn sought_text(
    alloc: Global,
    table: &Source<'_>,
    range: Range,
    sought: Sought,
) -> Result<Vec<u8>, ClassesFault>
    requires rows { range.s ≤ MAX_S }
    requires degrees { range.t ≤ MAX_T }
    requires through { IsThrough range table.now.rows }
    ensures text { IfOk result (λ text. IsAnswerOver (IsSoughtAnswer sought range) table.now range (Ok text.items)) }
    ensures refused { IfErr result (λ e. e ≢ OutOfMemory → (refusal : WhyNot) × (e ≡ Refused refusal) ×
        IsAnswerOver (IsSoughtAnswer sought range) table.now range (Err refusal)) }
    ensures sure { IfErr result (λ e. e ≢ OutOfMemory → (refusal : WhyNot) × (e ≡ Refused refusal) ×
        (IsOfPlaces refusal → IsAnswerIn (IsSoughtAnswer sought range) table.now range (Err refusal))) }
{
    match sought {
        Sought::Product { a, x } => one_product_text(alloc, table, range, a, x),
        Sought::Bracket { a, b, c } => bracket_text(alloc, table, range, a, b, c),
    }
}
