//! The cases of classes and of their texts.
use crate::classes::{bracketed, lined, multiplied, sought};
use crate::texts::{accepted, bracket_written, charted, dumped, product_written, summed_up};
use cases::{Case, Differences, Fault, Judge};
use std::alloc::Global;

/// Runs a case of products, of brackets, or of texts.
///
/// A class is written as its row, degree and number with commas between them, a square as its row and degree, and a vector as its
/// coordinates.
///
/// | verb and words | fields | what comes of it |
/// |---|---|---|
/// | `product A X` | `through`, `module` | it `is` zero, or has ones at these places of so many, or is refused |
/// | `line A X` | `through`, `module` | the line of their product, or that it is refused |
/// | `bracket A B C` | `through` | it `is` in a square, with a value and the rank of its indeterminacy, or is refused |
/// | `place X` | `through`, `module` | it `is` there or not |
/// | `chart`, `dump`, `summary` | `through`, `module` | the text |
/// | `check-line COUNT LEAST GREATEST` | | the text |
/// | `product-line CLASS SQUARE VECTOR` | | the text |
/// | `bracket-lines SQUARE VECTOR ROWS..` | | the text |
///
/// The field `through` has the greatest row and degree of the tables, and `module` the file of a module that is not the sphere.
#[derive(Drop)]
pub(crate) struct ChartCases;

impl Judge for ChartCases {
    fn verbs(&self) -> &[&'static str] {
        &[
            "product",
            "line",
            "bracket",
            "place",
            "chart",
            "dump",
            "summary",
            "check-line",
            "product-line",
            "bracket-lines",
        ]
    }

    fn difference(&mut self, alloc: Global, case: &Case) -> Result<Option<String>, Fault> {
        let key = answer_key(case.verb.as_str());
        case.check_keys(&["through", "module", key])?;
        let got = outcome(alloc, case)?;
        let mut differences = Differences::none(alloc);
        differences.compare_texts("answer", got.as_str(), case.answer(key)?)?;
        Ok(differences.into_line())
    }
}

/// The field that has the answer of a case.
fn answer_key(verb: &str) -> &'static str {
    match verb {
        "product" | "bracket" | "place" => "is",
        _ => ">",
    }
}

/// What comes of a case.
fn outcome(alloc: Global, case: &Case) -> Result<String, Fault> {
    let words = case.split_words(alloc)?;
    match (case.verb.as_str(), words.as_slice()) {
        ("product", [a, x]) => multiplied(alloc, case, a, x),
        ("line", [a, x]) => lined(alloc, case, a, x),
        ("bracket", [a, b, c]) => bracketed(alloc, case, a, b, c),
        ("place", [x]) => sought(alloc, case, x),
        ("chart", []) => charted(alloc, case),
        ("dump", []) => dumped(alloc, case),
        ("summary", []) => summed_up(alloc, case),
        ("check-line", [count, least, greatest]) => accepted(alloc, case, count, least, greatest),
        ("product-line", [class, square, vector]) => {
            product_written(alloc, case, class, square, vector)
        }
        ("bracket-lines", [square, vector, rows @ ..]) => {
            bracket_written(alloc, case, square, vector, rows)
        }
        _ => Err(case.refused("other words")),
    }
}
