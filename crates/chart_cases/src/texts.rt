//! The texts of tables and classes.
use crate::classes::class_of;
use crate::tables::{number, range_of, table_of};
use bidegree::Shape;
use cases::{Case, Fault};
use ext_chart::{ProductLine, bracket_lines, chart, check_line, dump, product_lines, summary};
use f2_vec::BitVec;
use std::alloc::Global;

/// The chart of a table.
pub(crate) fn charted(alloc: Global, case: &Case) -> Result<String, Fault> {
    let range = range_of(case)?;
    let table = table_of(alloc, case, range)?;
    text_of(case, chart(alloc, &table, range, Shape::Rectangle)?)
}

/// The differentials of a table.
pub(crate) fn dumped(alloc: Global, case: &Case) -> Result<String, Fault> {
    let range = range_of(case)?;
    let table = table_of(alloc, case, range)?;
    text_of(case, dump(alloc, &table, range, Shape::Rectangle)?)
}

/// The summary of a table.
pub(crate) fn summed_up(alloc: Global, case: &Case) -> Result<String, Fault> {
    let range = range_of(case)?;
    let table = table_of(alloc, case, range)?;
    text_of(case, summary(alloc, &table, range, Shape::Rectangle)?)
}

/// The line on a module that was checked, with so many generators from one degree to another.
pub(crate) fn accepted(
    alloc: Global,
    case: &Case,
    count: &str,
    least: &str,
    greatest: &str,
) -> Result<String, Fault> {
    let (count, least, greatest) = (
        number(case, count)?,
        number(case, least)?,
        number(case, greatest)?,
    );
    text_of(case, check_line(alloc, count, least, greatest)?)
}

/// The line of the product with a class, which has these coordinates in a square.
pub(crate) fn product_written(
    alloc: Global,
    case: &Case,
    class: &str,
    square: &str,
    vector: &str,
) -> Result<String, Fault> {
    let Some((target_s, target_t)) = square.split_once(',') else {
        return Err(case.refused("no square"));
    };
    let class = class_of(case, class)?;
    let Ok(s) = u16::try_from(class.s) else {
        return Err(case.refused("no row"));
    };
    let mut lines = Vec::new(alloc);
    lines.push(ProductLine {
        s,
        t: class.t,
        i: class.i,
        target_s: number(case, target_s)?,
        target_t: number(case, target_t)?,
        value: vector_of(alloc, vector)?,
    })?;
    text_of(case, product_lines(alloc, lines.as_slice())?)
}

/// The lines of a bracket in a square, with its value and the rows of its indeterminacy.
pub(crate) fn bracket_written(
    alloc: Global,
    case: &Case,
    square: &str,
    vector: &str,
    rows: &[&str],
) -> Result<String, Fault> {
    let Some((s, t)) = square.split_once(',') else {
        return Err(case.refused("no square"));
    };
    let (s, t) = (number(case, s)?, number(case, t)?);
    let value = vector_of(alloc, vector)?;
    let mut indeterminacy = Vec::new(alloc);
    for row in rows {
        indeterminacy.push(vector_of(alloc, row)?)?;
    }
    text_of(
        case,
        bracket_lines(alloc, s, t, &value, indeterminacy.as_slice())?,
    )
}

/// The vector with these coordinates.
fn vector_of(alloc: Global, digits: &str) -> Result<BitVec, Fault> {
    let mut vector = BitVec::zero(alloc, 0)?;
    for digit in digits.bytes() {
        vector.push(digit == b'1')?;
    }
    Ok(vector)
}

/// A text from its bytes.
pub(crate) fn text_of(case: &Case, bytes: Vec<u8>) -> Result<String, Fault> {
    String::from_utf8(bytes).map_err(|_| case.refused("no text"))
}
