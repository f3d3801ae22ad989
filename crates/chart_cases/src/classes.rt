//! Products and brackets of classes.
use crate::tables::{number, range_of, table_of};
use crate::texts::text_of;
use bidegree::Class;
use cases::{Case, Fault};
use chain_map::{Held, Source};
use ext_products::{ClassesFault, one_product_text, sphere_table};
use f2_vec::BitVec;
use massey::{MasseyFault, bracket};
use std::alloc::Global;
use yoneda::{YonedaFault, place_of, product};

/// What the product of a class of the sphere with a class of a module is.
pub(crate) fn multiplied(alloc: Global, case: &Case, a: &str, x: &str) -> Result<String, Fault> {
    let (a, x) = (class_of(case, a)?, class_of(case, x)?);
    let range = range_of(case)?;
    let table = table_of(alloc, case, range)?;
    let sphere = sphere_table(alloc, range, Some(&table))?;
    let source = Source {
        held: Held::Squares(&table),
    };
    match product(alloc, &source, &sphere, range, a, x) {
        Ok(value) => value_text(alloc, &value),
        Err(YonedaFault::Memory) => Err(Fault::Memory),
        Err(YonedaFault::NoClass { which, count }) => missing(alloc, which, count),
        Err(fault) => Ok(format!(in alloc; "refused: {fault}")?),
    }
}

/// The line of the product of a class of the sphere with a class of a module.
pub(crate) fn lined(alloc: Global, case: &Case, a: &str, x: &str) -> Result<String, Fault> {
    let (a, x) = (class_of(case, a)?, class_of(case, x)?);
    let range = range_of(case)?;
    let table = table_of(alloc, case, range)?;
    let source = Source {
        held: Held::Squares(&table),
    };
    match one_product_text(alloc, &source, range, a, x) {
        Ok(text) => text_of(case, text),
        Err(ClassesFault::Memory) => Err(Fault::Memory),
        Err(ClassesFault::Refused(refusal)) => Ok(format!(in alloc; "refused: {refusal}")?),
    }
}

/// What the bracket of three classes of the sphere is.
pub(crate) fn bracketed(
    alloc: Global,
    case: &Case,
    a: &str,
    b: &str,
    c: &str,
) -> Result<String, Fault> {
    let (a, b, c) = (class_of(case, a)?, class_of(case, b)?, class_of(case, c)?);
    let range = range_of(case)?;
    let sphere = sphere_table(alloc, range, None)?;
    let source = Source {
        held: Held::Squares(&sphere),
    };
    match bracket(alloc, &source, &sphere, range, a, b, c) {
        Ok(made) => {
            let value = value_text(alloc, &made.value)?;
            let rank = made.indeterminacy.rows().len();
            Ok(format!(in alloc;
                "in ({},{}): {}, rank {rank}",
                made.s,
                made.t,
                value.as_str()
            )?)
        }
        Err(MasseyFault::Memory) => Err(Fault::Memory),
        Err(MasseyFault::NoClass { which, count }) => missing(alloc, which, count),
        Err(MasseyFault::Nonzero { which, product }) => {
            let value = value_text(alloc, &product)?;
            Ok(format!(in alloc; "refused: product {which} is {}", value.as_str())?)
        }
        Err(fault) => Ok(format!(in alloc; "refused: {fault}")?),
    }
}

/// Whether a class is in a table.
pub(crate) fn sought(alloc: Global, case: &Case, x: &str) -> Result<String, Fault> {
    let x = class_of(case, x)?;
    let range = range_of(case)?;
    let table = table_of(alloc, case, range)?;
    let source = Source {
        held: Held::Squares(&table),
    };
    Ok(match place_of(&source, range, x) {
        Ok(_) => String::from_str(alloc, "there")?,
        Err(count) => format!(in alloc; "not there, {count} classes")?,
    })
}

/// The class with this row, degree and number.
pub(crate) fn class_of(case: &Case, text: &str) -> Result<Class, Fault> {
    let mut parts = text.split(',');
    let (Some(s), Some(t), Some(i), None) = (parts.next(), parts.next(), parts.next(), parts.next())
    else {
        return Err(case.refused("no class"));
    };
    Ok(Class {
        s: number(case, s)?,
        t: number(case, t)?,
        i: number(case, i)?,
    })
}

/// The places of the ones of a vector, and how many coordinates it has.
fn value_text(alloc: Global, value: &BitVec) -> Result<String, Fault> {
    if value.is_zero() {
        return Ok(String::from_str(alloc, "zero")?);
    }
    let ones = value.ones(alloc)?;
    let length = value.len();
    Ok(format!(in alloc; "{:?} of {length}", ones.as_slice())?)
}

/// The refusal of a class that is not there. The classes are counted from 0.
fn missing(alloc: Global, which: u8, count: usize) -> Result<String, Fault> {
    Ok(format!(in alloc; "refused: class {which} is none of {count}")?)
}
