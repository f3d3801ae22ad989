//! What is printed of cases.
use crate::group::{Case, Group};
use crate::reading::read;
use crate::refusal::Fault;
use std::alloc::Global;

/// What runs a case.
pub trait Judge {
    /// Whether a case begins with this verb.
    fn verbs(&self) -> &[&'static str];

    /// What differs of a case from its answer, if something does.
    ///
    /// # Errors
    ///
    /// A line of the case that is unknown, the line of a case without its answer, or `Memory` if allocation fails.
    fn difference(&mut self, alloc: Global, case: &Case) -> Result<Option<String>, Fault>;
}

/// What is printed of a text of cases: a line for each group, with the number of its cases, and behind it one for each case that differs. Appends it, and answers
/// how many differ.
///
/// # Errors
///
/// Why the text is refused.
pub fn report<J: Judge>(
    alloc: Global,
    judge: &mut J,
    text: &str,
    out: &mut String,
) -> Result<u64, Fault> {
    let groups = read(alloc, text, judge.verbs())?;
    let mut differing: u64 = 0;
    for group in &groups {
        tell_group(out, group)?;
        for case in &group.cases {
            let difference = judge.difference(alloc, case)?;
            if tell_case(out, case, &difference)? {
                differing = differing.saturating_add(1);
            }
        }
    }
    Ok(differing)
}

/// Appends the line of a group: its name, and how many cases it has.
///
/// # Errors
///
/// `Memory` if allocation fails.
pub fn tell_group(out: &mut String, group: &Group) -> Result<(), Fault> {
    let count = group.cases.len();
    writeln!(out, "{}: {count}", group.name.as_str())?;
    Ok(())
}

/// Appends the line of a case that differs, and answers whether it does.
///
/// # Errors
///
/// `Memory` if allocation fails.
pub fn tell_case(
    out: &mut String,
    case: &Case,
    difference: &Option<String>,
) -> Result<bool, Fault> {
    match difference {
        Some(difference) => {
            writeln!(out, "  line {}: {}", case.line, difference.as_str())?;
            Ok(true)
        }
        None => Ok(false),
    }
}
