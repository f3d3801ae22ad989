//! The cases of modules.
use crate::files::{counted, told, told_parts};
use crate::modules::{checked, dualized, multiplied, sample, shifted, sphere, summed, written};
use cases::{Case, Differences, Fault, Judge};
use std::alloc::{AllocError, Global};
use std::str::FromStr;

/// Runs a case of one or two modules.
///
/// The field `file` is the file of a module, and `other` is that of a second one. What has to come of a case stands in the lines of `>`, or
/// in the field `refused`, which has the text of the error.
///
/// | verb | what comes of it |
/// |---|---|
/// | `read` | generators and actions as they are read |
/// | `count` | how many generators and actions are read |
/// | `parts N` | those of each part of a file of `N` modules, a part a line |
/// | `check` | the canonical text of the module |
/// | `sphere`, `sample N` | the canonical text of a module that no file describes |
/// | `write` | the module's file |
/// | `sum`, `tensor`, `shift N`, `dual` | the file of the module that is made |
/// | `dual-is N` | the file of the dual, which has to be the file of `other`, shifted by `N` |
///
/// A file that is written has to describe the module that it was written of.
#[derive(Drop)]
pub(crate) struct ModuleCases;

impl Judge for ModuleCases {
    fn verbs(&self) -> &[&'static str] {
        &[
            "read", "count", "parts", "check", "sphere", "sample", "write", "sum", "tensor",
            "shift", "dual", "dual-is",
        ]
    }

    fn difference(&mut self, alloc: Global, case: &Case) -> Result<Option<String>, Fault> {
        check_form(case)?;
        let wanted = wanted(alloc, case)?;
        let got = lines(alloc, outcome(alloc, case)?)?;
        let mut differences = Differences::none(alloc);
        differences.compare_texts("answer", got.as_str(), wanted.as_str())?;
        Ok(differences.into_line())
    }
}

/// Refuses a field or a word that the verb of a case does not take.
fn check_form(case: &Case) -> Result<(), Fault> {
    let verb = case.verb.as_str();
    let answer = if case.text("refused").is_some() {
        "refused"
    } else {
        ">"
    };
    match verb {
        "sphere" | "sample" => case.check_keys(&[answer])?,
        "sum" | "tensor" => case.check_keys(&["file", "other", answer])?,
        "dual-is" => case.check_keys(&["file", "other"])?,
        _ => case.check_keys(&["file", answer])?,
    }
    let has_number = matches!(verb, "parts" | "sample" | "shift" | "dual-is");
    if !has_number && !case.words.is_empty() {
        return Err(case.refused("an unknown word"));
    }
    Ok(())
}

/// The lines that have to come of a case.
fn wanted(alloc: Global, case: &Case) -> Result<String, Fault> {
    if case.verb.as_str() == "dual-is" {
        let other = case.answer("other")?.as_bytes();
        return match shifted(alloc, other, number(case)?) {
            Ok(text) => Ok(text),
            Err(_) => Err(case.refused("no module to compare with")),
        };
    }
    match case.text("refused") {
        Some(why) => Ok(refused(alloc, why)?),
        None => Ok(String::from_str(alloc, case.answer(">")?)?),
    }
}

/// What comes of a case.
fn outcome(alloc: Global, case: &Case) -> Result<anyhow::Result<String>, Fault> {
    match case.verb.as_str() {
        "sphere" => return Ok(sphere(alloc)),
        "sample" => return Ok(sample(alloc, number(case)?)),
        _ => {}
    }
    let file = case.answer("file")?.as_bytes();
    match case.verb.as_str() {
        "read" => Ok(told(alloc, file)),
        "count" => Ok(counted(alloc, file)),
        "parts" => Ok(told_parts(alloc, file, number(case)?)),
        "check" => Ok(checked(alloc, file)),
        "write" => Ok(written(alloc, file)),
        "sum" => Ok(summed(alloc, file, case.answer("other")?.as_bytes())),
        "tensor" => Ok(multiplied(alloc, file, case.answer("other")?.as_bytes())),
        "shift" => Ok(shifted(alloc, file, number(case)?)),
        _ => Ok(dualized(alloc, file)),
    }
}

/// What comes of a case as lines.
fn lines(alloc: Global, outcome: anyhow::Result<String>) -> Result<String, AllocError> {
    match outcome {
        Ok(text) => Ok(text),
        Err(error) => refused(alloc, error.to_string(alloc)?.as_str()),
    }
}

/// The line of a refusal.
fn refused(alloc: Global, why: &str) -> Result<String, AllocError> {
    format!(in alloc; "refused: {why}\n")
}

/// The number behind the verb of a case.
fn number<T: FromStr>(case: &Case) -> Result<T, Fault>
where
    T::Err: Drop,
{
    match case.words.parse() {
        Ok(number) => Ok(number),
        Err(_) => Err(case.refused("no number")),
    }
}
