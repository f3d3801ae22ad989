//! The cases of save files.
use crate::outcomes::{appended, opened, sound_disk, taken_up};
use cases::{Case, Differences, Fault, Judge};
use std::alloc::Global;

/// Runs a case of a save file. Bytes are written as digits, between which blanks may stand.
///
/// The field `file` has the bytes of the disk. It `is` afterwards what the case says, the disk has the bytes `left`, or the `same` as
/// before, and was called so often if the field `calls` is there.
///
/// | verb | what it is |
/// |---|---|
/// | `open DIGEST` | the bodies of the records of the file of this digest, each with a comma behind it |
/// | `append DIGEST` | those that are kept once a record of the `body` is appended |
/// | `resume` | how many squares of row 0 the sphere's file has |
///
/// If it is refused, it is `refused` with the reason.
#[derive(Drop)]
pub(crate) struct SaveCases;

impl Judge for SaveCases {
    fn verbs(&self) -> &[&'static str] {
        &["open", "append", "resume"]
    }

    fn difference(&mut self, alloc: Global, case: &Case) -> Result<Option<String>, Fault> {
        case.check_keys(&["file", "body", "is", "left", "calls"])?;
        let file = bytes_of(alloc, case, case.answer("file")?)?;
        let disk = sound_disk(alloc, file.clone()?)?;
        let (outcome, disk) = match case.verb.as_str() {
            "open" => opened(alloc, disk, digest_of(alloc, case)?)?,
            "append" => {
                let body = bytes_of(alloc, case, case.answer("body")?)?;
                appended(alloc, disk, digest_of(alloc, case)?, body)?
            }
            _ => taken_up(alloc, disk)?,
        };
        let left = match case.answer("left")? {
            "same" => file,
            digits => bytes_of(alloc, case, digits)?,
        };
        let left = hex::encode(alloc, left.as_slice())?;
        let held = hex::encode(alloc, disk.bytes())?;
        let durable = hex::encode(alloc, disk.image(alloc, 0)?.as_slice())?;
        let mut differences = Differences::none(alloc);
        differences.compare_texts("answer", outcome.as_str(), case.answer("is")?)?;
        differences.compare_texts("left", held.as_str(), left.as_str())?;
        differences.compare_texts("left and synced", durable.as_str(), left.as_str())?;
        let calls = case.number("calls", disk.calls())?;
        differences.compare_numbers("calls", disk.calls(), calls)?;
        Ok(differences.into_line())
    }
}

/// The digest that the words of a case are.
fn digest_of(alloc: Global, case: &Case) -> Result<[u8; 32], Fault> {
    match bytes_of(alloc, case, case.words.as_str())?
        .as_slice()
        .try_into()
    {
        Ok(digest) => Ok(digest),
        Err(_) => Err(case.refused("no digest")),
    }
}

/// The bytes that have these digits.
fn bytes_of(alloc: Global, case: &Case, digits: &str) -> Result<Vec<u8>, Fault> {
    let mut dense = String::new(alloc);
    for part in digits.split_whitespace() {
        dense.push_str(part)?;
    }
    match hex::decode(alloc, dense.as_str()) {
        Ok(bytes) => Ok(bytes),
        Err(_) => Err(case.refused("no bytes")),
    }
}
