//! Modules from files, and modules that are made of them, as texts.
use anyhow::{Result, bail};
use milnor_basis::sq_text;
use module_build::{dual, file_text, shift, sum, tensor};
use module_check::{CheckFault, Module, check};
use module_json::read;
use std::alloc::Global;

/// The canonical text of the module that a file describes.
pub(crate) fn checked(alloc: Global, file: &[u8]) -> Result<String> {
    let module = described(alloc, file)?;
    canonical_text(alloc, &module)
}

/// The canonical text of the sphere.
pub(crate) fn sphere(alloc: Global) -> Result<String> {
    let module = Module::sphere(alloc)?;
    canonical_text(alloc, &module)
}

/// The canonical text of the module that a number draws.
pub(crate) fn sample(alloc: Global, n: u32) -> Result<String> {
    let module = Module::sample(alloc, n)?;
    canonical_text(alloc, &module)
}

/// The file of the module that a file describes.
pub(crate) fn written(alloc: Global, file: &[u8]) -> Result<String> {
    let module = described(alloc, file)?;
    module_file(alloc, &module)
}

/// The file of the sum of two modules.
pub(crate) fn summed(alloc: Global, file: &[u8], other: &[u8]) -> Result<String> {
    let (left, right) = (described(alloc, file)?, described(alloc, other)?);
    let made = sum(alloc, &left, &right)?;
    module_file(alloc, &made)
}

/// The file of the tensor product of two modules.
pub(crate) fn multiplied(alloc: Global, file: &[u8], other: &[u8]) -> Result<String> {
    let (left, right) = (described(alloc, file)?, described(alloc, other)?);
    let made = tensor(alloc, &left, &right)?;
    module_file(alloc, &made)
}

/// The file of a module, shifted.
pub(crate) fn shifted(alloc: Global, file: &[u8], n: i32) -> Result<String> {
    let given = described(alloc, file)?;
    let made = shift(alloc, &given, n)?;
    module_file(alloc, &made)
}

/// The file of the dual of a module.
pub(crate) fn dualized(alloc: Global, file: &[u8]) -> Result<String> {
    let given = described(alloc, file)?;
    let made = dual(alloc, &given)?;
    module_file(alloc, &made)
}

/// The module that a file describes.
fn described(alloc: Global, file: &[u8]) -> Result<Module> {
    let spec = read(alloc, file)?;
    match check(alloc, &spec) {
        Ok(module) => Ok(module),
        Err(fault) => refused(alloc, fault),
    }
}

/// The refusal of a file, with the relation that fails, if one does.
fn refused(alloc: Global, fault: CheckFault) -> Result<Module> {
    if let CheckFault::Relation { r, s, .. } = fault {
        let (r, s) = (sq_text(alloc, &r)?, sq_text(alloc, &s)?);
        bail!("{fault}: {r} on {s}")
    }
    Err(fault.into())
}

/// The canonical text of a module.
fn canonical_text(alloc: Global, module: &Module) -> Result<String> {
    let text = module.canonical_text(alloc)?;
    Ok(String::from_utf8(text)?)
}

/// The file of a module, with one line more if the file describes another module.
fn module_file(alloc: Global, module: &Module) -> Result<String> {
    let mut text = String::from_utf8(file_text(alloc, module)?)?;
    let again = described(alloc, text.as_bytes())?;
    if canonical_text(alloc, &again)? != canonical_text(alloc, module)? {
        text.push_str("describes another module\n")?;
    }
    Ok(text)
}
