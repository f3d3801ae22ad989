//! What is read of module files, as lines.
use anyhow::Result;
use module_json::{read, read_parts};
use module_spec::Spec;
use std::alloc::{AllocError, Global};

/// What a file of one module describes.
pub(crate) fn told(alloc: Global, file: &[u8]) -> Result<String> {
    let spec = read(alloc, file)?;
    let mut text = String::new(alloc);
    add_spec(&mut text, &spec)?;
    Ok(text)
}

/// What a file of so many modules describes.
pub(crate) fn told_parts(alloc: Global, file: &[u8], want: usize) -> Result<String> {
    let mut text = String::new(alloc);
    for spec in &read_parts(alloc, file, want)? {
        add_spec(&mut text, spec)?;
    }
    Ok(text)
}

/// How many generators and actions a file of one module has.
pub(crate) fn counted(alloc: Global, file: &[u8]) -> Result<String> {
    let spec = read(alloc, file)?;
    let generators = spec.count();
    let actions = spec.entries();
    Ok(format!(in alloc; "{generators} generators, {actions} actions\n")?)
}

/// Appends a line with the generators and their degrees, and behind them the actions by numbers, such as `x0 0, x1 1; 1 0 [1]`: Sq1 takes
/// generator 0 to generator 1.
fn add_spec(text: &mut String, spec: &Spec) -> Result<(), AllocError> {
    for i in 0..spec.count() {
        let between = if i == 0 { "" } else { ", " };
        let name = spec.name(i);
        let degree = spec.degree(i);
        write!(text, "{between}{name} {degree}")?;
    }
    for i in 0..spec.entries() {
        let (n, generator, sum) = spec.entry(i);
        write!(text, "; {n} {generator} {sum:?}")?;
    }
    text.push('\n')?;
    Ok(())
}
