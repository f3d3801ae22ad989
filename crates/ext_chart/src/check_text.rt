//! The line on a module file that is accepted.
ghost use Rattle.std.specs.Prelude.{◌≡◌, IfOk};
ghost use Rattle.ext_chart.specs.Check.{degrees_text, generators_line, check_line};

use itoa::Buffer;
use memory::Memory;
use std::alloc::Global;

/// The degrees from `least` to `greatest`.
fn degrees_text(alloc: Global, least: i32, greatest: i32) -> Result<Vec<u8>, Memory>
    ensures { IfOk result (λ text. text.items ≡ degrees_text least greatest) }
{
    let mut buffer = Buffer::new();
    let mut text = Vec::from_slice(alloc, buffer.format(least).as_bytes())?;
    text.extend_from_slice(b"..")?;
    text.extend_from_slice(buffer.format(greatest).as_bytes())?;
    Ok(text)
}

/// The line on `count` generators of degrees from `least` to `greatest`.
fn generators_line(
    alloc: Global,
    count: usize,
    least: i32,
    greatest: i32,
) -> Result<Vec<u8>, Memory>
    ensures { IfOk result (λ line. line.items ≡ generators_line count least greatest) }
{
    let mut buffer = Buffer::new();
    let degrees = degrees_text(alloc, least, greatest)?;
    let mut line = Vec::from_slice(alloc, b"accepted ")?;
    line.extend_from_slice(buffer.format(count).as_bytes())?;
    line.extend_from_slice(b" generators, degrees ")?;
    line.extend_from_slice(degrees.as_slice())?;
    line.push(b'\n')?;
    Ok(line)
}

/// The line on an accepted module of `count` generators, whose degrees go from `least` to `greatest`.
///
/// # Errors
/// `Memory` if allocation fails.
pub fn check_line(alloc: Global, count: usize, least: i32, greatest: i32) -> Result<Vec<u8>, Memory>
    ensures { IfOk result (λ line. line.items ≡ check_line count least greatest) }
{
    if count == 0 {
        Ok(Vec::from_slice(alloc, b"accepted 0 generators\n")?)
    } else {
        generators_line(alloc, count, least, greatest)
    }
}
