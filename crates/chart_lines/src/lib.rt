//! What the lines of a chart are made of: the mark of a square, the label of a row, and the line of the stems.
#![tactic(auto)]

ghost use Rattle.std.specs.Prelude.{◌≡◌, pos, ◌+ℤ◌, ◌≤ℤ◌, ◌++◌, codes, IfOk};
ghost use Rattle.std.specs.Fmt.{signed_decimal};
ghost use Rattle.chart_lines.specs.Chart.{mark, row_label, stems_line};

use itoa::Buffer;
use memory::Memory;
use std::alloc::Global;

/// The mark of a square with this number of generators: a dot for none, the digit up to nine, and a star above.
pub fn mark(count: usize) -> u8
    ensures { result ≡ mark count }
{
    match count {
        0 => b'.',
        1..=9 => b'0' + count as u8,
        _ => b'*',
    }
}

/// The number of a row as text, in at least two places, to the right.
///
/// # Errors
/// `Memory` if allocation fails.
pub fn row_label(alloc: Global, s: u16) -> Result<Vec<u8>, Memory>
    ensures { IfOk result (λ label. label.items ≡ row_label s) }
{
    let mut buffer = Buffer::new();
    let mut label = Vec::new(alloc);
    if s < 10 {
        label.push(b' ')?;
    }
    label.extend_from_slice(buffer.format(s).as_bytes())?;
    Ok(label)
}

/// The line that says that a chart has stems 0 to `n` above the bottom.
///
/// # Errors
/// `Memory` if allocation fails.
pub fn stems_line(alloc: Global, bottom: i32, n: u16) -> Result<Vec<u8>, Memory>
    requires { (bottom +ℤ pos n) ≤ℤ pos 2147483647 }
    ensures { IfOk result (λ line. line.items ≡ stems_line bottom n) }
{
    line_between(alloc, bottom, bottom + i32::from(n))
}

/// The line of the stems from one to another.
fn line_between(alloc: Global, least: i32, greatest: i32) -> Result<Vec<u8>, Memory>
    ensures { IfOk result (λ line. line.items
        ≡ codes "stems " ++ (signed_decimal least ++ (codes ".." ++ (signed_decimal greatest ++ codes "\n")))) }
{
    let mut buffer = Buffer::new();
    let mut line = Vec::from_slice(alloc, b"stems ")?;
    line.extend_from_slice(buffer.format(least).as_bytes())?;
    line.extend_from_slice(b"..")?;
    line.extend_from_slice(buffer.format(greatest).as_bytes())?;
    line.push(b'\n')?;
    Ok(line)
}
