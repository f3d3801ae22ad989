//! The text of the products with a class among those of others.
ghost use Rattle.std.specs.Prelude.{◌≡◌, ◌++◌, IfOk, OnOk};
ghost use Rattle.ext_products.specs.Products.{name_line, headed};

use bidegree::Class;
use memory::Memory;
use std::alloc::Global;

/// The line that names a class.
fn name_line(alloc: Global, by: Class) -> Result<Vec<u8>, Memory>
    ensures { IfOk result (λ line. line.items ≡ name_line by) }
{
    let Class { s, t, i } = by;
    Ok(format!(in alloc; "by ({s},{t},{i})\n")?.into_bytes())
}

/// Adds the text of the products with a class, behind the line that names it if it is to be `named`.
///
/// # Errors
/// `Memory` if allocation fails.
pub fn add_headed(
    alloc: Global,
    named: bool,
    by: Class,
    lines: &[u8],
    text: &mut Vec<u8>,
) -> Result<(), Memory>
    ensures { OnOk result (text.new.items ≡ text.old.items ++ headed named by lines.now) }
{
    if named {
        let name = name_line(alloc, by)?;
        text.extend_from_slice(name.as_slice())?;
    }
    text.extend_from_slice(lines)?;
    Ok(())
}
