//! The rows of a matrix in a body.
ghost use Rattle.std.specs.Prelude.{◌≡◌, ◌++◌, ◌*◌, ◌<◌, List, Bool, length, IsTrue, IfOk, OnOk, MatchOption};
ghost use Rattle.std.specs.List.{flat_map};
ghost use Rattle.f2_vec.specs.Spans.{HaveWidth};
ghost use Rattle.f2_vec.specs.Bytes.{packed};
ghost use Rattle.save_file.specs.Reading.{packed_len};
ghost use Rattle.save_file.specs.Inside.Outline.{packed_of, AreUnpacked};

use crate::outline::PackedRows;
use f2_vec::{BitVec, BitsFault};
use memory::Memory;
use std::alloc::Global;

/// The rows, none where a spare bit of one is 1.
///
/// # Errors
/// `Memory` if allocation fails.
pub(crate) fn unpack(alloc: Global, packed: &PackedRows<'_>) -> Result<Option<Vec<BitVec>>, Memory>
    requires { length packed.now.bytes.now ≡ packed.now.height * packed_len packed.now.cols }
    ensures { IfOk result
        (λ found. MatchOption found ((rows : List (List Bool)) → AreUnpacked (packed_of packed.now) rows → ⊥)
        (λ rows. AreUnpacked (packed_of packed.now) rows.items)) }
{
    let cols = packed.cols as usize;
    let len = cols.div_ceil(8);
    let mut rows = Vec::with_capacity(alloc, packed.height as usize)?;
    let mut rest = packed.bytes;
    for _ in 0..packed.height {
        let (row, after) = rest.split_at(len);
        match BitVec::from_bytes(alloc, cols, row) {
            Ok(row) => rows.push(row)?,
            Err(BitsFault::SpareBits) => return Ok(None),
            Err(BitsFault::Length { .. }) => unreachable!(),
            Err(BitsFault::Memory) => return Err(Memory),
        }
        rest = after;
    }
    Ok(Some(rows))
}

/// Puts the rows at the end of the bytes, one after the other.
///
/// # Errors
/// `Memory` if allocation fails.
pub(crate) fn append_rows(rows: &[BitVec], bytes: &mut Vec<u8>) -> Result<(), Memory>
    ensures { OnOk result (bytes.new.items ≡ bytes.old.items ++ flat_map packed rows.now) }
{
    for row in rows {
        row.append_bytes(bytes)?;
    }
    Ok(())
}

/// Whether these rows, packed, are those.
///
/// # Errors
/// `Memory` if allocation fails.
pub(crate) fn are_packed_so(
    alloc: Global,
    rows: &[BitVec],
    packed: &PackedRows<'_>,
) -> Result<bool, Memory>
    ensures { IfOk result (λ are. IsTrue are → AreUnpacked (packed_of packed.now) rows.now) }
{
    if rows.len() as u64 != packed.height || !have_width(packed.cols as usize, rows) {
        return Ok(false);
    }
    let mut bytes = Vec::with_capacity(alloc, packed.bytes.len())?;
    append_rows(rows, &mut bytes)?;
    Ok(bytes.as_slice() == packed.bytes)
}

/// Whether each of the rows is of length `n`.
pub(crate) fn have_width(n: usize, rows: &[BitVec]) -> bool
    ensures { IsTrue result → HaveWidth n rows.now }
{
    for i in 0..rows.len() {
        if rows[i].len() != n {
            return false;
        }
    }
    true
}

/// Whether the row with this number is there and has its pivot at place `i`.
pub(crate) fn is_pivot_of(rows: &[BitVec], number: usize, i: usize) -> bool
    ensures { IsTrue result → number < length rows.now }
{
    match rows.get(number) {
        Some(row) => row.first_one() == Some(i),
        None => false,
    }
}
