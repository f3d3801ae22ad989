//! Squares and quasi-inverses as bytes.
ghost use Rattle.std.specs.Prelude.{◌≡◌, ◌<◌, ◌^◌, ◌++◌, option_map, IfOk, OnOk, IfSome, IsSome};
ghost use Rattle.f2_matrix.specs.Reduction.{Reduction};
ghost use Rattle.square.specs.Squares.{IsSquare, KeptWhereMade};
ghost use Rattle.square.specs.Tables.{square_at, IsQuasiAt};
ghost use Rattle.save_file.specs.Bodies.{matrix_bytes, quasi_bytes, preimages_bytes, preimages_of, kind_of, addition_bytes};
ghost use Rattle.save_file.specs.Saved.{IsBodyOf, IsReadAs, IsQuasiBodyOf, IsReadAsQuasi};

use crate::outline::{LEAST_LEN, LEAST_QUASI_LEN, QUASI, REDUCED, SQUARE};
use crate::rows::append_rows;
use f2_matrix::{Reduced, parts_are_reduction};
use f2_vec::BitVec;
use memory::Memory;
use square::{Square, Table};
use std::alloc::Global;

/// The body of a square in a save file, with the square's quasi-inverse if it has kept that.
///
/// # Errors
/// `Memory` if allocation fails.
pub fn encode(alloc: Global, square: &Square) -> Result<Vec<u8>, Memory>
    ensures body { IfOk result (λ bytes. IsBodyOf square.now bytes.items) }
    ensures read { IfOk result (λ bytes. IsReadAs square.now bytes.items) }
    ensures is_square { IfOk result (λ _. IsSquare square.now) }
    ensures where_made { IfOk result (λ _. KeptWhereMade square.now) }
{
    parts_are_reduction(); // The rows of a reduction are its parts, which proofs learn here.
    let (target, source) = square.widths();
    let len = body_len(square, target, source);
    let mut bytes = Vec::with_capacity(alloc, len)?;
    bytes.push(kind_of(square))?;
    bytes.extend_from_slice(&square.s().to_be_bytes())?;
    bytes.extend_from_slice(&square.above().to_be_bytes())?;
    append_matrix(target, square.gens(), &mut bytes)?;
    append_matrix(source, square.kernel(), &mut bytes)?;
    append_quasi(square.kept_quasi(), &mut bytes)?;
    Ok(bytes)
}

/// The body of the quasi-inverse of the square in row `s` and of degree `t`, for a file that has the square without one. It is read
/// back only if its kernel rows are those of the square. They are if that square and those that it stands on are squares of the
/// canonical resolution.
///
/// # Errors
/// `Memory` if allocation fails.
pub fn encode_quasi(alloc: Global, table: &Table, s: u16, t: i32) -> Result<Vec<u8>, Memory>
    requires there { IsSome (square_at table.now s t) }
    requires kernel { (r : Reduction) → IsQuasiAt table.now s t r →
        IfSome (square_at table.now s t) (λ q. r.kernel ≡ q.content.kernel) }
    ensures body { IfOk result (λ bytes. IsQuasiBodyOf table.now s t bytes.items) }
    ensures read { IfOk result (λ bytes. IsReadAsQuasi table.now s t bytes.items) }
{
    parts_are_reduction(); // The rows of a reduction are its parts, which proofs learn here.
    let Some(square) = table.at(s, t) else {
        unreachable!()
    };
    if let Some(kept) = square.kept_quasi() {
        let bytes = addition(alloc, s, square.above(), kept)?;
        return Ok(bytes);
    }
    let quasi = table.quasi(alloc, s, t)?;
    let bytes = addition(alloc, s, square.above(), &quasi)?;
    Ok(bytes)
}

/// The body of the quasi-inverse of a square in row `s`, `above` degrees above the bottom.
///
/// # Errors
/// `Memory` if allocation fails.
pub(crate) fn addition(
    alloc: Global,
    s: u16,
    above: u16,
    quasi: &Reduced,
) -> Result<Vec<u8>, Memory>
    ensures bytes { IfOk result (λ bytes. bytes.items ≡ addition_bytes (record {
      s = s;
      above = above;
      cols = quasi.now.cols;
      height = quasi.now.height;
      preimages = preimages_of quasi.now;
    })) }
    ensures fits { IfOk result (λ _. (quasi.now.cols < 2 ^ 64) × (quasi.now.height < 2 ^ 64)) }
{
    let mut bytes = Vec::with_capacity(alloc, addition_len(quasi))?;
    bytes.push(QUASI)?;
    bytes.extend_from_slice(&s.to_be_bytes())?;
    bytes.extend_from_slice(&above.to_be_bytes())?;
    bytes.extend_from_slice(&(quasi.image().len() as u64).to_be_bytes())?;
    bytes.extend_from_slice(&(quasi.cols() as u64).to_be_bytes())?;
    bytes.extend_from_slice(&(quasi.height() as u64).to_be_bytes())?;
    append_preimages(quasi, &mut bytes)?;
    Ok(bytes)
}

/// The kind of a square's body.
fn kind_of(square: &Square) -> u8
    ensures { result ≡ kind_of (option_map preimages_of square.now.quasi) }
{
    match square.kept_quasi() {
        Some(_) => REDUCED,
        None => SQUARE,
    }
}

/// Puts what stands behind the kernel rows at the end of the bytes.
fn append_quasi(quasi: Option<&Reduced>, bytes: &mut Vec<u8>) -> Result<(), Memory>
    ensures { OnOk result (bytes.new.items
        ≡ bytes.old.items ++ quasi_bytes (option_map preimages_of (option_map (λ r. r.now) quasi.entry))) }
{
    let Some(quasi) = quasi else {
        return Ok(());
    };
    bytes.extend_from_slice(&(quasi.image().len() as u64).to_be_bytes())?;
    append_preimages(quasi, bytes)
}

/// Puts the image rows and the chosen preimages at the end of the bytes.
fn append_preimages(quasi: &Reduced, bytes: &mut Vec<u8>) -> Result<(), Memory>
    ensures { OnOk result (bytes.new.items ≡ bytes.old.items ++ preimages_bytes (preimages_of quasi.now)) }
{
    append_rows(quasi.image(), bytes)?;
    append_rows(quasi.chosen(), bytes)
}

/// Puts a matrix with so many columns at the end of the bytes.
fn append_matrix(cols: u64, rows: &[BitVec], bytes: &mut Vec<u8>) -> Result<(), Memory>
    ensures { OnOk result
        (bytes.new.items ≡ bytes.old.items ++ matrix_bytes (record { cols = cols; rows = rows.now })) }
{
    bytes.extend_from_slice(&(rows.len() as u64).to_be_bytes())?;
    bytes.extend_from_slice(&cols.to_be_bytes())?;
    append_rows(rows, bytes)
}

/// How many bytes it takes, as far as that can be counted.
fn body_len(square: &Square, target: u64, source: u64) -> usize {
    let images = (square.gens().len() as u64).saturating_mul(target.div_ceil(8));
    let kernel = (square.kernel().len() as u64).saturating_mul(source.div_ceil(8));
    let quasi = match square.kept_quasi() {
        Some(quasi) => preimages_len(quasi).saturating_add(8),
        None => 0,
    };
    images
        .saturating_add(kernel)
        .saturating_add(quasi)
        .saturating_add(LEAST_LEN as u64) as usize
}

/// How many bytes the body of a quasi-inverse alone takes, as far as that can be counted.
fn addition_len(quasi: &Reduced) -> usize {
    preimages_len(quasi).saturating_add(LEAST_QUASI_LEN as u64) as usize
}

/// How many bytes the image rows and the chosen preimages take, as far as that can be counted.
fn preimages_len(quasi: &Reduced) -> u64 {
    let target = (quasi.cols() as u64).div_ceil(8);
    let source = (quasi.height() as u64).div_ceil(8);
    (quasi.image().len() as u64).saturating_mul(target.saturating_add(source))
}
