//! Parts of columns out of bytes.
ghost use Rattle.std.specs.Prelude.{◌≡◌, ◌≢◌, ℕ, ◌≤◌, ◌++◌, Bool, List, length, IfOk, IfErr};
ghost use Rattle.std.specs.Int.{w16, w64, to_be_bytes};
ghost use Rattle.std.specs.List.{flat_map};
ghost use Rattle.bidegree.specs.declared.range.TheConstants.{MAX_S, MAX_T};
ghost use Rattle.f2_vec.specs.Spans.{HaveWidth};
ghost use Rattle.f2_vec.specs.Bytes.{packed};
ghost use Rattle.chart_file.specs.Parts.{Bare, IsBare, Part, IsPart, bare_bytes, head_bytes, part_bytes};
ghost use Rattle.chart_file.specs.Faults.{IsWrong, AreWrongImages, IsWrongSquare, IsWrongHead};
ghost use Rattle.chart_file.specs.declared.fault.DecodeFault.TheVariants.{Memory as WantOfMemory};

use crate::fault::DecodeFault;
use crate::part::{BareSquare, COLUMN, ColumnPart};
use bidegree::{MAX_S, MAX_T};
use f2_vec::{BitVec, BitsFault};
use std::alloc::Global;

/// The part of a column that these bytes are. What is taken of the memory is bounded by how many they are.
///
/// # Errors
/// The first thing that is wrong with the bytes, from their beginning on, where they are no part, and `Memory` if allocation
/// fails.
pub fn decode(alloc: Global, body: &[u8]) -> Result<ColumnPart, DecodeFault>
    ensures part { IfOk result (λ p. IsPart p × (part_bytes p ≡ body.now)) }
    ensures none { IfErr result (λ e. e ≢ WantOfMemory → (p : Part) → IsPart p → part_bytes p ≢ body.now) }
    ensures wrong { IfErr result (λ e. IsWrong body.now e) }
{
    let (above, first, squares) = read_head(body)?;
    let mut part = ColumnPart::new(alloc, above, first);
    let mut rest = squares;
    while !rest.is_empty() {
        if part.squares().len() > usize::from(MAX_S - first) {
            return Err(DecodeFault::Limits);
        }
        let (square, behind) = read_square(alloc, rest)?;
        part.push(square)?;
        rest = behind;
    }
    part.squares(); // It is within the limits of a range, which proofs learn here.
    Ok(part)
}

/// The degree and the first row that these bytes begin with, and the bytes of the squares behind them.
///
/// # Errors
/// What is wrong with these bytes.
fn read_head(body: &[u8]) -> Result<(u16, u16, &[u8]), DecodeFault>
    ensures head { IfOk result (λ r. (r.0 ≤ MAX_T) × (r.1 ≤ MAX_S) × (head_bytes r.0 r.1 ++ r.2.now ≡ body.now)) }
    ensures none { IfErr result (λ _. (above first : ℕ) (rest : List ℕ) → above ≤ MAX_T → first ≤ MAX_S →
        head_bytes above first ++ rest ≢ body.now) }
    ensures wrong { IfErr result (λ e. (e ≢ WantOfMemory) × IsWrongHead body.now e) }
{
    if body.len() < 5 {
        return Err(DecodeFault::Short);
    }
    if body[0] != COLUMN {
        return Err(DecodeFault::Kind);
    }
    let above = short_number(&body[1..3]);
    let first = short_number(&body[3..5]);
    if above > MAX_T || first > MAX_S {
        return Err(DecodeFault::Limits);
    }
    Ok((above, first, &body[5..]))
}

/// The square that these bytes begin with, and the bytes behind it.
///
/// # Errors
/// What is wrong with these bytes, and `Memory` if allocation fails.
fn read_square(alloc: Global, bytes: &[u8]) -> Result<(BareSquare, &[u8]), DecodeFault>
    ensures square { IfOk result (λ r. IsBare r.0 × (bare_bytes r.0 ++ r.1.now ≡ bytes.now)) }
    ensures none { IfErr result (λ e. e ≢ WantOfMemory → (q : Bare) (rest : List ℕ) → IsBare q →
        bare_bytes q ++ rest ≢ bytes.now) }
    ensures wrong { IfErr result (λ e. IsWrongSquare bytes.now e) }
{
    if bytes.len() < 16 {
        return Err(DecodeFault::Short);
    }
    let count = number(&bytes[..8]);
    let width = number(&bytes[8..16]);
    if count > width {
        return Err(DecodeFault::Crowded);
    }
    let (images, rest) = read_images(alloc, width as usize, count as usize, &bytes[16..])?;
    Ok((BareSquare::new(width as usize, images), rest))
}

/// So many images of `width` coordinates that these bytes begin with, and the bytes behind them.
///
/// # Errors
/// What is wrong with these bytes, and `Memory` if allocation fails.
fn read_images(
    alloc: Global,
    width: usize,
    count: usize,
    bytes: &[u8],
) -> Result<(Vec<BitVec>, &[u8]), DecodeFault>
    ensures images { IfOk result (λ r. HaveWidth width r.0.items × (length r.0.items ≡ count)
        × (flat_map packed r.0.items ++ r.1.now ≡ bytes.now)) }
    ensures none { IfErr result (λ e. e ≢ WantOfMemory → (images : List (List Bool)) (rest : List ℕ) →
        HaveWidth width images → length images ≡ count → flat_map packed images ++ rest ≢ bytes.now) }
    ensures wrong { IfErr result (λ e. AreWrongImages width count bytes.now e) }
{
    let len = width.div_ceil(8);
    let mut images = Vec::new(alloc);
    let mut rest = bytes;
    for _ in 0..count {
        if rest.len() < len {
            return Err(DecodeFault::Short);
        }
        let (image, behind) = rest.split_at(len);
        match BitVec::from_bytes(alloc, width, image) {
            Ok(image) => images.push(image)?,
            Err(BitsFault::Memory) => return Err(DecodeFault::Memory),
            Err(BitsFault::SpareBits) => return Err(DecodeFault::SpareBits),
            Err(BitsFault::Length { .. }) => unreachable!(),
        }
        rest = behind;
    }
    Ok((images, rest))
}

/// The number that these two bytes are, the higher first.
fn short_number(bytes: &[u8]) -> u16
    requires { length bytes.now ≡ 2 }
    ensures { to_be_bytes w16 result ≡ bytes.now }
{
    u16::from_be_bytes([bytes[0], bytes[1]])
}

/// The number that these eight bytes are, the highest first.
fn number(bytes: &[u8]) -> u64
    requires { length bytes.now ≡ 8 }
    ensures { to_be_bytes w64 result ≡ bytes.now }
{
    u64::from_be_bytes([
        bytes[0], bytes[1], bytes[2], bytes[3], bytes[4], bytes[5], bytes[6], bytes[7],
    ])
}
