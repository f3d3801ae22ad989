//! Files of tests, part by part in hexadecimal digits, and the disks that hold them. Digests are those of another program.
use edge::MemDisk;
use std::alloc::Global;
use std::test::Fail;

/// What a save file begins with: `EXTSAVE1`.
pub(crate) const MAGIC: &str = "4558545341564531";

/// What the records of the sphere's save file belong to: the digest of `gen x0 0` and a newline.
pub(crate) const OURS: &str = "498fadf13dde22e6898175cb947cb18f477cda6d5603c7a14c475e229eaaa943";

/// What the records of another module's save file belong to, that of two generators `x0` and `y0` in degrees 5 and 6 with Sq1 x0 = y0:
/// the digest of its three lines.
pub(crate) const THEIRS: &str = "5b01a2fd981bf610268cc97171b55385829b01d2e57240ebdbdd089f0f084e62";

/// The record of the first square of the sphere behind its gate.
pub(crate) const SQUARE: &str =
    "0000000000000026010000000000000000000000010000000000000001010000000000000000000000000000000169b7c844de9a6419754dc7e857dbba1a6f8b2f2ddeaefedb344ea3bea60d3953";

/// The record of the sphere's second square, that in degree 1, behind its gate.
pub(crate) const SECOND: &str =
    "0000000000000026010000000100000000000000000000000000000000000000000000000100000000000000010129f0f4d54ee5bc71a09ea6a1d93483428b8bd0fadfbd3f1b31d0df4678f61123";

/// The record of the quasi-inverse of the first square behind its gate.
pub(crate) const QUASI: &str =
    "000000000000001f03000000000000000000000001000000000000000100000000000000010101d4201fc0b393336e09ca924e50b041dcd9ecb8f101abddc636aa29ca8d73b287";

/// The bytes of a text of these parts.
pub(crate) fn bytes(alloc: Global, parts: &[&str]) -> Result<Vec<u8>, Fail> {
    let mut text = String::new(alloc);
    for part in parts {
        text.push_str(part)?;
    }
    Ok(hex::decode(alloc, text.as_str())?)
}

/// A disk that holds these bytes. It fails in the calls that are listed, counted from 1, and after so many calls.
pub(crate) fn disk(
    alloc: Global,
    bytes: Vec<u8>,
    failing: &[u64],
    stop_after: u64,
) -> Result<MemDisk, Fail> {
    let failing = failing.to_vec(alloc)?;
    Ok(MemDisk::new(alloc, bytes, 10000, failing, stop_after)?)
}

/// A disk that holds these bytes, and does not fail.
pub(crate) fn sound_disk(alloc: Global, bytes: Vec<u8>) -> Result<MemDisk, Fail> {
    disk(alloc, bytes, &[], u64::MAX)
}
