//! Module files and save files of which each byte is changed in turn.
use crate::runs::{C2, SOUND, narrow_devices, ran, run_over, run_over_disk, sound_disk};
use sha2::{Digest, Sha256};
use square_worker::OpenGate;
use std::alloc::Global;
use std::process::Abort;
use std::sync::Wait;
use std::test::Fail;
use std::thread::Threads;
use std::time::Clock;

/// Compares how `check` ends on this file.
fn assert_check<W: Threads + Wait + Clock + Sync + Abort>(
    rt: &W,
    alloc: Global,
    file: &[u8],
    ended: (u8, &str, &str),
) -> Result<(), Fail> {
    let devices = narrow_devices(alloc, file, SOUND, sound_disk(alloc, b"")?)?;
    let _ = run_over(rt, alloc, &["check"], devices, ended)?;
    Ok(())
}

const NOT_JSON: (u8, &str, &str) = (3, "", "ext: module file: not JSON\n");

/// The first bytes of a module file, for each count of them.
#[test]
fn first_parts(rt: HostRuntime) -> Result<(), Fail> {
    for count in 0..C2.len() {
        let part = C2.get(..count).unwrap_or(&[]);
        assert_check(&rt, rt.alloc(), part, NOT_JSON)?;
    }
    Ok(())
}

/// A byte of no text in each place of a module file, those of names among them.
#[test]
fn bytes_of_no_text(rt: HostRuntime) -> Result<(), Fail> {
    let alloc = rt.alloc();
    for place in 0..C2.len() {
        let mut file = C2.to_vec(alloc)?;
        if let Some(byte) = file.get_mut(place) {
            *byte = 0xff;
        }
        assert_check(&rt, alloc, file.as_slice(), NOT_JSON)?;
    }
    Ok(())
}

/// The save file of `sphere 0 0`: `EXTSAVE1`; the digest of `gen x0 0` and a newline; an open gate; the length and the body of the square
/// (0, 0) with its quasi-inverse; the digest of that body; and a gate that is not open. Digests are those of another program.
const FIRST: &str =
    "4558545341564531498fadf13dde22e6898175cb947cb18f477cda6d5603c7a14c475e229eaaa943a50000000000000030020000000000000000000000010000000000000001010000000000000000000000000000000100000000000000010101f05124cf50d664fdde5f2e7f9feda263aa7d54495d5fee9f171b8e2d2508e20100";

/// The file of the square (0, 0) without a generator.
const EMPTY: &str =
    "4558545341564531498fadf13dde22e6898175cb947cb18f477cda6d5603c7a14c475e229eaaa943a500000000000000250100000000000000000000000000000000000000010000000000000000000000000000000007f5c8fd19189a074a6d62ec275652ed6add617750613f6d87b5a81e533e67ae00";

const SPHERE_0: &[&str] = &["sphere", "0", "0", "--save"];

/// Where the one record begins.
const BEGINS: &str = "ext: save file: record 0 begins at byte 40";

/// Why the file of one square is refused where the byte at this place is changed, none where it is taken up.
fn why_at(alloc: Global, place: usize, file: &[u8]) -> Result<Option<String>, Fail> {
    if file.len() != 130 {
        return Err("a file of another length".into());
    }
    Ok(match place {
        0..8 => Some("not a save file".to_string(alloc)?),
        8..40 => {
            let kept = hex::encode(alloc, &file[8..40])?;
            let ours = FIRST.get(16..80).unwrap_or("");
            Some(format!(in alloc; "of another module, kept {kept}, ours {ours}")?)
        }
        // The body would be longer than what is there.
        41..49 => Some(format!(in alloc; "short at place 40\n{BEGINS}")?),
        49..129 => {
            let kept = hex::encode(alloc, &file[97..129])?;
            let found = hex::encode(alloc, Sha256::digest(&file[49..97]))?;
            Some(format!(in alloc; "record 0 damaged, kept {kept}, found {found}\n{BEGINS}")?)
        }
        // A gate that is not open.
        _ => None,
    })
}

/// The save file of one square with each of its bytes changed in turn. Where it is refused, it stays as it is.
#[test]
fn one_byte_changed(rt: HostRuntime) -> Result<(), Fail> {
    let alloc = rt.alloc();
    for place in 0..130 {
        let mut file = hex::decode(alloc, FIRST)?;
        if let Some(byte) = file.get_mut(place) {
            *byte ^= 1;
        }
        let before = sound_disk(alloc, file.as_slice())?;
        match why_at(alloc, place, file.as_slice())? {
            Some(why) => {
                let line = format!(in alloc; "ext: save file: {why}\n")?;
                let after = run_over_disk(&rt, alloc, SPHERE_0, before, (9, "", line.as_str()))?;
                assert_eq!(rt; after.bytes(), file.as_slice());
            }
            None => {
                let ended = (0, " 0 |1\nstems 0..0\n", "");
                let _ = run_over_disk(&rt, alloc, SPHERE_0, before, ended)?;
            }
        }
    }
    Ok(())
}

/// A square without a generator breaks no rule. What is printed is not said, since it is not the canonical one; but it is not refused.
#[test]
fn a_square_that_is_not_canonical(rt: HostRuntime) -> Result<(), Fail> {
    let alloc = rt.alloc();
    let file = hex::decode(alloc, EMPTY)?;
    let cases: [&[&str]; 2] = [SPHERE_0, &["sphere", "4", "8", "--save"]];
    for words in cases {
        let before = sound_disk(alloc, file.as_slice())?;
        let devices = narrow_devices(alloc, b"", SOUND, before)?;
        let got = ran(&rt, alloc, words, devices, &OpenGate);
        assert!(rt; got.status != 9, "at {words:?}");
    }
    Ok(())
}
