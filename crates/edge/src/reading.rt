//! A source read to its end.
ghost use Rattle.std.specs.Prelude.{◌≡◌, ◌+◌, ◌-◌, ◌<◌, ◌≤◌, ◌++◌, [], Some, Err, length, take, vec_len, IfSome, IfOk, OnOk, OnErr};
ghost use Rattle.edge.specs.Faults.{HasRisen};
ghost use Rattle.edge.specs.Source.{without_first, HasGivenUpTo};
ghost use Rattle.edge.specs.declared.reading.ReadFault as ReadFault;
ghost use Rattle.edge.specs.declared.reading.ReadFault.TheVariants.{Failed, Memory};

use crate::faults::Failed;
use crate::source::Source;
use std::alloc::{AllocError, Global};
use thiserror::Error;

/// Why a source was not read through.
#[derive(Clone, Copy, Debug, PartialEq, Eq, Error)]
pub enum ReadFault {
    /// A read failed.
    #[error("a read failed")]
    Failed,
    /// There was no memory for what was read.
    #[error("out of memory")]
    Memory,
}

impl From<Failed> for ReadFault {
    ghost from_gives = { λ _ fault. fault ≡ Failed };

    fn from(_: Failed) -> Self {
        ReadFault::Failed
    }
}

impl From<AllocError> for ReadFault {
    ghost from_gives = { λ _ fault. fault ≡ Memory };

    fn from(_: AllocError) -> Self {
        ReadFault::Memory
    }
}

/// How many bytes are asked for at a time.
const PIECE: usize = 4096;

/// Reads one piece to the end of `bytes`, at most up to `limit` bytes in all, and answers how many came: 0 only at the
/// source's end.
fn read_piece<S: Source>(
    source: &mut S,
    bytes: &mut Vec<u8>,
    limit: usize,
) -> Result<usize, ReadFault>
    requires { vec_len bytes.old < limit }
    ensures len { IfOk result (λ n. vec_len bytes.new ≡ vec_len bytes.old + n) }
    ensures within { OnOk result (vec_len bytes.new ≤ limit) }
    ensures given { IfOk result (λ n. IfSome (S.left source.old) (λ l. bytes.new.items ≡ bytes.old.items ++ take n l)) }
    ensures rest { IfOk result (λ n. S.left source.new ≡ without_first (S.left source.old) n) }
    ensures end { result ≡ Ok 0 → IfSome (S.left source.new) (λ l. l ≡ []) }
    ensures stopped { OnErr result (HasGivenUpTo (limit - vec_len bytes.old) (S.left source.old) (S.left source.new)) }
    ensures no_fault { OnOk result (S.faults source.new ≡ S.faults source.old) }
    ensures memory { result ≡ Err ReadFault.Memory → S.faults source.new ≡ S.faults source.old }
    ensures never_fall { S.faults source.old ≤ S.faults source.new }
    ensures failed { result ≡ Err ReadFault.Failed → HasRisen (S.faults source.old) (S.faults source.new) }
{
    let mut piece = [0; PIECE];
    let room = PIECE.min(limit - bytes.len());
    let count = source.read(&mut piece[..room])?;
    bytes.extend_from_slice(&piece[..count])?;
    Ok(count)
}

/// Reads a source to its end, or until `limit` bytes are read.
///
/// # Errors
/// `Failed` where a read failed, and `Memory` where there is no memory for what was read. After either some first bytes,
/// at most `limit`, are gone from the source.
pub fn read_through<S: Source>(
    alloc: Global,
    source: &mut S,
    limit: usize,
) -> Result<Vec<u8>, ReadFault>
    ensures within { IfOk result (λ bytes. vec_len bytes ≤ limit) }
    ensures given { IfOk result (λ bytes. IfSome (S.left source.old) (λ l. bytes.items ≡ take limit l)) }
    ensures rest { IfOk result (λ bytes. S.left source.new ≡ without_first (S.left source.old) (vec_len bytes)) }
    ensures end { IfOk result (λ bytes. vec_len bytes < limit → IfSome (S.left source.new) (λ l. l ≡ [])) }
    ensures stopped { OnErr result (HasGivenUpTo limit (S.left source.old) (S.left source.new)) }
    ensures no_fault { OnOk result (S.faults source.new ≡ S.faults source.old) }
    ensures memory { result ≡ Err ReadFault.Memory → S.faults source.new ≡ S.faults source.old }
    ensures never_fall { S.faults source.old ≤ S.faults source.new }
    ensures failed { result ≡ Err ReadFault.Failed → HasRisen (S.faults source.old) (S.faults source.new) }
{
    let mut bytes = Vec::new(alloc);
    while bytes.len() < limit {
        let count = read_piece(source, &mut bytes, limit)?;
        if count == 0 {
            break;
        }
    }
    Ok(bytes)
}
