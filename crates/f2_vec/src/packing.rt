//! The bytes of words, lowest first.
ghost use Rattle.std.specs.Prelude.{◌≡◌, ℕ, ◌*◌, ◌<◌, ◌≤◌, ◌↔◌, false, length, IsFalse};
ghost use Rattle.std.specs.Int.{div_ceil};
ghost use Rattle.f2_vec.specs.Inside.Packed.{unit_bit};

/// Fills `bytes` from the start of `words`, which has at least as many bytes.
pub fn write_bytes(bytes: &mut [u8], words: &[u64])
    requires { length bytes.old ≤ 8 * length words.now }
    ensures length { length bytes.new ≡ length bytes.old }
    ensures bits { (k : ℕ) → k < 8 * length bytes.old → unit_bit 8 bytes.new k ≡ unit_bit 64 words.now k }
{
    let whole = bytes.len() / 8;
    for i in 0..whole {
        bytes[8 * i..8 * i + 8].copy_from_slice(&words[i].to_le_bytes());
    }
    let rest = bytes.len() % 8;
    if rest > 0 {
        bytes[8 * whole..].copy_from_slice(&words[whole].to_le_bytes()[..rest]);
    }
}

/// Makes the words those of the bytes, as many as these take, with zeros past the last byte.
pub fn read_bytes(words: &mut [u64], bytes: &[u8])
    requires { length words.old ≡ div_ceil (length bytes.now) 8 }
    ensures length { length words.new ≡ length words.old }
    ensures bits { (k : ℕ) → unit_bit 64 words.new k ≡ unit_bit 8 bytes.now k }
{
    let (chunks, rest) = bytes.as_chunks::<8>();
    for i in 0..chunks.len() {
        words[i] = u64::from_le_bytes(chunks[i]);
    }
    if !rest.is_empty() {
        let mut last = [0; 8];
        last[..rest.len()].copy_from_slice(rest);
        words[chunks.len()] = u64::from_le_bytes(last);
    }
}

/// Whether a bit from bit `n` on is 1. There are as many bytes as `n` bits take.
pub fn has_spare_one(bytes: &[u8], n: usize) -> bool
    requires { length bytes.now ≡ div_ceil n 8 }
    ensures { IsFalse result ↔ ((k : ℕ) → n ≤ k → unit_bit 8 bytes.now k ≡ false) }
{
    n % 8 != 0 && bytes[n / 8] >> (n % 8) != 0
}
