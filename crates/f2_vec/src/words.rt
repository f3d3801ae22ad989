//! Words of 64 bits, lowest bit first: sums, bits moved up or down, the lowest bits.
ghost use Rattle.std.specs.Prelude.{◌≡◌, ℕ, ◌+◌, ◌*◌, ◌/◌, ◌<◌, ◌≤◌, ◌==◌, length, slice_index_or, bit_xor};
ghost use Rattle.std.specs.Int.{bit_at};
ghost use Rattle.f2_vec.specs.Vectors.{plus};
ghost use Rattle.f2_vec.specs.Inside.Packed.{unit_bit, moved_bit};

use std::simd::prelude::*;

/// Adds the words of `other`, place by place: whole lanes first, then the rest.
pub fn xor_words(words: &mut [u64], other: &[u64])
    requires { length words.old ≡ length other.now }
    ensures length { length words.new ≡ length words.old }
    ensures words { (k : ℕ) →
        slice_index_or words.new k 0 ≡ bit_xor (slice_index_or words.old k 0) (slice_index_or other.now k 0) }
{
    let mut i = 0;
    while words.len() - i >= 4 {
        let sum = u64x4::from_slice(&words[i..]) ^ u64x4::from_slice(&other[i..]);
        sum.copy_to_slice(&mut words[i..]);
        i += 4;
    }
    for k in i..words.len() {
        words[k] ^= other[k];
    }
}

/// Adds the words of the four slices from place `from` up to place `to`, place by place.
pub fn xor_four_words(
    words: &mut [u64],
    from: usize,
    to: usize,
    a: &[u64],
    b: &[u64],
    c: &[u64],
    d: &[u64],
)
    requires start { from ≤ to }
    requires end { to ≤ length words.old }
    requires first { length a.now ≡ length words.old }
    requires second { length b.now ≡ length words.old }
    requires third { length c.now ≡ length words.old }
    requires fourth { length d.now ≡ length words.old }
    ensures length { length words.new ≡ length words.old }
    ensures sums { (k : ℕ) → from ≤ k → k < to
        → slice_index_or words.new k 0
        ≡ bit_xor
        (slice_index_or words.old k 0)
        (bit_xor
        (bit_xor (bit_xor (slice_index_or a.now k 0) (slice_index_or b.now k 0)) (slice_index_or c.now k 0))
        (slice_index_or d.now k 0)) }
    ensures before { (k : ℕ) → k < from → slice_index_or words.new k 0 ≡ slice_index_or words.old k 0 }
    ensures behind { (k : ℕ) → to ≤ k → slice_index_or words.new k 0 ≡ slice_index_or words.old k 0 }
{
    for k in from..to {
        words[k] ^= a[k] ^ b[k] ^ c[k] ^ d[k];
    }
}

/// Makes the words the sums of those of `a` and `b`.
pub fn sum_words(words: &mut [u64], a: &[u64], b: &[u64])
    requires left { length a.now ≡ length words.old }
    requires right { length b.now ≡ length words.old }
    ensures length { length words.new ≡ length words.old }
    ensures words { (k : ℕ) →
        slice_index_or words.new k 0 ≡ bit_xor (slice_index_or a.now k 0) (slice_index_or b.now k 0) }
{
    for k in 0..words.len() {
        words[k] = a[k] ^ b[k];
    }
}

/// Adds the words of `other`, moved up by `shift` bits. Bits moved past the end are left out.
pub fn xor_moved(words: &mut [u64], shift: usize, other: &[u64])
    ensures length { length words.new ≡ length words.old }
    ensures bits { (k : ℕ) → k < 64 * length words.old →
        unit_bit 64 words.new k ≡ plus (unit_bit 64 words.old k) (moved_bit shift other.now k) }
{
    let whole = shift / 64;
    for i in whole..words.len() {
        words[i] ^= moved_word(other, shift % 64, i - whole);
    }
}

/// The word at place `at` of the words moved up by `shift` bits.
fn moved_word(words: &[u64], shift: usize, at: usize) -> u64
    requires { shift < 64 }
    ensures { (b : ℕ) → b < 64 → (bit_at result b == 1) ≡ moved_bit shift words.now (64 * at + b) }
{
    let high = word_or_zero(words, at) << shift;
    if shift == 0 || at == 0 {
        return high;
    }
    high | (word_or_zero(words, at - 1) >> (64 - shift))
}

/// The 64 bits from bit `from` on, and 0 for those past the end.
pub fn word_from(words: &[u64], from: usize) -> u64
    ensures { (b : ℕ) → b < 64 → (bit_at result b == 1) ≡ unit_bit 64 words.now (from + b) }
{
    let whole = from / 64;
    let shift = from % 64;
    let low = word_or_zero(words, whole) >> shift;
    if shift == 0 {
        return low;
    }
    low | (word_or_zero(words, whole + 1) << (64 - shift))
}

/// The word at place `at`, and 0 past the end.
pub fn word_or_zero(words: &[u64], at: usize) -> u64
    ensures { result ≡ slice_index_or words.now at 0 }
{
    if at < words.len() { words[at] } else { 0 }
}

/// The lowest `count` bits of the word, and 0 for the others.
pub fn low_bits(word: u64, count: usize) -> u64
    ensures within { (b : ℕ) → b < 64 → b < count → bit_at result b ≡ bit_at word b }
    ensures past { (b : ℕ) → b < 64 → count ≤ b → bit_at result b ≡ 0 }
{
    if count < 64 {
        word & ((1 << count) - 1)
    } else {
        word
    }
}

/// The word at place `at`, without those of its bits that stand before bit `from` of all the words.
pub fn word_without(words: &[u64], at: usize, from: usize) -> u64
    requires within { at < length words.now }
    requires reached { from / 64 ≤ at }
    ensures before { (b : ℕ) → b < 64 → 64 * at + b < from → bit_at result b ≡ 0 }
    ensures others { (b : ℕ) → b < 64 → from ≤ 64 * at + b →
        (bit_at result b == 1) ≡ unit_bit 64 words.now (64 * at + b) }
{
    let word = words[at];
    if at == from / 64 {
        return (word >> (from % 64)) << (from % 64);
    }
    word
}
