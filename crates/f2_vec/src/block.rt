//! Blocks of 64 by 64 bits, a word to a row, and their rows and columns exchanged.
ghost use Rattle.std.specs.Prelude.{◌≡◌, ℕ, ◌+◌, ◌*◌, ◌<◌, slice_index_or};
ghost use Rattle.std.specs.Int.{bit_at};
ghost use Rattle.f2_vec.specs.Inside.Blocks.{with_digit, IsHalfMask, AreExchangedAt};

/// The block whose bit c of word r is bit r of word c. The six binary digits of the places of rows and columns are exchanged
/// one after the other, for all words at once (after Warren, Hacker's Delight, 7-3).
pub fn transposed_block(block: &[u64; 64]) -> [u64; 64]
    ensures { (r c : ℕ) → r < 64 → c < 64 →
        bit_at (slice_index_or result r 0) c ≡ bit_at (slice_index_or block.now c 0) r }
{
    let halves = exchanged(block, 5, 0x0000_0000_ffff_ffff);
    let quarters = exchanged(&halves, 4, 0x0000_ffff_0000_ffff);
    let bytes = exchanged(&quarters, 3, 0x00ff_00ff_00ff_00ff);
    let nibbles = exchanged(&bytes, 2, 0x0f0f_0f0f_0f0f_0f0f);
    let pairs = exchanged(&nibbles, 1, 0x3333_3333_3333_3333);
    exchanged(&pairs, 0, 0x5555_5555_5555_5555)
}

/// The block with the highest binary digit of the places of rows and digit `s` of those of columns exchanged. The digit that is new
/// in the rows' places comes to be their lowest, below the other five, so that each call takes the next one from the same two
/// halves. The mask has the columns where digit `s` is 0.
fn exchanged(block: &[u64; 64], s: usize, mask: u64) -> [u64; 64]
    requires digit { s < 6 }
    requires mask { IsHalfMask s mask }
    ensures { AreExchangedAt s block.now result }
{
    let mut words = [0; 64];
    for k in 0..32 {
        words[2 * k] = word_of_zeros(block, k, s, mask);
        words[2 * k + 1] = word_of_ones(block, k, s, mask);
    }
    words
}

/// The columns of rows `k` and `k + 32` whose digit `s` is 0.
fn word_of_zeros(block: &[u64; 64], k: usize, s: usize, mask: u64) -> u64
    requires row { k < 32 }
    requires digit { s < 6 }
    requires mask { IsHalfMask s mask }
    ensures { (c : ℕ) → c < 64 →
        bit_at result c ≡ bit_at (slice_index_or block.now (k + bit_at c s * 32) 0) (with_digit s c 0) }
{
    let apart: usize = 1 << s;
    (block[k] & mask) | ((block[k + 32] & mask) << apart)
}

/// The columns of rows `k` and `k + 32` whose digit `s` is 1.
fn word_of_ones(block: &[u64; 64], k: usize, s: usize, mask: u64) -> u64
    requires row { k < 32 }
    requires digit { s < 6 }
    requires mask { IsHalfMask s mask }
    ensures { (c : ℕ) → c < 64 →
        bit_at result c ≡ bit_at (slice_index_or block.now (k + bit_at c s * 32) 0) (with_digit s c 1) }
{
    let apart: usize = 1 << s;
    ((block[k] >> apart) & mask) | (block[k + 32] & !mask)
}
