//! The vector type: its coordinates are kept packed in words.
ghost use Rattle.std.specs.Prelude.{◌≡◌, ◌≢◌, ℕ, ◌+◌, ◌*◌, ◌/◌, ◌<◌, ◌≤◌, ◌↔◌, ◌==◌, [], ◌∷◌, ◌++◌, length, take, drop, replicate, IsTrue, IsNone, IfOk, IfSome, MatchResult, if◌then◌else◌, Bool, List, OnOk, OnErr, EachIndex, slice_index, slice_set};
ghost use Rattle.std.specs.Int.{bit_at, div_ceil};
ghost use Rattle.std.specs.List.{range_with_len, items_where_true};
ghost use Rattle.f2_vec.specs.Vectors.{sum_of, zeros, placed, bit, IsZero, IsZeroFrom, IsFirstOne, IsNextOne, IsWithinWords};
ghost use Rattle.f2_vec.specs.Spans.{unit_vector};
ghost use Rattle.f2_vec.specs.Bytes.{packed, ArePacked};
ghost use Rattle.f2_vec.specs.Inside.Packed.{unit_bits, HasRoom};
ghost use Rattle.f2_vec.specs.declared.fault.BitsFault.TheVariants.{Length, SpareBits};

use crate::fault::BitsFault;
use crate::packing::{has_spare_one, read_bytes, write_bytes};
use crate::words::{
    low_bits, sum_words, word_from, word_or_zero, word_without, xor_four_words, xor_moved,
    xor_words,
};
use memory::Memory;
use std::alloc::{AllocError, Global};
use std::marker::Model;

/// A vector over the field with two elements, seen as the list of its coordinates. They stand 64 to a word, lowest
/// bit first, and the bits of the last word that are no coordinate are 0.
#[derive(Debug, Drop)]
pub struct BitVec {
    len: usize,
    words: Vec<u64>,
}

impl Model for BitVec {
    ghost use Rattle.std.specs.Prelude.{Bool, List};
    ghost use Rattle.f2_vec.specs.Inside.Packed.{unit_bits, HasRoom};

    ghost Value = { List Bool };

    ghost view = { λ v. unit_bits 64 v.len v.words.items };

    ghost invariant = { λ v. HasRoom 64 v.len v.words.items };
}

impl Clone for BitVec {
    ghost is_clone = { λ v copy. copy ≡ v };

    fn clone(&self) -> Result<Self, AllocError> {
        Ok(BitVec {
            len: self.len,
            words: self.words.clone()?,
        })
    }
}

impl BitVec {
    /// The zero vector of length `n`.
    ///
    /// # Errors
    /// `Memory` if allocation fails.
    pub fn zero(alloc: Global, n: usize) -> Result<Self, Memory>
        ensures { IfOk result (λ v. v ≡ zeros n) }
    {
        Ok(BitVec {
            len: n,
            words: vec![in alloc; 0; n.div_ceil(64)]?,
        })
    }

    /// `count` zero vectors of length `n`.
    ///
    /// # Errors
    /// `Memory` if allocation fails.
    pub fn zero_rows(alloc: Global, count: usize, n: usize) -> Result<Vec<Self>, Memory>
        ensures { IfOk result (λ rows. rows.items ≡ replicate count (zeros n)) }
    {
        let mut rows = Vec::with_capacity(alloc, count)?;
        for _ in 0..count {
            rows.push(BitVec::zero(alloc, n)?)?;
        }
        Ok(rows)
    }

    /// The unit vector of length `n` with its 1 at place `i`.
    ///
    /// # Errors
    /// `Memory` if allocation fails.
    pub fn unit(alloc: Global, n: usize, i: usize) -> Result<Self, Memory>
        requires { i < n }
        ensures { IfOk result (λ v. v ≡ unit_vector n i) }
    {
        let mut unit = BitVec::zero(alloc, n)?;
        unit.set(i, true);
        Ok(unit)
    }

    /// How many coordinates there are.
    pub fn len(&self) -> usize
        ensures { result ≡ length self.now }
    {
        self.len
    }

    /// Whether there is no coordinate.
    pub fn is_empty(&self) -> bool
        ensures { IsTrue result ↔ (self.now ≡ []) }
    {
        self.len == 0
    }

    /// The coordinate at place `i`.
    pub fn get(&self, i: usize) -> bool
        requires { i < length self.now }
        ensures { result ≡ bit self.now i }
    {
        (self.words[i / 64] >> (i % 64)) & 1 == 1
    }

    /// The coordinate at place `i` as a number, 0 or 1, without a branch.
    pub fn get_number(&self, i: usize) -> usize
        requires { i < length self.now }
        ensures { result ≡ (if bit self.now i then 1 else 0) }
    {
        ((self.words[i / 64] >> (i % 64)) & 1) as usize
    }

    /// Makes `b` the coordinate at place `i`.
    pub fn set(&mut self, i: usize, b: bool)
        requires { i < length self.old }
        ensures { self.new ≡ slice_set self.old i b }
    {
        let mask = 1u64 << (i % 64);
        if b {
            self.words[i / 64] |= mask;
        } else {
            self.words[i / 64] &= !mask;
        }
    }

    /// Turns the coordinate at place `i` over, without a branch.
    pub fn flip(&mut self, i: usize)
        requires { i < length self.old }
        ensures { self.new ≡ sum_of self.old (unit_vector (length self.old) i) }
    {
        self.words[i / 64] ^= 1 << (i % 64);
    }

    /// The 64 coordinates from place 64 `i` on as a word, lowest bit first, with zeros past the end.
    pub fn word(&self, i: usize) -> u64
        ensures { (b : ℕ) → b < 64 → (bit_at result b == 1) ≡ bit self.now (64 * i + b) }
    {
        word_or_zero(self.words.as_slice(), i)
    }

    /// Makes the bits of the word, lowest first, the coordinates from place 64 `i` on, as far as there are such.
    pub fn set_word(&mut self, i: usize, word: u64)
        requires { 64 * i < length self.old }
        ensures length { length self.new ≡ length self.old }
        ensures inside { (b : ℕ) → b < 64 → 64 * i + b < length self.old →
            bit self.new (64 * i + b) ≡ (bit_at word b == 1) }
        ensures others { (k : ℕ) → k / 64 ≢ i → bit self.new k ≡ bit self.old k }
    {
        let len = self.len;
        self.words[i] = low_bits(word, len - 64 * i);
    }

    /// Adds `other`, of the same length, to this vector.
    pub fn xor_with(&mut self, other: &BitVec)
        requires { length self.old ≡ length other.now }
        ensures { self.new ≡ sum_of self.old other.now }
    {
        xor_words(self.words.as_mut_slice(), other.words.as_slice());
    }

    /// Adds the four vectors, of the same length, to this vector in one pass over its words from word `from` up to word `to`,
    /// of 64 coordinates each. Outside of these words the four have to be zero.
    pub fn xor_with_four(
        &mut self,
        from: usize,
        to: usize,
        a: &BitVec,
        b: &BitVec,
        c: &BitVec,
        d: &BitVec,
    )
        requires first { length a.now ≡ length self.old }
        requires second { length b.now ≡ length self.old }
        requires third { length c.now ≡ length self.old }
        requires fourth { length d.now ≡ length self.old }
        requires first_within { IsWithinWords from to a.now }
        requires second_within { IsWithinWords from to b.now }
        requires third_within { IsWithinWords from to c.now }
        requires fourth_within { IsWithinWords from to d.now }
        ensures { self.new ≡ sum_of (sum_of (sum_of (sum_of self.old a.now) b.now) c.now) d.now }
    {
        let end = to.min(self.words.len());
        let start = from.min(end);
        xor_four_words(
            self.words.as_mut_slice(),
            start,
            end,
            a.words.as_slice(),
            b.words.as_slice(),
            c.words.as_slice(),
            d.words.as_slice(),
        );
    }

    /// Makes this vector the sum of `a` and `b`, all of one length.
    pub fn set_sum(&mut self, a: &BitVec, b: &BitVec)
        requires left { length a.now ≡ length self.old }
        requires right { length b.now ≡ length self.old }
        ensures { self.new ≡ sum_of a.now b.now }
    {
        sum_words(
            self.words.as_mut_slice(),
            a.words.as_slice(),
            b.words.as_slice(),
        );
    }

    /// Adds `other`, moved up to place `at`, to this vector. It has to end within this vector.
    pub fn xor_at(&mut self, at: usize, other: &BitVec)
        requires { at + length other.now ≤ length self.old }
        ensures { self.new ≡ sum_of self.old (placed (length self.old) at other.now) }
    {
        xor_moved(self.words.as_mut_slice(), at, other.words.as_slice());
    }

    /// The `len` coordinates from place `from` on.
    ///
    /// # Errors
    /// `Memory` if allocation fails.
    pub fn part(&self, alloc: Global, from: usize, len: usize) -> Result<Self, Memory>
        requires { from + len ≤ length self.now }
        ensures { IfOk result (λ part. part ≡ take len (drop from self.now)) }
    {
        // A length fits `usize`, so each place of the part does.
        prove!(from <= self.len());
        let all = self.words.as_slice();
        let mut words = vec![in alloc; 0; len.div_ceil(64)]?;
        for i in 0..words.len() {
            words[i] = low_bits(word_from(all, from + 64 * i), len - 64 * i);
        }
        Ok(BitVec { len, words })
    }

    /// The first place that holds a 1.
    pub fn first_one(&self) -> Option<usize>
        ensures none { IsNone result ↔ IsZero self.now }
        ensures first { IfSome result (λ p. IsFirstOne self.now p) }
        ensures within { IfSome result (λ p. p < length self.now) }
    {
        self.next_one(0)
    }

    /// The first place at or after `from` that holds a 1. `from` may be past the end: then there is none.
    pub fn next_one(&self, from: usize) -> Option<usize>
        ensures none { IsNone result ↔ IsZeroFrom self.now from }
        ensures next { IfSome result (λ p. IsNextOne self.now from p) }
        ensures within { IfSome result (λ p. p < length self.now) }
    {
        // The length fits `usize`, so the place of a 1 does.
        let _len = self.len;
        let words = self.words.as_slice();
        for i in from / 64..words.len() {
            let word = word_without(words, i, from);
            if word != 0 {
                return Some(64 * i + word.trailing_zeros() as usize);
            }
        }
        None
    }

    /// How many words, of 64 coordinates each, there are up to the last one that is not zero.
    pub fn words_up_to_last(&self) -> usize
        ensures zero { IsZeroFrom self.now (64 * result) }
        ensures least { (n : ℕ) → IsZeroFrom self.now (64 * n) → result ≤ n }
    {
        let mut end = self.words.len();
        while end > 0 && self.word(end - 1) == 0 {
            end -= 1;
        }
        end
    }

    /// Whether each coordinate is 0.
    pub fn is_zero(&self) -> bool
        ensures { IsTrue result ↔ IsZero self.now }
    {
        self.first_one().is_none()
    }

    /// The places that hold a 1, in rising order.
    ///
    /// # Errors
    /// `Memory` if allocation fails.
    pub fn ones(&self, alloc: Global) -> Result<Vec<usize>, Memory>
        ensures places { IfOk result
            (λ ones. ones.items ≡ items_where_true self.now (range_with_len 0 (length self.now))) }
        ensures within { IfOk result (λ ones. EachIndex ones.items (λ k. slice_index ones.items k < length self.now)) }
    {
        let mut ones = Vec::new(alloc);
        let mut from = 0;
        while let Some(place) = self.next_one(from) {
            ones.push(place)?;
            // A length fits `usize`, so what follows a place of the vector does.
            prove!(place < self.len());
            from = place + 1;
        }
        Ok(ones)
    }

    /// Puts one more coordinate at the end.
    ///
    /// # Errors
    /// `Memory` if allocation fails.
    pub fn push(&mut self, b: bool) -> Result<(), Memory>
        ensures ok { OnOk result (self.new ≡ self.old ++ b ∷ []) }
        ensures err { OnErr result (self.new ≡ self.old) }
    {
        let len = self.len;
        let Some(longer) = len.checked_add(1) else {
            // No memory holds a vector of that length.
            return Err(Memory);
        };
        if len % 64 == 0 {
            self.words.push(0)?;
        }
        self.len = longer;
        self.set(len, b);
        Ok(())
    }

    /// Puts the coordinates of `other` at the end, in order.
    ///
    /// # Errors
    /// `Memory` if allocation fails.
    pub fn append(&mut self, other: &BitVec) -> Result<(), Memory>
        ensures ok { OnOk result (self.new ≡ self.old ++ other.now) }
        ensures err { OnErr result (self.new ≡ self.old) }
    {
        let at = self.len;
        let Some(longer) = at.checked_add(other.len) else {
            // No memory holds a vector of that length.
            return Err(Memory);
        };
        self.words.resize(longer.div_ceil(64), 0)?;
        self.len = longer;
        self.xor_at(at, other);
        Ok(())
    }

    /// The vector of length `n` with these bytes, eight coordinates to a byte, lowest bit first. There have to be as many bytes as
    /// `n` coordinates take, and the bits of the last byte that are no coordinate have to be 0.
    ///
    /// # Errors
    /// `Length` where there are more or fewer bytes, `SpareBits` where one of the last bits is 1, and `Memory` if allocation
    /// fails. `Length` comes first: where the number of bytes is wrong the bits do not matter.
    pub fn from_bytes(alloc: Global, n: usize, bytes: &[u8]) -> Result<Self, BitsFault>
        ensures len { IfOk result (λ v. length v ≡ n) }
        ensures bytes { IfOk result (λ v. packed v ≡ bytes.now) }
        ensures back { (v : List Bool) → length v ≡ n → packed v ≡ bytes.now →
            MatchResult result (λ w. w ≡ v) (λ e. e ≡ BitsFault.Memory) }
        ensures wrong_length { (want given : ℕ) →
            (result ≡ Err (Length want given)) ↔ ((want ≡ div_ceil n 8) × (given ≡ length bytes.now) × (given ≢ want)) }
        ensures spare_bits { (result ≡ Err SpareBits)
            ↔ ((length bytes.now ≡ div_ceil n 8) × (ArePacked n bytes.now → ⊥)) }
    {
        let want = n.div_ceil(8);
        if bytes.len() != want {
            return Err(BitsFault::Length {
                want,
                given: bytes.len(),
            });
        }
        if has_spare_one(bytes, n) {
            return Err(BitsFault::SpareBits);
        }
        let mut vector = BitVec::zero(alloc, n)?;
        read_bytes(vector.words.as_mut_slice(), bytes);
        Ok(vector)
    }

    /// The bytes of the vector, eight coordinates to a byte, lowest bit first. The bits of the last byte that are no coordinate are 0.
    ///
    /// # Errors
    /// `Memory` if allocation fails.
    pub fn to_bytes(&self, alloc: Global) -> Result<Vec<u8>, Memory>
        ensures { IfOk result (λ bytes. bytes.items ≡ packed self.now) }
    {
        let mut bytes = Vec::with_capacity(alloc, self.len.div_ceil(8))?;
        self.append_bytes(&mut bytes)?;
        Ok(bytes)
    }

    /// Puts the bytes of the vector at the end of `bytes`.
    ///
    /// # Errors
    /// `Memory` if allocation fails.
    pub fn append_bytes(&self, bytes: &mut Vec<u8>) -> Result<(), Memory>
        ensures ok { OnOk result (bytes.new.items ≡ bytes.old.items ++ packed self.now) }
        ensures err { OnErr result (bytes.new.items ≡ bytes.old.items) }
    {
        let at = bytes.len();
        let Some(end) = at.checked_add(self.len.div_ceil(8)) else {
            // No memory holds that many bytes.
            return Err(Memory);
        };
        bytes.resize(end, 0)?;
        write_bytes(&mut bytes[at..], self.words.as_slice());
        Ok(())
    }

    /// A vector of the same coordinates.
    ///
    /// # Errors
    /// `Memory` if allocation fails.
    pub fn try_copy(&self, alloc: Global) -> Result<Self, Memory>
        ensures { IfOk result (λ v. v ≡ self.now) }
    {
        Ok(BitVec {
            len: self.len,
            words: Vec::from_slice(alloc, self.words.as_slice())?,
        })
    }
}
