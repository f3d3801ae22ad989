//! The numbers that words say.
ghost use Rattle.std.specs.Prelude.{◌≡◌, ◌+◌, ◌-◌, ◌*◌, ◌≤◌, ◌<◌, ◌^◌, pos, neg_ℤ, ◌≤ℤ◌, min, length, option_map, IfOk, IfSome};
ghost use Rattle.std.specs.List.{All, list_all};
ghost use Rattle.std.specs.Char.{is_ascii_digit};
ghost use Rattle.ext_words.specs.Words.{are_digits, decimal_value, number_of, signed_number_of, number_up_to, positive_up_to, shift_of, seed_of, between_commas, class_from, class_of, read_each, positive_numbers, product_of, texts_of, IsShort, IsWithinDegree};

use crate::command::{Classes, MAX_SHIFT, MAX_SQUARES, MAX_SQUARES_DEGREE};
use bidegree::Class;
use memory::Memory;
use monomial::Mono;
use std::alloc::Global;

fn are_all_digits(bytes: &[u8]) -> bool
    ensures { result ≡ list_all is_ascii_digit bytes.now }
{
    bytes.iter().all(|c| c.is_ascii_digit())
}

/// Whether bytes are decimal digits, from one to `most`.
fn are_digits(most: usize, bytes: &[u8]) -> bool
    ensures { result ≡ are_digits most bytes.now }
{
    !bytes.is_empty() && bytes.len() <= most && are_all_digits(bytes)
}

/// The most digits of a row, a degree or a number of a class.
const CLASS_DIGITS: usize = 5;

/// The number that at most five digits say.
fn decimal_value(digits: &[u8]) -> u32
    requires { length digits.now ≤ CLASS_DIGITS }
    ensures value { result ≡ decimal_value digits.now }
    ensures small { result < 2 ^ 31 }
{
    let mut value = 0;
    for c in digits {
        value = 10 * value + u32::from(c.saturating_sub(b'0'));
    }
    value
}

/// The number of at most `most` digits.
fn number_of(most: usize, digits: &[u8]) -> Option<u32>
    requires { most ≤ CLASS_DIGITS }
    ensures number { result ≡ number_of most digits.now }
    ensures within { IfSome result (λ n. n ≤ 99999) }
{
    if are_digits(most, digits) {
        Some(decimal_value(digits))
    } else {
        None
    }
}

/// The number of at most `most` digits, below 0 where a hyphen stands in front of them.
fn signed_number_of(most: usize, word: &[u8]) -> Option<i32>
    requires { most ≤ CLASS_DIGITS }
    ensures number { result ≡ signed_number_of most word.now }
    ensures within { IfSome result (λ n. (neg_ℤ (pos 99999) ≤ℤ n) × (n ≤ℤ pos 99999)) }
{
    match word {
        [b'-', digits @ ..] => Some(-(number_of(most, digits)? as i32)),
        digits => Some(number_of(most, digits)? as i32),
    }
}

/// The number of a word, at most `limit`.
pub fn number_up_to(limit: u16, word: &str) -> Option<u16>
    ensures number { result ≡ number_up_to limit word.now }
    ensures within { IfSome result (λ n. n ≤ limit) }
{
    let value = number_of(3, word.as_bytes())?;
    if value <= u32::from(limit) {
        Some(value as u16)
    } else {
        None
    }
}

/// The number of a word, from 1 to `limit`.
pub fn positive_up_to(limit: u16, word: &str) -> Option<u16>
    ensures number { result ≡ positive_up_to limit word.now }
    ensures within { IfSome result (λ n. (1 ≤ n) × (n ≤ limit)) }
{
    let value = number_up_to(limit, word)?;
    if value == 0 { None } else { Some(value) }
}

/// The number of degrees of a shift, from -`MAX_SHIFT` to `MAX_SHIFT`.
pub fn shift_of(word: &str) -> Option<i32>
    ensures number { result ≡ shift_of word.now }
    ensures within { IfSome result (λ n. (neg_ℤ (pos MAX_SHIFT) ≤ℤ n) × (n ≤ℤ pos MAX_SHIFT)) }
{
    let degrees = signed_number_of(3, word.as_bytes())?;
    let most = i32::from(MAX_SHIFT);
    if -most <= degrees && degrees <= most {
        Some(degrees)
    } else {
        None
    }
}

/// The least number of more than 32 bits.
const TOO_LONG: u64 = 4294967296;

/// The number that digits say, where it has at most 32 bits, and `TOO_LONG` where it has more.
fn long_value(digits: &[u8]) -> u64
    ensures { result ≡ min (decimal_value digits.now) TOO_LONG }
{
    let mut value = 0;
    for c in digits {
        value = longer(value, *c);
    }
    value
}

/// The number with one digit more behind it.
fn longer(value: u64, c: u8) -> u64
    requires { value ≤ TOO_LONG }
    ensures { result ≡ min (10 * value + (c - 48)) TOO_LONG }
{
    let more = 10 * value + u64::from(c.saturating_sub(b'0'));
    more.min(TOO_LONG)
}

/// The number of 32 bits that a sample is drawn from.
pub fn seed_of(word: &str) -> Option<u32>
    ensures { result ≡ seed_of word.now }
{
    if !are_digits(10, word.as_bytes()) {
        return None;
    }
    let value = long_value(word.as_bytes());
    if value < TOO_LONG {
        Some(value as u32)
    } else {
        None
    }
}

/// The texts between the commas of a word.
fn between_commas<'a>(alloc: Global, word: &'a str) -> Result<Vec<&'a str>, Memory>
    ensures { IfOk result (λ texts. texts_of texts.items ≡ between_commas word.now) }
{
    Ok(word.split(',').collect(alloc)?)
}

/// The class of these texts: its row, its degree and its number.
fn class_from(texts: &[&str]) -> Option<Class>
    ensures class { result ≡ class_from (texts_of texts.now) }
    ensures within { IfSome result IsShort }
{
    let [s, t, i] = texts else {
        return None;
    };
    Some(Class {
        s: number_of(CLASS_DIGITS, s.as_bytes())?,
        t: signed_number_of(CLASS_DIGITS, t.as_bytes())?,
        i: number_of(CLASS_DIGITS, i.as_bytes())? as usize,
    })
}

/// The class that a word says: its row, its degree and its number, joined by commas. A row or a number has no hyphen in
/// front of it, not even before 0, and a degree has one at most: `1,-0,0` is `1,0,0`, and `-1,1,0` is no class.
///
/// # Errors
/// `Memory` if allocation fails.
pub fn class_of(alloc: Global, word: &str) -> Result<Option<Class>, Memory>
    ensures class { IfOk result (λ class. class ≡ class_of word.now) }
    ensures within { IfOk result (λ class. IfSome class IsShort) }
{
    let texts = between_commas(alloc, word)?;
    Ok(class_from(texts.as_slice()))
}

/// The classes that the texts say, none where a text is no class.
///
/// # Errors
/// `Memory` if allocation fails.
pub fn classes_of(alloc: Global, texts: &[&str]) -> Result<Option<Classes>, Memory>
    ensures classes { IfOk result (λ classes. classes ≡ read_each class_of (texts_of texts.now)) }
    ensures within { IfOk result (λ classes. IfSome classes (λ list. All IsShort list)) }
{
    let mut classes = Vec::new(alloc);
    for text in texts {
        let Some(class) = class_of(alloc, text)? else {
            return Ok(None);
        };
        classes.push(class)?;
    }
    Ok(Some(Classes::of(classes)))
}

/// The numbers of the texts, each from 1 to `limit`, none where a text is no such number.
fn positive_numbers(alloc: Global, limit: u16, texts: &[&str]) -> Result<Option<Vec<u16>>, Memory>
    ensures numbers { IfOk result
        (λ numbers. option_map (λ v. v.items) numbers ≡ positive_numbers limit (texts_of texts.now)) }
    ensures positive { IfOk result (λ numbers. IfSome numbers (λ v. All (λ n. 1 ≤ n) v.items)) }
{
    let mut numbers = Vec::new(alloc);
    for text in texts {
        let Some(number) = positive_up_to(limit, text) else {
            return Ok(None);
        };
        numbers.push(number)?;
    }
    Ok(Some(numbers))
}

/// The product of squares that a word says: their numbers, joined by commas. None where there are too many, or the degree is too
/// great, or one is no number above 0.
///
/// # Errors
/// `Memory` if allocation fails.
pub fn product_of(alloc: Global, word: &str) -> Result<Option<Mono>, Memory>
    ensures product { IfOk result (λ product. product ≡ product_of word.now) }
    ensures within { IfOk result (λ product. IfSome product IsWithinDegree) }
{
    let texts = between_commas(alloc, word)?;
    let Some(numbers) = positive_numbers(alloc, MAX_SQUARES_DEGREE, texts.as_slice())? else {
        return Ok(None);
    };
    let is_short = numbers.len() <= MAX_SQUARES;
    let product = Mono::of(numbers);
    match product.degree() {
        Some(degree) if is_short && degree <= MAX_SQUARES_DEGREE => Ok(Some(product)),
        _ => Ok(None),
    }
}
