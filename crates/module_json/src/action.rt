//! The text of one action, such as `Sq2 x0 = x1 + x2`.
ghost use Rattle.std.specs.Prelude.{◌≡◌, ◌↔◌, ◌+◌, ◌<◌, ◌≤◌, ◌∷◌, [], ℕ, List, length, IfSome, IfNone, IsTrue, MatchOption, IfOk, option_map, map, position, ◌==◌};
ghost use Rattle.std.specs.List.{list_all};
ghost use Rattle.module_spec.specs.Names.{is_name, is_letter, is_name_byte};
ghost use Rattle.module_json.specs.Actions.{is_digit, number_of, square_of, pieces, words, acting, one_name, only, is_zero_word, sum_names, with_names, Written, action_of};
ghost use Rattle.module_json.specs.Inside.Cut.{later_pieces};

use memory::Memory;
use std::alloc::Global;
use std::marker::Model;

/// The first piece of a text, and what stands behind the byte `c` that ends it, none where the text ends it.
pub(crate) fn first_piece(text: &[u8], c: u8) -> (&[u8], Option<&[u8]>)
    ensures pieces { pieces c text.now ≡ result.0.now ∷ later_pieces c (option_map (λ t. t.now) result.1) }
    ensures shorter { IfSome result.1 (λ t. length t.now < length text.now) }
{
    match place(text, c) {
        None => (text, None),
        Some(at) => (&text[..at], Some(&text[at + 1..])),
    }
}

/// The first place of a byte.
fn place(text: &[u8], c: u8) -> Option<usize>
    ensures place { result ≡ position (λ b. b == c) text.now }
    ensures bound { IfSome result (λ i. i < length text.now) }
{
    text.iter().position(|byte| *byte == c)
}

/// Whether this is a name: a letter, then up to 31 visible bytes without `+` and `=`.
pub(crate) fn names(word: &[u8]) -> bool
    ensures { result ≡ is_name word.now }
{
    match word {
        [first, rest @ ..] => { first.is_ascii_alphabetic() && rest.len() <= 31 && are_plain(rest) }
        [] => false,
    }
}

fn are_plain(bytes: &[u8]) -> bool
    ensures { result ≡ list_all is_name_byte bytes.now }
{
    bytes.iter().all(|byte| is_plain(*byte))
}

fn is_plain(byte: u8) -> bool
    ensures { result ≡ is_name_byte byte }
{
    33 <= byte && byte <= 126 && byte != b'+' && byte != b'='
}

/// The number that one to three decimal digits write.
fn number(digits: &[u8]) -> Option<u32>
    ensures { result ≡ number_of digits.now }
{
    match digits {
        [a] if is_decimal(*a) => Some(value(*a)),
        [a, b] if is_decimal(*a) && is_decimal(*b) => Some(10 * value(*a) + value(*b)),
        [a, b, c] if is_decimal(*a) && is_decimal(*b) && is_decimal(*c) => {
            Some(10 * (10 * value(*a) + value(*b)) + value(*c))
        }
        _ => None,
    }
}

fn is_decimal(byte: u8) -> bool
    ensures { result ≡ is_digit byte }
{
    b'0' <= byte && byte <= b'9'
}

fn value(digit: u8) -> u32
    requires { IsTrue (is_digit digit) }
    ensures value { result + 48 ≡ digit }
    ensures bound { result ≤ 9 }
{
    (digit - b'0') as u32
}

/// The number n of a word `Sq` n.
fn square(word: &[u8]) -> Option<u32>
    ensures { result ≡ square_of word.now }
{
    match word {
        [b'S', b'q', digits @ ..] => number(digits),
        _ => None,
    }
}

/// The first word of a text and what stands behind it, none where there are spaces alone.
fn first_word(text: &[u8]) -> Option<(&[u8], &[u8])>
    ensures { MatchOption result (words text.now ≡ []) (λ p. words text.now ≡ p.0.now ∷ words p.1.now) }
{
    let mut left = text;
    loop {
        let (word, rest) = first_piece(left, b' ');
        if !word.is_empty() {
            return Some((word, rest.unwrap_or(&[])));
        }
        left = rest?;
    }
}

/// The one word of a text.
fn only_word(text: &[u8]) -> Option<&[u8]>
    ensures { option_map (λ w. w.now) result ≡ only (words text.now) }
{
    let (word, rest) = first_word(text)?;
    if first_word(rest).is_some() {
        return None;
    }
    Some(word)
}

/// The name that stands alone in a text.
fn only_name(text: &[u8]) -> Option<&[u8]>
    ensures { option_map (λ w. w.now) result ≡ one_name (words text.now) }
{
    let word = only_word(text)?;
    if !names(word) {
        return None;
    }
    Some(word)
}

/// Whether `0` stands alone in a text.
fn is_zero(text: &[u8]) -> bool
    ensures { result ≡ is_zero_word (only (words text.now)) }
{
    match only_word(text) {
        Some([byte]) => *byte == b'0',
        _ => false,
    }
}

/// A square, and the name that it acts on.
fn square_and_name(text: &[u8]) -> Option<(u32, &[u8])>
    ensures { option_map (λ p. (p.0, p.1.now)) result ≡ acting (words text.now) }
{
    let (first, rest) = first_word(text)?;
    let name = only_name(rest)?;
    let n = square(first)?;
    Some((n, name))
}

/// The names of a sum, none where the text is no sum.
fn names_of_sum(alloc: Global, text: &[u8]) -> Result<Option<Vec<&[u8]>>, Memory>
    ensures { IfOk result (λ o. option_map (λ v. map (λ w. w.now) v.items) o ≡ sum_names text.now) }
{
    let mut names = Vec::new(alloc);
    if is_zero(text) {
        return Ok(Some(names));
    }
    let mut left = Some(text);
    while let Some(part) = left {
        let (piece, rest) = first_piece(part, b'+');
        let Some(name) = only_name(piece) else {
            return Ok(None);
        };
        names.push(name)?;
        left = rest;
    }
    Ok(Some(names))
}

/// An action as it is written, seen as its square, name and sum.
#[derive(Drop)]
pub(crate) struct ActionText<'a> {
    pub(crate) n: u32,
    pub(crate) name: &'a [u8],
    pub(crate) sum: Vec<&'a [u8]>,
}

impl<'a> Model for ActionText<'a> {
    ghost Value = { Written };

    ghost view = { λ a. record { n = a.n; name = a.name.now; sum = map (λ w. w.now) a.sum.items } };
}

/// The action that a text writes, none where it writes none.
#[tactic(auto, using(crate::proofs::Pieces::sides_more))]
pub(crate) fn action(alloc: Global, text: &[u8]) -> Result<Option<ActionText<'_>>, Memory>
    ensures { IfOk result (λ o. o ≡ action_of text.now) }
{
    let (left, Some(rest)) = first_piece(text, b'=') else {
        return Ok(None);
    };
    let (right, more) = first_piece(rest, b'=');
    if more.is_some() {
        return Ok(None);
    }
    let Some((n, name)) = square_and_name(left) else {
        return Ok(None);
    };
    let Some(sum) = names_of_sum(alloc, right)? else {
        return Ok(None);
    };
    Ok(Some(ActionText { n, name, sum }))
}
