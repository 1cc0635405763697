// Tokens of a specification's lines.
ghost use Rattle.std.specs.Prelude.{◌≡◌, ◌↔◌, ◌+◌, ◌^◌, ◌<◌, ◌≤◌, ◌∷◌, length, true, false, IsTrue, IfOk, MatchOption, IfSome, slice_get, slice_index};
ghost use Rattle.std.specs.List.{prefix_len, list_all};
ghost use Rattle.std.specs.Str.Parse.{digits_value};
ghost use Rattle.spec_text.specs.Bytes.{is_letter, is_digit, is_word_byte, is_line_byte};
ghost use Rattle.spec_text.specs.Lexemes.{Begins};
ghost use Rattle.spec_text.specs.Escapes.{is_hex, is_named};
ghost use Rattle.spec_text.specs.Reading.{most, comment_fault};
ghost use Rattle.spec_text.specs.Steps.{HasNo2, IsElse, HasNoCharacter, IsCharacter, IsFirst, IsInside, IsInsideOf, IsRead, begins_hex, pair_at};
ghost use Rattle.spec_text.specs.declared.token.SpecSort.TheVariants.{Number as number_sort, Sign as sign_sort};

use crate::bytes::{
    is_blank, is_digit, is_letter, is_line_byte, is_sign_byte, is_sign_pair, is_text_byte,
    is_word_byte,
};
use crate::class::{is_hex, set_at};
use ck_base::{Kind, NoMemory};
use std::alloc::Global;

/// The sort of a token.
#[derive(Clone, Copy)]
pub enum SpecSort {
    /// A letter or `_`, then letters, digits, `_`.
    Word,
    /// Digits.
    Number,
    /// A string between quotes.
    Text,
    /// A class of bytes between brackets.
    Class,
    /// One or two bytes that stand for themselves.
    Sign,
}

/// A token, by the places of its first byte and of the byte after it, counted from 0.
#[derive(Clone, Copy)]
pub struct SpecToken {
    pub sort: SpecSort,
    pub from: u32,
    pub to: u32,
}

/// The tokens of a line up to its first fault, and the fault's kind. The line's first byte stands at
/// the place `at`.
pub fn tokens_of(
    alloc: Global,
    line: &[u8],
    at: u32,
) -> Result<(Vec<SpecToken>, Option<Kind>), NoMemory>
    requires { at + length line.now < 2 ^ 32 }
    ensures { IfOk result (λ found. IsRead at line.now found.0.items found.1) }
{
    let mut tokens = Vec::new(alloc);
    let mut rest = line;
    let mut here = at;
    while let Some((byte, after)) = rest.split_first() {
        if is_blank(*byte) {
            rest = after;
            here += 1;
            continue;
        }
        if *byte == b'#' {
            return Ok((tokens, comment_fault(after)));
        }
        let Some((sort, n)) = first_token(rest) else {
            return Ok((tokens, Some(Kind::Syntax)));
        };
        if is_large(sort, &rest[..n]) {
            return Ok((tokens, Some(Kind::Limit)));
        }
        let to = here + n as u32;
        tokens.push(SpecToken {
            sort,
            from: here,
            to,
        })?;
        rest = &rest[n..];
        here = to;
    }
    Ok((tokens, None))
}

/// The fault of a comment.
fn comment_fault(rest: &[u8]) -> Option<Kind>
    ensures { result ≡ comment_fault rest.now }
{
    if is_line(rest) {
        None
    } else {
        Some(Kind::Syntax)
    }
}

/// Whether all bytes may stand in a line.
fn is_line(bytes: &[u8]) -> bool
    ensures { result ≡ list_all is_line_byte bytes.now }
{
    bytes.iter().all(|byte| is_line_byte(*byte))
}

/// The token with which the bytes begin: its sort, and how many bytes it has.
fn first_token(bytes: &[u8]) -> Option<(SpecSort, usize)>
    ensures { MatchOption result (HasNo2 (Begins bytes.now))
        (λ found. IsFirst bytes.now found.0 found.1) }
{
    let (first, after) = bytes.split_first()?;
    if is_letter(*first) {
        Some((SpecSort::Word, word_len(bytes)))
    } else if is_digit(*first) {
        Some((SpecSort::Number, digits_len(bytes)))
    } else if *first == b'"' {
        Some((SpecSort::Text, text_len(after)? + 2))
    } else if *first == b'[' {
        let (_, rest) = set_at(after)?;
        Some((SpecSort::Class, bytes.len() - rest.len()))
    } else {
        Some((SpecSort::Sign, sign_len(bytes)?))
    }
}

/// With how many letters, digits and `_` the bytes begin.
fn word_len(bytes: &[u8]) -> usize
    ensures { result ≡ prefix_len is_word_byte bytes.now }
{
    bytes.iter().take_while(|byte| is_word_byte(**byte)).count()
}

/// With how many digits the bytes begin.
fn digits_len(bytes: &[u8]) -> usize
    ensures { result ≡ prefix_len is_digit bytes.now }
{
    bytes.iter().take_while(|byte| is_digit(**byte)).count()
}

/// How many bytes the sign has with which the bytes begin.
fn sign_len(bytes: &[u8]) -> Option<usize>
    requires { IsElse (slice_index bytes.now 0) }
    ensures { MatchOption result (HasNo2 (Begins bytes.now)) (λ n. IsFirst bytes.now sign_sort n) }
{
    let (first, after) = bytes.split_first()?;
    if pair_at(*first, after) {
        Some(2)
    } else if is_sign_byte(*first) {
        Some(1)
    } else {
        None
    }
}

/// Whether the byte and the one behind it are a sign together.
fn pair_at(first: u8, after: &[u8]) -> bool
    ensures { result ≡ pair_at first after.now }
{
    match after {
        [second, ..] => is_sign_pair(first, *second),
        [] => false,
    }
}

/// Whether the token is a number above the greatest one.
fn is_large(sort: SpecSort, bytes: &[u8]) -> bool
    requires { sort ≡ number_sort → list_all is_digit bytes.now ≡ true }
    ensures { IsTrue result ↔ ((sort ≡ number_sort) × (most < digits_value 10 bytes.now)) }
{
    match sort {
        SpecSort::Number => number_in(bytes).is_none(),
        SpecSort::Word | SpecSort::Text | SpecSort::Class | SpecSort::Sign => false,
    }
}

/// The number of the digits; `None` where it is above the greatest one.
pub(crate) fn number_in(digits: &[u8]) -> Option<u64>
    requires { list_all is_digit digits.now ≡ true }
    ensures { MatchOption result (most < digits_value 10 digits.now)
        (λ n. (n ≡ digits_value 10 digits.now) × (n ≤ most)) }
{
    let mut value: u64 = 0;
    let mut rest = digits;
    while let Some((digit, after)) = rest.split_first() {
        if value > 922_337_203_685_477_580 {
            return None;
        }
        value = value * 10 + u64::from(*digit - b'0');
        rest = after;
    }
    if value > 9_223_372_036_854_775_807 {
        None
    } else {
        Some(value)
    }
}

/// How many bytes stand between the quote before the bytes and the next one.
fn text_len(bytes: &[u8]) -> Option<usize>
    ensures inside { MatchOption result (HasNo2 (IsInsideOf bytes.now)) (IsInside bytes.now) }
    ensures fits { IfSome result (λ n. n < length bytes.now) }
{
    let mut len = 0;
    let mut rest = bytes;
    while let Some(n) = character_len(rest) {
        len += n;
        rest = &rest[n..];
    }
    let (first, _) = rest.split_first()?;
    if *first == b'"' { Some(len) } else { None }
}

/// How many bytes the character has with which the bytes between quotes begin.
fn character_len(bytes: &[u8]) -> Option<usize>
    ensures { MatchOption result (HasNoCharacter bytes.now) (IsCharacter bytes.now) }
{
    let (first, after) = bytes.split_first()?;
    if is_text_byte(*first) {
        Some(1)
    } else if *first == b'\\' {
        escape_len(after)
    } else {
        None
    }
}

/// How many bytes the escape has behind whose `\` the bytes stand.
fn escape_len(bytes: &[u8]) -> Option<usize>
    ensures { MatchOption result (HasNoCharacter (92 ∷ bytes.now)) (IsCharacter (92 ∷ bytes.now)) }
{
    let (letter, after) = bytes.split_first()?;
    if is_named(*letter) {
        Some(2)
    } else if *letter == b'x' && begins_hex(after) {
        Some(4)
    } else {
        None
    }
}

/// Whether the bytes begin with two hexadecimal digits.
fn begins_hex(bytes: &[u8]) -> bool
    ensures { result ≡ begins_hex bytes.now }
{
    match bytes {
        [high, low, ..] => is_hex(*high) && is_hex(*low),
        _ => false,
    }
}

/// Whether the letter behind `\` means a byte.
fn is_named(letter: u8) -> bool
    ensures { result ≡ is_named letter }
{
    matches!(letter, b'n' | b't' | b'r' | b'\\' | b'"')
}
