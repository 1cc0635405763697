// Classes of bytes in brackets, with spans and escapes.
ghost use Rattle.std.specs.Prelude.{◌≡◌, ℕ, List, nat_lt, ◌&&◌, not, ◌+◌, ◌<◌, ◌≤◌, ◌∷◌, true, length, MatchOption, IfSome};
ghost use Rattle.std.specs.Char.{digit_value};
ghost use Rattle.spec_text.specs.Escapes.{is_hex, named};
ghost use Rattle.spec_text.specs.Classes.{is_class_byte, is_class_name, AddsSpan, BeginsSpan, ClassChar, HasNoChar, HasNoClass, HasNoSet, HasNoSpan, IsSetAt, IsClassOf, IsFlipped, set_of};

use crate::bytes::is_line_byte;

/// The set of bytes that the class lists behind whose `[` the bytes stand, and what follows its
/// `]`.
pub fn class_of(bytes: &[u8]) -> Option<([u64; 4], &[u8])>
    ensures { MatchOption result (HasNoClass bytes.now)
        (λ found. IsClassOf bytes.now found.0 found.1.now) }
{
    let (low, high, first_rest) = span_of(bytes)?;
    let mut set = [0; 4];
    add_span(&mut set, low, high);
    let mut rest = first_rest;
    while let Some((low, high, after)) = span_of(rest) {
        add_span(&mut set, low, high);
        rest = after;
    }
    let (first, after) = rest.split_first()?;
    if *first == b']' {
        Some((set, after))
    } else {
        None
    }
}

/// The set of the class behind whose `[` the bytes stand, and what follows its `]`.
pub fn set_at(bytes: &[u8]) -> Option<([u64; 4], &[u8])>
    ensures { MatchOption result (HasNoSet bytes.now)
        (λ found. IsSetAt bytes.now found.0 found.1.now) }
{
    let (first, after) = bytes.split_first()?;
    if *first == b'^' {
        let (set, rest) = class_of(after)?;
        Some((negated(set), rest))
    } else {
        let (set, rest) = class_of(bytes)?;
        Some((set, rest))
    }
}

/// The span with which the bytes begin, and what follows it. A single character is a span of one
/// byte.
fn span_of(bytes: &[u8]) -> Option<(u8, u8, &[u8])>
    ensures { MatchOption result (HasNoSpan bytes.now) (λ found.
        BeginsSpan bytes.now found.0 found.1 found.2.now) }
{
    let (low, after) = char_of(bytes)?;
    let Some(behind) = after_dash(after) else {
        return Some((low, low, after));
    };
    let (high, rest) = char_of(behind)?;
    if low <= high {
        Some((low, high, rest))
    } else {
        None
    }
}

/// What follows the `-` with which the bytes begin.
fn after_dash(bytes: &[u8]) -> Option<&[u8]>
    ensures { MatchOption result ((rest : List ℕ) → bytes.now ≡ 45 ∷ rest → ⊥)
        (λ rest. bytes.now ≡ 45 ∷ rest.now) }
{
    match bytes {
        [b'-', rest @ ..] => Some(rest),
        _ => None,
    }
}

/// The byte that the character of a class means with which the bytes begin, and what follows it.
fn char_of(bytes: &[u8]) -> Option<(u8, &[u8])>
    ensures { MatchOption result (HasNoChar bytes.now)
        (λ found. ClassChar bytes.now found.0 found.1.now) }
{
    let (first, after) = bytes.split_first()?;
    if is_class_byte(*first) {
        return Some((*first, after));
    }
    if *first == b'\\' {
        escaped_of(after)
    } else {
        None
    }
}

/// The byte that the escape means behind whose `\` the bytes stand, and what follows it.
fn escaped_of(bytes: &[u8]) -> Option<(u8, &[u8])>
    ensures { MatchOption result (HasNoChar (92 ∷ bytes.now))
        (λ found. ClassChar (92 ∷ bytes.now) found.0 found.1.now) }
{
    let (letter, after) = bytes.split_first()?;
    if is_class_name(*letter) {
        return Some((named(*letter), after));
    }
    if *letter == b'x' {
        coded_of(after)
    } else {
        None
    }
}

/// The byte of the two hexadecimal digits with which the bytes begin, and what follows them.
fn coded_of(bytes: &[u8]) -> Option<(u8, &[u8])>
    ensures { MatchOption result (HasNoChar (92 ∷ 120 ∷ bytes.now))
        (λ found. ClassChar (92 ∷ 120 ∷ bytes.now) found.0 found.1.now) }
{
    let (high, after) = bytes.split_first()?;
    let (low, rest) = after.split_first()?;
    if !is_hex(*high) {
        return None;
    }
    if !is_hex(*low) {
        return None;
    }
    Some((hex_value(*high) * 16 + hex_value(*low), rest))
}

/// The value of the hexadecimal digit.
pub(crate) fn hex_value(byte: u8) -> u8
    requires { is_hex byte ≡ true }
    ensures is { result ≡ digit_value byte }
    ensures below { result < 16 }
{
    match byte {
        b'0'..=b'9' => byte - b'0',
        b'a'..=b'f' => byte - b'a' + 10,
        b'A'..=b'F' => byte - b'A' + 10,
        _ => 0,
    }
}

/// Whether the byte is a hexadecimal digit.
pub(crate) fn is_hex(byte: u8) -> bool
    ensures { result ≡ is_hex byte }
{
    matches!(byte, b'0'..=b'9' | b'a'..=b'f' | b'A'..=b'F')
}

/// Whether the byte stands for itself in a class.
fn is_class_byte(byte: u8) -> bool
    ensures { result ≡ is_class_byte byte }
{
    is_line_byte(byte) && !matches!(byte, b'\\' | b']' | b'-')
}

/// Whether the letter or sign means a byte behind `\` in a class.
fn is_class_name(letter: u8) -> bool
    ensures { result ≡ is_class_name letter }
{
    matches!(
        letter,
        b'n' | b't' | b'r' | b'\\' | b'"' | b']' | b'-' | b'^'
    )
}

/// The byte that the letter means behind `\`.
pub(crate) fn named(letter: u8) -> u8
    ensures { result ≡ named letter }
{
    match letter {
        b'n' => b'\n',
        b't' => b'\t',
        b'r' => b'\r',
        _ => letter,
    }
}

/// Puts the bytes from `low` to `high` into the set.
fn add_span(set: &mut [u64; 4], low: u8, high: u8)
    requires { low ≤ high }
    ensures { AddsSpan set.old set.new low high }
{
    for byte in low..=high {
        add_byte(set, byte);
    }
}

/// Puts the byte into the set.
fn add_byte(set: &mut [u64; 4], byte: u8)
    ensures { AddsSpan set.old set.new byte byte }
{
    set[(byte / 64) as usize] |= 1 << (byte % 64);
}

/// All bytes that aren't in the set.
pub fn negated(set: [u64; 4]) -> [u64; 4]
    ensures { set_of result ≡ (λ byte. nat_lt byte 256 && not (set_of set byte)) }
{
    [
        flipped(set[0]),
        flipped(set[1]),
        flipped(set[2]),
        flipped(set[3]),
    ]
}

/// The other bits of the word.
fn flipped(word: u64) -> u64
    ensures { IsFlipped word result }
{
    !word
}
