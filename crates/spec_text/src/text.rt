// Texts in quotes given their bytes.
ghost use Rattle.std.specs.Prelude.{◌≡◌, ℕ, List, ◌∷◌, MatchOption, IfOk};
ghost use Rattle.spec_text.specs.Lexemes.{Quoted};
ghost use Rattle.spec_text.specs.Steps.{MeansFirst, MeansNothing};

use crate::class::{hex_value, is_hex, named};
use bumpalo::Bump;
use bumpalo::collections::into_bump_slice;
use ck_base::NoMemory;
use std::alloc::Global;

/// The bytes that the string means between whose quotes the bytes stand.
pub fn meant_in<'a>(arena: &'a Bump<Global>, inside: &[u8]) -> Result<&'a [u8], NoMemory>
    ensures { IfOk result (λ bytes. (meant : List ℕ) → Quoted inside.now meant
        → bytes.now ≡ meant) }
{
    let mut bytes = Vec::with_capacity(arena, inside.len())?;
    let mut rest = inside;
    while let Some((byte, after)) = first_meant(rest) {
        bytes.push(byte)?;
        rest = after;
    }
    Ok(into_bump_slice(bytes))
}

/// The byte that the first character of a string means, and what follows it.
fn first_meant(bytes: &[u8]) -> Option<(u8, &[u8])>
    ensures { MatchOption result (MeansNothing bytes.now)
        (λ found. MeansFirst bytes.now found.0 found.1.now) }
{
    let (first, after) = bytes.split_first()?;
    if *first == b'\\' {
        escape_meant(after)
    } else {
        Some((*first, after))
    }
}

/// The byte that the escape means behind whose `\` the bytes stand, and what follows it.
fn escape_meant(bytes: &[u8]) -> Option<(u8, &[u8])>
    ensures { MatchOption result (MeansNothing (92 ∷ bytes.now))
        (λ found. MeansFirst (92 ∷ bytes.now) found.0 found.1.now) }
{
    let (letter, after) = bytes.split_first()?;
    if *letter == b'x' {
        code_meant(after)
    } else {
        Some((named(*letter), after))
    }
}

/// The byte of the two hexadecimal digits with which the bytes begin, and what follows them.
fn code_meant(bytes: &[u8]) -> Option<(u8, &[u8])>
    ensures { MatchOption result (MeansNothing (92 ∷ 120 ∷ bytes.now))
        (λ found. MeansFirst (92 ∷ 120 ∷ bytes.now) found.0 found.1.now) }
{
    let (high, after) = bytes.split_first()?;
    let (low, rest) = after.split_first()?;
    if !is_hex(*high) {
        return None;
    }
    if !is_hex(*low) {
        return None;
    }
    Some((hex_value(*high) * 16 + hex_value(*low), rest))
}
