// Regular expressions read from a line's tokens into the arena.
ghost use Rattle.std.specs.Prelude.{◌≡◌, ℕ, ◌+◌, ◌<◌, ◌≤◌, List, length, map, MatchOption, IfOk, IfSome, codes};
ghost use Rattle.rex_model.specs.Meaning.{meaning, sequence_of, alternative_of, set_of};
ghost use Rattle.spec_text.specs.Lexemes.{Lexeme};
ghost use Rattle.spec_text.specs.Seen.{seen};
ghost use Rattle.front_spec.specs.Seen.{sign_in, written_of};
ghost use Rattle.section_frame.specs.Parts.{Anything, Fixed, NoReading, Reading};
ghost use Rattle.front_spec.specs.Regexes.{Written, Leaf, NotSign, EndsRow, EndsRegex, glyph_of, joined, with_sign, is_dot_byte};
ghost use Rattle.front_spec.specs.RegexSteps.{AtomIn, PieceOver, RowOver, RegexIn};

use bumpalo::Bump;
use bumpalo::collections::into_bump_slice;
use ck_base::NoMemory;
use rex_model::Regex;
use section_frame::{after_sign, is_sign};
use spec_text::Token;
use std::alloc::Global;

/// An expression that was read, and its nesting.
#[derive(Clone, Copy)]
pub(crate) struct Read<'a> {
    pub body: Regex<'a>,
    pub nesting: u32,
}

/// How often the words of a piece come.
#[derive(Clone, Copy)]
pub(crate) enum Repeat {
    /// Any number of times: `*`.
    Star,
    /// Once or more: `+`.
    Plus,
    /// Once at most: `?`.
    Opt,
}

/// The expression with which the tokens begin, and what follows it; at most so many parentheses
/// stand round one another.
#[cycle(regex)]
pub(crate) fn regex<'a, 't, 's>(
    arena: &'a Bump<Global>,
    tokens: &'t [Token<'s>],
    depth: u32,
) -> Result<Option<(Read<'a>, &'t [Token<'s>])>, NoMemory>
    ensures reading { IfOk result (λ found. MatchOption found
        (NoReading (RegexIn depth) EndsRegex (map seen tokens.now))
        (λ read. Reading (RegexIn depth) EndsRegex (map seen tokens.now) (written_of read.0)
        (map seen read.1.now))) }
    ensures fits { IfOk result (λ found. IfSome found (λ read.
        (read.0.nesting ≤ 64) × (length read.1.now < length tokens.now))) }
{
    let Some((first, rest)) = row(arena, tokens, depth)? else {
        return Ok(None);
    };
    let mut parts = Vec::new(arena);
    parts.push(first.body)?;
    let mut deepest = first.nesting;
    let mut rest = rest;
    while let Some(behind) = after_sign(rest, b"|") {
        let Some((next, after)) = row(arena, behind, depth)? else {
            return Ok(None);
        };
        parts.push(next.body)?;
        deepest = deepest.max(next.nesting);
        rest = after;
    }
    let read = one_of(parts, deepest);
    if read.nesting <= 64 {
        Ok(Some((read, rest)))
    } else {
        Ok(None)
    }
}

/// The pieces with which the tokens begin, one after the other, and what follows them.
#[cycle(regex)]
fn row<'a, 't, 's>(
    arena: &'a Bump<Global>,
    tokens: &'t [Token<'s>],
    depth: u32,
) -> Result<Option<(Read<'a>, &'t [Token<'s>])>, NoMemory>
    ensures reading { IfOk result (λ found. MatchOption found
        (NoReading (RowOver (AtomIn depth)) EndsRow (map seen tokens.now))
        (λ read. Reading (RowOver (AtomIn depth)) EndsRow (map seen tokens.now)
        (written_of read.0) (map seen read.1.now))) }
    ensures fits { IfOk result (λ found. IfSome found (λ read.
        (read.0.nesting ≤ 65) × (length read.1.now < length tokens.now))) }
{
    let Some((first, rest)) = piece(arena, tokens, depth)? else {
        return Ok(None);
    };
    let mut parts = Vec::new(arena);
    parts.push(first.body)?;
    let mut deepest = first.nesting;
    let mut rest = rest;
    while let Some((next, after)) = piece(arena, rest, depth)? {
        parts.push(next.body)?;
        deepest = deepest.max(next.nesting);
        rest = after;
    }
    Ok(Some((all_of(parts, deepest), rest)))
}

/// The atom and its signs with which the tokens begin, and what follows them.
#[cycle(regex)]
fn piece<'a, 't, 's>(
    arena: &'a Bump<Global>,
    tokens: &'t [Token<'s>],
    depth: u32,
) -> Result<Option<(Read<'a>, &'t [Token<'s>])>, NoMemory>
    ensures reading { IfOk result (λ found. MatchOption found
        (NoReading (PieceOver (AtomIn depth)) NotSign (map seen tokens.now))
        (λ read. Reading (PieceOver (AtomIn depth)) NotSign (map seen tokens.now)
        (written_of read.0) (map seen read.1.now))) }
    ensures fits { IfOk result (λ found. IfSome found (λ read.
        (read.0.nesting ≤ 64) × (length read.1.now < length tokens.now))) }
{
    let Some((first, rest)) = atom(arena, tokens, depth)? else {
        return Ok(None);
    };
    let mut read = first;
    let mut rest = rest;
    while let Some((repeat, after)) = repeat_of(rest) {
        if read.nesting >= 64 {
            return Ok(None);
        }
        read = with_repeat(arena, read, repeat)?;
        rest = after;
    }
    if read.nesting <= 64 {
        Ok(Some((read, rest)))
    } else {
        Ok(None)
    }
}

/// The atom with which the tokens begin, and what follows it.
#[cycle(regex)]
fn atom<'a, 't, 's>(
    arena: &'a Bump<Global>,
    tokens: &'t [Token<'s>],
    depth: u32,
) -> Result<Option<(Read<'a>, &'t [Token<'s>])>, NoMemory>
    ensures reading { IfOk result (λ found. MatchOption found
        (NoReading (AtomIn depth) Anything (map seen tokens.now))
        (λ read. Reading (AtomIn depth) Anything (map seen tokens.now) (written_of read.0)
        (map seen read.1.now))) }
    ensures fits { IfOk result (λ found. IfSome found (λ read.
        (read.0.nesting ≤ 65) × (length read.1.now < length tokens.now))) }
{
    if let Some((body, rest)) = leaf(arena, tokens)? {
        return Ok(Some((Read { body, nesting: 1 }, rest)));
    }
    if depth == 0 {
        return Ok(None);
    }
    let Some(inner) = after_sign(tokens, b"(") else {
        return Ok(None);
    };
    let Some((read, rest)) = regex(arena, inner, depth - 1)? else {
        return Ok(None);
    };
    let Some(rest) = after_sign(rest, b")") else {
        return Ok(None);
    };
    Ok(Some((
        Read {
            body: read.body,
            nesting: read.nesting + 1,
        },
        rest,
    )))
}

/// The string, the class or the `.` with which the tokens begin, and what follows it.
fn leaf<'a, 't, 's>(
    arena: &'a Bump<Global>,
    tokens: &'t [Token<'s>],
) -> Result<Option<(Regex<'a>, &'t [Token<'s>])>, NoMemory>
    ensures reading { IfOk result (λ found. MatchOption found
        ((w : Written) (rest : List Lexeme) → Leaf (map seen tokens.now) w rest → ⊥)
        (λ read. Leaf (map seen tokens.now) (record { re = meaning read.0; nesting = 1 })
        (map seen read.1.now))) }
    ensures fits { IfOk result
        (λ found. IfSome found (λ read. length read.1.now < length tokens.now)) }
{
    let Some((first, rest)) = tokens.split_first() else {
        return Ok(None);
    };
    match first {
        Token::Text(text) => Ok(Some((Regex::Bytes(arena.try_alloc_slice_copy(text)?), rest))),
        Token::Class(set) => Ok(Some((Regex::Class(*set), rest))),
        Token::Word(_) | Token::Number(_) => Ok(None),
        Token::Sign(_) => {
            if is_sign(first, b".") {
                Ok(Some((Regex::Class(dot_set()), rest)))
            } else {
                Ok(None)
            }
        }
    }
}

/// The bytes that `.` stands for.
fn dot_set() -> [u64; 4]
    ensures { set_of result ≡ is_dot_byte }
{
    [u64::MAX - 1024, u64::MAX, u64::MAX, u64::MAX]
}

/// The sign with which the tokens begin, and what follows it.
fn repeat_of<'t, 's>(tokens: &'t [Token<'s>]) -> Option<(Repeat, &'t [Token<'s>])>
    ensures { MatchOption result (NotSign (map seen tokens.now))
        (λ found. Fixed (glyph_of (sign_in found.0)) (map seen tokens.now) (map seen found.1.now)) }
{
    let (first, rest) = tokens.split_first()?;
    if is_sign(first, b"*") {
        Some((Repeat::Star, rest))
    } else if is_sign(first, b"+") {
        Some((Repeat::Plus, rest))
    } else if is_sign(first, b"?") {
        Some((Repeat::Opt, rest))
    } else {
        None
    }
}

/// What was read, so often.
fn with_repeat<'a>(
    arena: &'a Bump<Global>,
    read: Read<'a>,
    repeat: Repeat,
) -> Result<Read<'a>, NoMemory>
    requires { read.nesting < 64 }
    ensures { IfOk result (λ more.
        written_of more ≡ with_sign (sign_in repeat) (written_of read.entry)) }
{
    let part: &Regex<'a> = arena.try_alloc(read.body)?;
    let body = match repeat {
        Repeat::Star => Regex::Star(part),
        Repeat::Plus => Regex::Plus(part),
        Repeat::Opt => Regex::Opt(part),
    };
    Ok(Read {
        body,
        nesting: read.nesting + 1,
    })
}

/// The parts one after the other.
fn all_of<'a>(parts: Vec<Regex<'a>, &'a Bump<Global>>, deepest: u32) -> Read<'a>
    requires { deepest ≤ 64 }
    ensures is { written_of result ≡ joined sequence_of (map meaning parts.entry.items) deepest }
    ensures within { result.nesting ≤ 65 }
{
    if let [one] = parts.as_slice() {
        return Read {
            body: *one,
            nesting: deepest,
        };
    }
    Read {
        body: Regex::Seq(into_bump_slice(parts)),
        nesting: deepest + 1,
    }
}

/// One of the parts.
fn one_of<'a>(parts: Vec<Regex<'a>, &'a Bump<Global>>, deepest: u32) -> Read<'a>
    requires { deepest ≤ 65 }
    ensures { written_of result ≡ joined alternative_of (map meaning parts.entry.items) deepest }
{
    if let [one] = parts.as_slice() {
        return Read {
            body: *one,
            nesting: deepest,
        };
    }
    Read {
        body: Regex::Alt(into_bump_slice(parts)),
        nesting: deepest + 1,
    }
}
