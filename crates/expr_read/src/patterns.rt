// Patterns read by the tokens that are next.
ghost use Rattle.std.specs.Prelude.{◌≡◌, ◌<◌, ℕ, map, MatchOption, IfOk};
ghost use Rattle.spec_text.specs.Seen.{seen};
ghost use Rattle.expr_read.specs.PatternWriting.{pattern_list, pattern_of};
ghost use Rattle.expr_read.specs.Patterns.{IsPattern, IsPatternName, PatternAt, PatternRow, PatternsIn, word_alone};
ghost use Rattle.expr_read.specs.within.PatternsRead.{IsHead, NoHead, NoPattern, NoPatternRow, NoPatternWith, NoPatternsIn, PatternWith};

use crate::leaves::is_word_behind;
use crate::written_pattern::WrittenPattern;
use bumpalo::Bump;
use bumpalo::collections::into_bump_slice;
use ck_base::NoMemory;
use section_frame::{after_sign, name_of, number_of, text_of};
use spec_text::Token;
use std::alloc::Global;

/// The pattern with which the tokens begin, and what follows it: `_`, a name, a number, a string,
/// `true`, `false`, a tree `name ( pattern, .. )`, or such a tree behind `name :`, of nesting 64 at
/// most. A word is read alone where neither `(` nor `:` is behind it.
pub fn read_pattern<'t, 's>(
    arena: &'s Bump<Global>,
    tokens: &'t [Token<'s>],
) -> Result<Option<(WrittenPattern<'s>, &'t [Token<'s>])>, NoMemory>
    ensures { IfOk result (λ found. MatchOption found (NoPattern 64 (map seen tokens.now))
        (λ read. IsPattern (map seen tokens.now) (pattern_of read.0) (map seen read.1.now))) }
{
    pattern(arena, tokens, 64)
}

/// The pattern with which the tokens begin, of this nesting at most, and what follows it.
#[cycle(patterns)]
fn pattern<'t, 's>(
    arena: &'s Bump<Global>,
    tokens: &'t [Token<'s>],
    left: u32,
) -> Result<Option<(WrittenPattern<'s>, &'t [Token<'s>])>, NoMemory>
    ensures { IfOk result (λ found. MatchOption found (NoPattern left (map seen tokens.now))
        (λ read. PatternAt left (map seen tokens.now) (pattern_of read.0) (map seen read.1.now))) }
{
    if left == 0 {
        return Ok(None);
    }
    if let Some((n, rest)) = number_of(tokens) {
        return Ok(Some((WrittenPattern::Number(n), rest)));
    }
    if let Some((bytes, rest)) = text_of(tokens) {
        return Ok(Some((WrittenPattern::Text(bytes), rest)));
    }
    let Some((name, behind)) = name_of(tokens) else {
        return Ok(None);
    };
    if is_word_behind(name) {
        return Ok(None);
    }
    let Some((read, rest)) = with_name(arena, name, behind, left)? else {
        return Ok(None);
    };
    Ok(Some((read, rest)))
}

/// The pattern that begins with the name, of this nesting at most, and what follows it.
#[cycle(patterns)]
fn with_name<'t, 's>(
    arena: &'s Bump<Global>,
    name: &'s [u8],
    behind: &'t [Token<'s>],
    left: u32,
) -> Result<Option<(WrittenPattern<'s>, &'t [Token<'s>])>, NoMemory>
    requires some { 0 < left }
    requires name { IsPatternName name.now }
    ensures { IfOk result (λ found. MatchOption found (NoPatternWith left name.now (map seen behind.now))
        (λ read. PatternWith left name.now (map seen behind.now) (pattern_of read.0)
        (map seen read.1.now))) }
{
    if let Some(after) = after_sign(behind, b"(") {
        let Some((parts, rest)) = parts(arena, after, left - 1)? else {
            return Ok(None);
        };
        return Ok(Some((WrittenPattern::Tree(name, parts), rest)));
    }
    let Some(after) = after_sign(behind, b":") else {
        return Ok(Some((word_alone(name), behind)));
    };
    let Some((of, inside)) = tree_head(after) else {
        return Ok(None);
    };
    let Some((parts, rest)) = parts(arena, inside, left - 1)? else {
        return Ok(None);
    };
    Ok(Some((WrittenPattern::NamedTree(name, of, parts), rest)))
}

/// The patterns and the `)` with which the tokens begin, each of this nesting at most, and what
/// follows them.
#[cycle(patterns)]
fn parts<'t, 's>(
    arena: &'s Bump<Global>,
    tokens: &'t [Token<'s>],
    left: u32,
) -> Result<Option<(&'s [WrittenPattern<'s>], &'t [Token<'s>])>, NoMemory>
    ensures { IfOk result (λ found. MatchOption found (NoPatternsIn left (map seen tokens.now))
        (λ read. PatternsIn left (map seen tokens.now) (pattern_list (map pattern_of read.0.now))
        (map seen read.1.now))) }
{
    if let Some(rest) = after_sign(tokens, b")") {
        let none: Vec<WrittenPattern<'s>, &'s Bump<Global>> = Vec::new(arena);
        return Ok(Some((into_bump_slice(none), rest)));
    }
    let Some((read, rest)) = row(arena, tokens, left)? else {
        return Ok(None);
    };
    Ok(Some((read, rest)))
}

/// The patterns and the `)` with which the tokens begin, one at least, and what follows them.
#[cycle(patterns)]
fn row<'t, 's>(
    arena: &'s Bump<Global>,
    tokens: &'t [Token<'s>],
    left: u32,
) -> Result<Option<(&'s [WrittenPattern<'s>], &'t [Token<'s>])>, NoMemory>
    ensures { IfOk result (λ found. MatchOption found (NoPatternRow left (map seen tokens.now))
        (λ read. PatternRow left (map seen tokens.now) (pattern_list (map pattern_of read.0.now))
        (map seen read.1.now))) }
{
    let Some((first, rest)) = pattern(arena, tokens, left)? else {
        return Ok(None);
    };
    let mut list = Vec::new(arena);
    list.push(first)?;
    let mut rest = rest;
    while let Some(behind) = after_sign(rest, b",") {
        let Some((next, after)) = pattern(arena, behind, left)? else {
            return Ok(None);
        };
        list.push(next)?;
        rest = after;
    }
    let Some(after) = after_sign(rest, b")") else {
        return Ok(None);
    };
    Ok(Some((into_bump_slice(list), after)))
}

/// The name and the `(` with which the tokens begin, and what follows them.
fn tree_head<'t, 's>(tokens: &'t [Token<'s>]) -> Option<(&'s [u8], &'t [Token<'s>])>
    ensures { MatchOption result (NoHead (map seen tokens.now))
        (λ head. IsHead (map seen tokens.now) head.0.now (map seen head.1.now)) }
{
    let (name, behind) = name_of(tokens)?;
    if is_word_behind(name) {
        return None;
    }
    let after = after_sign(behind, b"(")?;
    Some((name, after))
}

/// The pattern that a word alone is.
fn word_alone<'s>(word: &'s [u8]) -> WrittenPattern<'s>
    ensures { pattern_of result ≡ word_alone word.now }
{
    if word == b"_".as_slice() {
        WrittenPattern::Any
    } else if word == b"true".as_slice() {
        WrittenPattern::Truth(true)
    } else if word == b"false".as_slice() {
        WrittenPattern::Truth(false)
    } else {
        WrittenPattern::Name(word)
    }
}
