// Expressions by levels of precedence: chains, prefixes, groups, arguments.
ghost use Rattle.std.specs.Prelude.{◌<◌, ◌≤◌, ℕ, map, MatchOption, IfOk};
ghost use Rattle.spec_text.specs.Seen.{seen};
ghost use Rattle.expr_read.specs.within.Wholes.{AreRead, Conditional, Grouping, Inside, IsRead, Named, NoneAre, NoneRead, Row, Whole};
ghost use Rattle.expr_read.specs.Writing.{spoken_list, spoken_of};

use crate::built::{Read, behind_prefix, if_of, joined};
use crate::leaves::{dotted, is_name, leaf};
use crate::operators::{is_compared_again, operator_at};
use crate::prefix::prefix_of;
use crate::written::Written;
use bumpalo::Bump;
use bumpalo::collections::into_bump_slice;
use ck_base::NoMemory;
use section_frame::{after_sign, after_word, name_of};
use spec_text::Token;
use std::alloc::Global;

/// Arguments that were read, and the nesting of the deepest; 0 where there are none.
#[derive(Clone, Copy)]
struct ReadRow<'s> {
    parts: &'s [Written<'s>],
    deepest: u32,
}

/// The expression with which the tokens begin, of this nesting at most, and what follows it.
#[cycle(levels)]
pub(crate) fn whole<'t, 's>(
    arena: &'s Bump<Global>,
    tokens: &'t [Token<'s>],
    left: u32,
) -> Result<Option<(Read<'s>, &'t [Token<'s>])>, NoMemory>
    ensures { IfOk result (λ found. MatchOption found
        (NoneRead (Whole 0) left (map seen tokens.now))
        (λ read. IsRead (Whole 0) left (map seen tokens.now) (spoken_of read.0.body)
        read.0.nesting (map seen read.1.now))) }
{
    let Some(after) = after_word(tokens, b"if") else {
        let Some((other, rest)) = operand(arena, tokens, 1, left)? else {
            return Ok(None);
        };
        return Ok(Some((other, rest)));
    };
    if left == 0 {
        return Ok(None);
    }
    let Some((read, rest)) = conditional(arena, after, left)? else {
        return Ok(None);
    };
    Ok(Some((read, rest)))
}

/// The `if` whose condition the tokens begin with, of this nesting at most, and what follows it.
#[cycle(levels)]
fn conditional<'t, 's>(
    arena: &'s Bump<Global>,
    tokens: &'t [Token<'s>],
    left: u32,
) -> Result<Option<(Read<'s>, &'t [Token<'s>])>, NoMemory>
    requires { 0 < left }
    ensures { IfOk result (λ found. MatchOption found
        (NoneRead Conditional left (map seen tokens.now))
        (λ read. IsRead Conditional left (map seen tokens.now) (spoken_of read.0.body)
        read.0.nesting (map seen read.1.now))) }
{
    let Some((test, rest)) = whole(arena, tokens, left - 1)? else {
        return Ok(None);
    };
    let Some(after_then) = after_word(rest, b"then") else {
        return Ok(None);
    };
    let Some((first, rest)) = whole(arena, after_then, left - 1)? else {
        return Ok(None);
    };
    let Some(after_else) = after_word(rest, b"else") else {
        return Ok(None);
    };
    let Some((second, rest)) = whole(arena, after_else, left - 1)? else {
        return Ok(None);
    };
    let read = if_of(arena, test, first, second)?;
    Ok(Some((read, rest)))
}

/// The expression of the level with which the tokens begin, of this nesting at most, and what follows
/// it.
#[cycle(levels)]
fn operand<'t, 's>(
    arena: &'s Bump<Global>,
    tokens: &'t [Token<'s>],
    level: u32,
    left: u32,
) -> Result<Option<(Read<'s>, &'t [Token<'s>])>, NoMemory>
    requires { (1 ≤ level) × (level ≤ 7) }
    ensures { IfOk result (λ found. MatchOption found
        (NoneRead (Whole level) left (map seen tokens.now))
        (λ read. IsRead (Whole level) left (map seen tokens.now) (spoken_of read.0.body)
        read.0.nesting (map seen read.1.now))) }
{
    if level <= 5 {
        let found = chain(arena, tokens, level, left)?;
        return Ok(found);
    }
    if level == 6 {
        let found = prefixed(arena, tokens, left)?;
        return Ok(found);
    }
    let found = primary(arena, tokens, left)?;
    Ok(found)
}

/// The operands with operators of the level between with which the tokens begin, of this nesting at most,
/// and what follows them. Comparisons aren't chained.
#[cycle(levels)]
fn chain<'t, 's>(
    arena: &'s Bump<Global>,
    tokens: &'t [Token<'s>],
    level: u32,
    left: u32,
) -> Result<Option<(Read<'s>, &'t [Token<'s>])>, NoMemory>
    requires { (1 ≤ level) × (level ≤ 5) }
    ensures { IfOk result (λ found. MatchOption found
        (NoneRead (Whole level) left (map seen tokens.now))
        (λ read. IsRead (Whole level) left (map seen tokens.now) (spoken_of read.0.body)
        read.0.nesting (map seen read.1.now))) }
{
    let Some((first, rest)) = operand(arena, tokens, level + 1, left)? else {
        return Ok(None);
    };
    let mut read = first;
    let mut rest = rest;
    while let Some((op, behind)) = operator_at(rest, level) {
        let Some((right, after)) = operand(arena, behind, level + 1, left)? else {
            return Ok(None);
        };
        if is_compared_again(after, level) {
            return Ok(None);
        }
        let deepest = read.nesting.max(right.nesting);
        if deepest >= left {
            return Ok(None);
        }
        read = joined(arena, op, read, right, deepest + 1)?;
        rest = after;
    }
    Ok(Some((read, rest)))
}

/// The expression with its prefixes with which the tokens begin, of this nesting at most, and what follows
/// it.
#[cycle(levels)]
fn prefixed<'t, 's>(
    arena: &'s Bump<Global>,
    tokens: &'t [Token<'s>],
    left: u32,
) -> Result<Option<(Read<'s>, &'t [Token<'s>])>, NoMemory>
    ensures { IfOk result (λ found. MatchOption found
        (NoneRead (Whole 6) left (map seen tokens.now))
        (λ read. IsRead (Whole 6) left (map seen tokens.now) (spoken_of read.0.body)
        read.0.nesting (map seen read.1.now))) }
{
    let Some((prefix, after)) = prefix_of(tokens) else {
        let Some((plain, rest)) = primary(arena, tokens, left)? else {
            return Ok(None);
        };
        return Ok(Some((plain, rest)));
    };
    if left == 0 {
        return Ok(None);
    }
    let Some((part, rest)) = prefixed(arena, after, left - 1)? else {
        return Ok(None);
    };
    let read = behind_prefix(arena, prefix, part)?;
    Ok(Some((read, rest)))
}

/// The expression without operators with which the tokens begin, of this nesting at most, and what follows
/// it.
#[cycle(levels)]
fn primary<'t, 's>(
    arena: &'s Bump<Global>,
    tokens: &'t [Token<'s>],
    left: u32,
) -> Result<Option<(Read<'s>, &'t [Token<'s>])>, NoMemory>
    ensures { IfOk result (λ found. MatchOption found
        (NoneRead (Whole 7) left (map seen tokens.now))
        (λ read. IsRead (Whole 7) left (map seen tokens.now) (spoken_of read.0.body)
        read.0.nesting (map seen read.1.now))) }
{
    if left == 0 {
        return Ok(None);
    }
    if let Some((body, rest)) = leaf(tokens) {
        return Ok(Some((Read { body, nesting: 1 }, rest)));
    }
    if let Some(after) = after_sign(tokens, b"(") {
        let Some((inner, rest)) = group(arena, after, left)? else {
            return Ok(None);
        };
        return Ok(Some((inner, rest)));
    }
    let Some((name, behind)) = name_of(tokens) else {
        return Ok(None);
    };
    if !is_name(name) {
        return Ok(None);
    }
    let Some((read, rest)) = named(arena, name, behind, left)? else {
        return Ok(None);
    };
    Ok(Some((read, rest)))
}

/// The expression and the `)` with which the tokens begin, of this nesting at most in its parentheses, and
/// what follows it.
#[cycle(levels)]
fn group<'t, 's>(
    arena: &'s Bump<Global>,
    tokens: &'t [Token<'s>],
    left: u32,
) -> Result<Option<(Read<'s>, &'t [Token<'s>])>, NoMemory>
    requires { 0 < left }
    ensures { IfOk result (λ found. MatchOption found
        (NoneRead Grouping left (map seen tokens.now))
        (λ read. IsRead Grouping left (map seen tokens.now) (spoken_of read.0.body)
        read.0.nesting (map seen read.1.now))) }
{
    let Some((part, rest)) = whole(arena, tokens, left - 1)? else {
        return Ok(None);
    };
    let Some(rest) = after_sign(rest, b")") else {
        return Ok(None);
    };
    let body: &Written<'s> = arena.try_alloc(part.body)?;
    let read = Read {
        body: Written::Grouped(body),
        nesting: part.nesting + 1,
    };
    Ok(Some((read, rest)))
}

/// The name with what belongs to it behind it: arguments in parentheses, or another name behind `.`.
#[cycle(levels)]
fn named<'t, 's>(
    arena: &'s Bump<Global>,
    name: &'s [u8],
    behind: &'t [Token<'s>],
    left: u32,
) -> Result<Option<(Read<'s>, &'t [Token<'s>])>, NoMemory>
    requires { 0 < left }
    ensures { IfOk result (λ found. MatchOption found
        (NoneRead (Named name.now) left (map seen behind.now))
        (λ read. IsRead (Named name.now) left (map seen behind.now) (spoken_of read.0.body)
        read.0.nesting (map seen read.1.now))) }
{
    let Some(after) = after_sign(behind, b"(") else {
        let Some((body, rest)) = dotted(name, behind) else {
            return Ok(None);
        };
        return Ok(Some((Read { body, nesting: 1 }, rest)));
    };
    let Some((arguments, rest)) = arguments(arena, after, left)? else {
        return Ok(None);
    };
    let read = Read {
        body: Written::Applied(name, arguments.parts),
        nesting: arguments.deepest + 1,
    };
    Ok(Some((read, rest)))
}

/// The arguments and the `)` with which the tokens begin, each of less than this nesting, and what follows
/// them.
#[cycle(levels)]
fn arguments<'t, 's>(
    arena: &'s Bump<Global>,
    tokens: &'t [Token<'s>],
    left: u32,
) -> Result<Option<(ReadRow<'s>, &'t [Token<'s>])>, NoMemory>
    requires { 0 < left }
    ensures { IfOk result (λ found. MatchOption found
        (NoneAre Inside left (map seen tokens.now))
        (λ read. AreRead Inside left (map seen tokens.now)
        (spoken_list (map spoken_of read.0.parts.now)) read.0.deepest (map seen read.1.now))) }
{
    if let Some(rest) = after_sign(tokens, b")") {
        let parts: Vec<Written<'s>, &'s Bump<Global>> = Vec::new(arena);
        let none = ReadRow {
            parts: into_bump_slice(parts),
            deepest: 0,
        };
        return Ok(Some((none, rest)));
    }
    let Some((read, rest)) = row(arena, tokens, left)? else {
        return Ok(None);
    };
    Ok(Some((read, rest)))
}

/// The arguments and the `)` with which the tokens begin, one at least, and what follows them.
#[cycle(levels)]
fn row<'t, 's>(
    arena: &'s Bump<Global>,
    tokens: &'t [Token<'s>],
    left: u32,
) -> Result<Option<(ReadRow<'s>, &'t [Token<'s>])>, NoMemory>
    requires { 0 < left }
    ensures { IfOk result (λ found. MatchOption found
        (NoneAre Row left (map seen tokens.now))
        (λ read. AreRead Row left (map seen tokens.now)
        (spoken_list (map spoken_of read.0.parts.now)) read.0.deepest (map seen read.1.now))) }
{
    let Some((first, rest)) = whole(arena, tokens, left - 1)? else {
        return Ok(None);
    };
    let mut parts = Vec::new(arena);
    parts.push(first.body)?;
    let mut deepest = first.nesting;
    let mut rest = rest;
    while let Some(behind) = after_sign(rest, b",") {
        let Some((next, after)) = whole(arena, behind, left - 1)? else {
            return Ok(None);
        };
        parts.push(next.body)?;
        deepest = deepest.max(next.nesting);
        rest = after;
    }
    let Some(after) = after_sign(rest, b")") else {
        return Ok(None);
    };
    let read = ReadRow {
        parts: into_bump_slice(parts),
        deepest,
    };
    Ok(Some((read, after)))
}
