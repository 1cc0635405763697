// The written expression that stands at a place among tokens.
ghost use Rattle.std.specs.Prelude.{◌≡◌, ◌-◌, ◌≤◌, List, None, length, map, drop, IfOk, MatchOption};
ghost use Rattle.section_frame.specs.Parts.{NoReading};
ghost use Rattle.spec_text.specs.Reading.{Placed};
ghost use Rattle.spec_text.specs.Seen.{seen};
ghost use Rattle.expr_read.specs.Notation.{IsSpoken, MayFollow};
ghost use Rattle.expr_read.specs.Written.{AreTokensOf, StandsAt, said_in};
ghost use Rattle.expr_read.specs.Writing.{spoken_of};

use crate::parsing::read_written;
use crate::written::Written;
use bumpalo::Bump;
use ck_base::NoMemory;
use spec_text::{SpecLine, SpecToken, Token, tokens_in};
use std::alloc::Global;

/// The expression that stands among the tokens at the place, and the number of the token behind it.
/// A few tokens are looked at first, and then twice as many each time, until one stands behind it.
pub(crate) fn written_at<'s>(
    alloc: Global,
    texts: &'s Bump<Global>,
    spec: &'s [u8],
    tokens: &[SpecToken],
    at: usize,
) -> Result<Option<(Written<'s>, usize)>, NoMemory>
    requires within { at ≤ length tokens.now }
    requires spelled { (said : List Placed) × AreTokensOf spec.now tokens.now said }
    ensures { IfOk result (λ found. (said : List Placed) → AreTokensOf spec.now tokens.now said
        → MatchOption found (NoReading IsSpoken MayFollow (drop at (said_in said)))
        (λ read. StandsAt (said_in said) at read.1 (spoken_of read.0))) }
{
    let mut count = 16usize;
    while count < tokens.len() - at {
        let end = at + count;
        let front = &tokens[..end];
        if let Some((written, next)) = written_within(alloc, texts, spec, front, at)? {
            if next < end {
                return Ok(Some((written, next)));
            }
        }
        count = count.saturating_mul(2);
    }
    written_within(alloc, texts, spec, tokens, at)
}

/// The same, where all the tokens are looked at.
fn written_within<'s>(
    alloc: Global,
    texts: &'s Bump<Global>,
    spec: &'s [u8],
    tokens: &[SpecToken],
    at: usize,
) -> Result<Option<(Written<'s>, usize)>, NoMemory>
    requires within { at ≤ length tokens.now }
    requires spelled { (said : List Placed) × AreTokensOf spec.now tokens.now said }
    ensures { IfOk result (λ found. (said : List Placed) → AreTokensOf spec.now tokens.now said
        → MatchOption found (NoReading IsSpoken MayFollow (drop at (said_in said)))
        (λ read. StandsAt (said_in said) at read.1 (spoken_of read.0))) }
{
    let views = views_from(alloc, texts, spec, tokens, at)?;
    let Some((written, rest)) = read_written(texts, views.as_slice())? else {
        return Ok(None);
    };
    let next = next_behind(tokens, rest);
    Ok(Some((written, next)))
}

/// The tokens from the place on, by what they say.
fn views_from<'s>(
    alloc: Global,
    texts: &'s Bump<Global>,
    spec: &'s [u8],
    tokens: &[SpecToken],
    at: usize,
) -> Result<Vec<Token<'s>>, NoMemory>
    requires within { at ≤ length tokens.now }
    requires spelled { (said : List Placed) × AreTokensOf spec.now tokens.now said }
    ensures { IfOk result (λ views. (said : List Placed) → AreTokensOf spec.now tokens.now said
        → map seen views.items ≡ drop at (said_in said)) }
{
    let line = line_from(alloc, tokens, at)?;
    let views = tokens_in(alloc, texts, spec, &line)?;
    Ok(views)
}

/// A line of the tokens from the place on.
fn line_from(alloc: Global, tokens: &[SpecToken], at: usize) -> Result<SpecLine, NoMemory>
    requires { at ≤ length tokens.now }
    ensures tokens { IfOk result (λ line. line.tokens.items ≡ drop at tokens.now) }
    ensures number { IfOk result (λ line. line.number ≡ 1) }
    ensures bad { IfOk result (λ line. line.bad ≡ None) }
{
    let behind = &tokens[at..];
    Ok(SpecLine {
        number: 1,
        bad: None,
        tokens: Vec::from_slice(alloc, behind)?,
    })
}

/// The number of the first of these tokens, where they are the last ones.
fn next_behind(tokens: &[SpecToken], rest: &[Token<'_>]) -> usize
    ensures { result ≡ length tokens.now - length rest.now }
{
    tokens.len().saturating_sub(rest.len())
}
