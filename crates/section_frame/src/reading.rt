// Parts of a line that stand more than once, or may be missing.
ghost use Rattle.std.specs.Prelude.{◌≡◌, ◌<◌, ◌∷◌, List, length, map, IfOk, MatchOption};
ghost use Rattle.spec_text.specs.Lexemes.{Lexeme};
ghost use Rattle.section_frame.specs.Parts.{ListOf, NoReading, Opt, Reading, comma};
ghost use Rattle.spec_text.specs.Seen.{seen as token_seen};
ghost use Rattle.section_frame.specs.Read.{EndsList, EndsParts, GainsPart, Rep, perhaps};

use crate::part::after_sign;
use ck_base::NoMemory;
use spec_text::Token;
use std::alloc::Global;

/// How a part of a line is read.
pub trait ReadPart<'s> {
    ghost use Rattle.std.specs.Prelude.{◌≡◌, ◌<◌, List, length, map, IfOk, MatchOption};
    ghost use Rattle.spec_text.specs.Lexemes.{Lexeme};
    ghost use Rattle.section_frame.specs.Parts.{NoReading, Reading};
    ghost use Rattle.spec_text.specs.Seen.{seen as token_seen};

    /// What the program reads.
    type Out: Drop;

    /// What a part says.
    ghost Said: { Type 0 };

    /// What the program's part says.
    ghost seen: { Self.Out → Said };

    /// The part.
    ghost part: { List Lexeme → Said → List Lexeme → Type 0 };

    /// What may follow it.
    ghost follow: { List Lexeme → Type 0 };

    /// The part with which the tokens begin, and what follows it.
    fn read<'t>(
        &self,
        alloc: Global,
        tokens: &'t [Token<'s>],
    ) -> Result<Option<(Self::Out, &'t [Token<'s>])>, NoMemory>
        ensures read { IfOk result (λ found. MatchOption found
            (NoReading part follow (map token_seen tokens.now))
            (λ p. Reading part follow (map token_seen tokens.now) (seen p.0)
            (map token_seen p.1.now))) }
        ensures less { IfOk result (λ found. MatchOption found (tokens.now ≡ tokens.now)
            (λ p. length p.1.now < length tokens.now)) };
}

/// One or more parts with `,` between, and what follows them. A comma may follow a part.
pub fn listed<'t, 's, P: ReadPart<'s>>(
    alloc: Global,
    tokens: &'t [Token<'s>],
    part: &P,
) -> Result<Option<(Vec<P::Out>, &'t [Token<'s>])>, NoMemory>
    requires { (rest : List Lexeme) → P.follow (comma ∷ rest) }
    ensures read { IfOk result (λ found. MatchOption found
        (NoReading (ListOf P.part) (EndsList P.follow) (map token_seen tokens.now))
        (λ list. Reading (ListOf P.part) (EndsList P.follow) (map token_seen tokens.now)
        (map P.seen list.0.items) (map token_seen list.1.now))) }
    ensures less { IfOk result (λ found. MatchOption found (tokens.now ≡ tokens.now)
        (λ list. length list.1.now < length tokens.now)) }
{
    let Some((first, after)) = part.read(alloc, tokens)? else {
        return Ok(None);
    };
    let mut parts = Vec::new(alloc);
    parts.push(first)?;
    let mut rest = after;
    while let Some(behind) = after_sign(rest, b",") {
        let Some((next, after)) = part.read(alloc, behind)? else {
            return Ok(None);
        };
        parts.push(next)?;
        rest = after;
    }
    Ok(Some((parts, rest)))
}

/// None or more parts, one after the other, and what follows them. A part may follow a part.
pub fn repeated<'t, 's, P: ReadPart<'s>>(
    alloc: Global,
    tokens: &'t [Token<'s>],
    part: &P,
) -> Result<(Vec<P::Out>, &'t [Token<'s>]), NoMemory>
    requires { (tokens rest : List Lexeme) (v : P.Said) → P.part tokens v rest
        → P.follow tokens }
    ensures { IfOk result (λ list. Reading (Rep P.part) (EndsParts P.part P.follow)
        (map token_seen tokens.now)
        (map P.seen list.0.items) (map token_seen list.1.now)) }
{
    let mut parts = Vec::new(alloc);
    let Some(first) = put_part(alloc, tokens, part, &mut parts)? else {
        return Ok((parts, tokens));
    };
    let mut rest = first;
    while let Some(after) = put_part(alloc, rest, part, &mut parts)? {
        rest = after;
    }
    Ok((parts, rest))
}

/// What follows the part with which the tokens begin; the part is put behind the others.
fn put_part<'t, 's, P: ReadPart<'s>>(
    alloc: Global,
    tokens: &'t [Token<'s>],
    part: &P,
    parts: &mut Vec<P::Out>,
) -> Result<Option<&'t [Token<'s>]>, NoMemory>
    ensures read { IfOk result (λ found. MatchOption found
        (NoReading P.part P.follow (map token_seen tokens.now)
        × (map P.seen parts.new.items ≡ map P.seen parts.old.items))
        (λ rest. GainsPart P.part P.follow (map token_seen tokens.now) (map token_seen rest.now)
        (map P.seen parts.old.items) (map P.seen parts.new.items))) }
    ensures less { IfOk result (λ found. MatchOption found (tokens.now ≡ tokens.now)
        (λ rest. length rest.now < length tokens.now)) }
{
    let Some((one, rest)) = part.read(alloc, tokens)? else {
        return Ok(None);
    };
    parts.push(one)?;
    Ok(Some(rest))
}

/// The part, if the tokens begin with it, and what follows it.
pub fn optional<'t, 's, P: ReadPart<'s>>(
    alloc: Global,
    tokens: &'t [Token<'s>],
    part: &P,
) -> Result<(Option<P::Out>, &'t [Token<'s>]), NoMemory>
    ensures { IfOk result (λ found. Reading (Opt P.part) (EndsParts P.part P.follow)
        (map token_seen tokens.now)
        (perhaps P.seen found.0) (map token_seen found.1.now)) }
{
    match part.read(alloc, tokens)? {
        Some((one, after)) => Ok((Some(one), after)),
        None => Ok((None, tokens)),
    }
}
