// Which shape a line of the section AG has.
ghost use Rattle.std.specs.Prelude.{◌≡◌, ◌∷◌, ◌++◌, [], ℕ, Bool, List, map, codes, MatchOption, IfOk};
ghost use Rattle.spec_text.specs.Lexemes.{Lexeme, sign, word};
ghost use Rattle.spec_text.specs.Seen.{seen as token_seen};
ghost use Rattle.expr_read.specs.Mentions.{Named};
ghost use Rattle.expr_read.specs.Notation.{IsSpoken};
ghost use Rattle.expr_read.specs.Spoken.{Spoken};
ghost use Rattle.expr_read.specs.Writing.{named_by, spoken_of};
ghost use Rattle.ag_spec.specs.AgShapes.{AttributeLine, EquationLine, SaidAttribute, SaidEquation, TargetPart, name_text, sort_word};
ghost use Rattle.ag_spec.specs.within.AgSeen.{attribute_seen, equation_seen};
ghost use Rattle.ag_spec.specs.within.LineHeads.{IsAttributeHead, IsEquationHead, equals};

use crate::line::{AttributeText, EquationText, Saying};
use bumpalo::Bump;
use bumpalo::collections::into_bump_slice;
use ck_base::NoMemory;
use expr_read::{Mention, Written, read_written};
use section_frame::{Shapes, after_sign, after_word, name_of};
use spec_text::Token;
use std::alloc::Global;

/// How lines of AG are written.
#[derive(Clone, Copy)]
pub(crate) struct AgLines;

impl<'s> Shapes<'s, Saying<'s>> for AgLines {
    ghost use Rattle.ag_spec.specs.AgShapes.{AgSaying, AgShape};
    ghost use Rattle.ag_spec.specs.within.AgSeen.{saying_seen};

    ghost Said = { AgSaying };

    ghost seen = { saying_seen };

    ghost shape = { AgShape };

    fn saying_of(
        &self,
        _alloc: Global,
        texts: &'s Bump<Global>,
        tokens: &[Token<'s>],
    ) -> Result<Option<Saying<'s>>, NoMemory> {
        if let Some(declared) = attribute_line(texts, tokens)? {
            return Ok(Some(Saying::Attribute(declared)));
        }
        let Some(given) = equation_line(texts, tokens)? else {
            return Ok(None);
        };
        Ok(Some(Saying::Equation(given)))
    }
}

/// The attribute that a line declares.
fn attribute_line<'s>(
    texts: &'s Bump<Global>,
    tokens: &[Token<'s>],
) -> Result<Option<AttributeText<'s>>, NoMemory>
    ensures { IfOk result (λ found. MatchOption found
        ((said : SaidAttribute) → AttributeLine (map token_seen tokens.now) said → ⊥)
        (λ line. AttributeLine (map token_seen tokens.now) (attribute_seen line))) }
{
    let Some((family, name, of, synthesized)) = attribute_head(tokens) else {
        return Ok(None);
    };
    let called = joined(texts, family, b'.', name)?;
    Ok(Some(AttributeText {
        family,
        name,
        called,
        of,
        synthesized,
    }))
}

/// The names of an attribute's family, its own and its type's, and whether it is synthesized.
fn attribute_head<'s>(tokens: &[Token<'s>]) -> Option<(&'s [u8], &'s [u8], &'s [u8], bool)>
    ensures { MatchOption result
        ((family name of : List ℕ) (synthesized : Bool)
        → IsAttributeHead (map token_seen tokens.now) family name of synthesized → ⊥)
        (λ found. IsAttributeHead (map token_seen tokens.now) found.0.now found.1.now
        found.2.now found.3) }
{
    let rest = after_word(tokens, b"ATTR")?;
    let (family, rest) = name_of(rest)?;
    let rest = after_sign(rest, b".")?;
    let (name, rest) = name_of(rest)?;
    let rest = after_sign(rest, b":")?;
    let (of, rest) = name_of(rest)?;
    let synthesized = sort_of(rest)?;
    Some((family, name, of, synthesized))
}

/// Whether an attribute is synthesized, by the one token that is left.
fn sort_of(tokens: &[Token<'_>]) -> Option<bool>
    ensures { MatchOption result
        ((synthesized : Bool) → map token_seen tokens.now ≡ word (sort_word synthesized) ∷ [] → ⊥)
        (λ synthesized. map token_seen tokens.now ≡ word (sort_word synthesized) ∷ []) }
{
    let (sort, rest) = name_of(tokens)?;
    if !rest.is_empty() {
        return None;
    }
    sort_named(sort)
}

/// Whether the word says that an attribute is synthesized, or that it is inherited.
fn sort_named(sort: &[u8]) -> Option<bool>
    ensures { MatchOption result
        ((synthesized : Bool) → sort.now ≡ sort_word synthesized → ⊥)
        (λ synthesized. sort.now ≡ sort_word synthesized) }
{
    if sort == b"SYN".as_slice() {
        return Some(true);
    }
    if sort == b"INH".as_slice() {
        return Some(false);
    }
    None
}

/// The equation that a line declares.
fn equation_line<'s>(
    texts: &'s Bump<Global>,
    tokens: &[Token<'s>],
) -> Result<Option<EquationText<'s>>, NoMemory>
    ensures { IfOk result (λ found. MatchOption found
        ((said : SaidEquation) → EquationLine (map token_seen tokens.now) said → ⊥)
        (λ line. EquationLine (map token_seen tokens.now) (equation_seen line))) }
{
    let Some((holder, behind)) = equation_head(tokens) else {
        return Ok(None);
    };
    let Some((target, inside)) = target_of(behind) else {
        return Ok(None);
    };
    let Some(value) = whole_expression(texts, inside)? else {
        return Ok(None);
    };
    let called = equation_name(texts, holder, &target)?;
    Ok(Some(EquationText {
        holder,
        target,
        called,
        value,
    }))
}

/// The holder of an equation, and what follows its colon.
fn equation_head<'t, 's>(tokens: &'t [Token<'s>]) -> Option<(&'s [u8], &'t [Token<'s>])>
    ensures { MatchOption result
        ((holder : List ℕ) (behind : List Lexeme)
        → IsEquationHead (map token_seen tokens.now) holder behind → ⊥)
        (λ found. IsEquationHead (map token_seen tokens.now) found.0.now
        (map token_seen found.1.now)) }
{
    let rest = after_word(tokens, b"EQ")?;
    let (holder, rest) = name_of(rest)?;
    let rest = after_sign(rest, b":")?;
    Some((holder, rest))
}

/// The attribute that an equation gives, and what follows the sign behind it.
fn target_of<'t, 's>(tokens: &'t [Token<'s>]) -> Option<(Mention<'s>, &'t [Token<'s>])>
    ensures { MatchOption result
        ((target : Named) (inside : List Lexeme)
        → TargetPart (map token_seen tokens.now) target (equals inside) → ⊥)
        (λ found. TargetPart (map token_seen tokens.now) (named_by found.0)
        (equals (map token_seen found.1.now))) }
{
    let (first, rest) = name_of(tokens)?;
    if let Some(inside) = after_sign(rest, b"=") {
        return Some((Mention::Name(first), inside));
    }
    let rest = after_sign(rest, b".")?;
    let (second, rest) = name_of(rest)?;
    let inside = after_sign(rest, b"=")?;
    Some((Mention::Pair(first, second), inside))
}

/// The expression that all the tokens are.
fn whole_expression<'s>(
    texts: &'s Bump<Global>,
    tokens: &[Token<'s>],
) -> Result<Option<Written<'s>>, NoMemory>
    ensures { IfOk result (λ found. MatchOption found
        ((e : Spoken) → IsSpoken (map token_seen tokens.now) e [] → ⊥)
        (λ e. IsSpoken (map token_seen tokens.now) (spoken_of e) [])) }
{
    let Some((read, rest)) = read_written(texts, tokens)? else {
        return Ok(None);
    };
    if rest.is_empty() {
        Ok(Some(read))
    } else {
        Ok(None)
    }
}

/// The holder's name and what the equation gives, with a colon between.
fn equation_name<'s>(
    texts: &'s Bump<Global>,
    holder: &[u8],
    target: &Mention<'s>,
) -> Result<&'s [u8], NoMemory>
    ensures { IfOk result (λ text. text.now ≡ holder.now ++ 58 ∷ name_text (named_by target.now)) }
{
    match target {
        Mention::Pair(child, name) => {
            let target = joined(texts, child, b'.', name)?;
            joined(texts, holder, b':', target)
        }
        Mention::Name(name) => joined(texts, holder, b':', name),
        Mention::Dollar(_) => joined(texts, holder, b':', &[]),
    }
}

/// Two texts with a byte between.
fn joined<'s>(
    texts: &'s Bump<Global>,
    before: &[u8],
    sign: u8,
    after: &[u8],
) -> Result<&'s [u8], NoMemory>
    ensures { IfOk result (λ text. text.now ≡ before.now ++ sign ∷ after.now) }
{
    let mut text = Vec::new(texts);
    text.extend_from_slice(before)?;
    text.push(sign)?;
    text.extend_from_slice(after)?;
    Ok(into_bump_slice(text))
}
