// Lines of a grammar section as productions, by their shape.
ghost use Rattle.std.specs.Prelude.{◌≡◌, ℕ, List, map, MatchOption, IfOk};
ghost use Rattle.spec_text.specs.Lexemes.{Lexeme, word};
ghost use Rattle.spec_text.specs.Seen.{bytes_of, seen as token_seen};
ghost use Rattle.front_spec.specs.GrammarShapes.{ProductionLine, SaidProduction};
ghost use Rattle.front_spec.specs.GrammarSteps.{IsHeadOf, produced};

use bumpalo::Bump;
use ck_base::NoMemory;
use section_frame::{Shapes, after_sign, after_word, name_of};
use spec_text::Token;
use std::alloc::Global;

/// The rule that a line declares.
#[derive(Drop)]
pub(crate) struct Production<'s> {
    pub label: &'s [u8],
    pub left: &'s [u8],
    pub right: Vec<&'s [u8]>,
}

/// How lines of a grammar are written.
#[derive(Clone, Copy)]
pub(crate) struct Productions;

impl<'s> Shapes<'s, Production<'s>> for Productions {
    ghost use Rattle.front_spec.specs.GrammarShapes.{ProductionLine, SaidProduction};
    ghost use Rattle.front_spec.specs.GrammarSteps.{produced};

    ghost Said = { SaidProduction };

    ghost seen = { produced };

    ghost shape = { ProductionLine };

    fn saying_of(
        &self,
        alloc: Global,
        _texts: &'s Bump<Global>,
        tokens: &[Token<'s>],
    ) -> Result<Option<Production<'s>>, NoMemory> {
        let Some((label, left, rest)) = head_of(tokens) else {
            return Ok(None);
        };
        let Some(right) = all_names(alloc, rest)? else {
            return Ok(None);
        };
        Ok(Some(Production { label, left, right }))
    }
}

/// The label and the left side of a rule, and the tokens of its right side.
fn head_of<'t, 's>(tokens: &'t [Token<'s>]) -> Option<(&'s [u8], &'s [u8], &'t [Token<'s>])>
    ensures { MatchOption result
        ((label left : List ℕ) (rest : List Lexeme)
        → IsHeadOf (map token_seen tokens.now) label left rest → ⊥)
        (λ found. IsHeadOf (map token_seen tokens.now) found.0.now found.1.now
        (map token_seen found.2.now)) }
{
    let rest = after_word(tokens, b"RULE")?;
    let (label, rest) = name_of(rest)?;
    let rest = after_sign(rest, b":")?;
    let (left, rest) = name_of(rest)?;
    let rest = after_sign(rest, b"=")?;
    Some((label, left, rest))
}

/// The names that the tokens are; `None` where one isn't a name.
fn all_names<'s>(alloc: Global, tokens: &[Token<'s>]) -> Result<Option<Vec<&'s [u8]>>, NoMemory>
    ensures { IfOk result (λ found. MatchOption found
        ((names : List (List ℕ)) → map token_seen tokens.now ≡ map word names → ⊥)
        (λ names. map token_seen tokens.now ≡ map word (map bytes_of names.items))) }
{
    let mut names = Vec::new(alloc);
    for token in tokens {
        let Some(name) = name_in(token) else {
            return Ok(None);
        };
        names.push(name)?;
    }
    Ok(Some(names))
}

/// The name that the token is.
fn name_in<'s>(token: &Token<'s>) -> Option<&'s [u8]>
    ensures { MatchOption result ((name : List ℕ) → token_seen token.now ≡ word name → ⊥)
        (λ name. token_seen token.now ≡ word name.now) }
{
    match token {
        Token::Word(name) => Some(name),
        _ => None,
    }
}
