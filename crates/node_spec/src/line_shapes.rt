// Which shape a line of the section AST has.
ghost use Rattle.std.specs.Prelude.{◌≡◌, ◌∷◌, [], ℕ, List, map, codes, MatchOption, IfOk};
ghost use Rattle.spec_text.specs.Lexemes.{Lexeme, sign, word};
ghost use Rattle.spec_text.specs.Seen.{seen};
ghost use Rattle.node_spec.specs.AstShapes.{AstSaying, AstShape, SaidItem};
ghost use Rattle.expr_read.specs.Notation.{IsSpoken};
ghost use Rattle.expr_read.specs.Spoken.{Spoken};
ghost use Rattle.node_spec.specs.within.AstSeen.{item_seen, saying_seen};
ghost use Rattle.node_spec.specs.within.LineHeads.{IsBuildHead, IsBuildLine, IsNamed, IsNodeLine, IsTypeHead, IsTypeLine};
ghost use Rattle.expr_read.specs.Writing.{spoken_of};

use crate::ast_line::{ItemText, Saying};
use crate::line_items::items_within;
use bumpalo::Bump;
use ck_base::NoMemory;
use expr_read::{Written, read_written};
use section_frame::{Shapes, after_sign, after_word, name_of};
use spec_text::Token;
use std::alloc::Global;

/// How lines of AST are written.
#[derive(Clone, Copy)]
pub(crate) struct AstLines;

impl<'s> Shapes<'s, Saying<'s>> for AstLines {
    ghost use Rattle.node_spec.specs.AstShapes.{AstSaying, AstShape};
    ghost use Rattle.node_spec.specs.within.AstSeen.{saying_seen};

    ghost Said = { AstSaying };

    ghost seen = { saying_seen };

    ghost shape = { AstShape };

    fn saying_of(
        &self,
        _alloc: Global,
        texts: &'s Bump<Global>,
        tokens: &[Token<'s>],
    ) -> Result<Option<Saying<'s>>, NoMemory> {
        if let Some(name) = name_behind(tokens, b"FAMILY") {
            return Ok(Some(Saying::Family(name)));
        }
        if let Some(name) = name_behind(tokens, b"TARGET") {
            return Ok(Some(Saying::Target(name)));
        }
        if let Some((name, base, items)) = type_line(texts, tokens)? {
            return Ok(Some(Saying::NodeType(name, base, items)));
        }
        if let Some((nonterminal, name)) = node_line(tokens) {
            return Ok(Some(Saying::Node(nonterminal, name)));
        }
        let Some((label, built)) = build_line(texts, tokens)? else {
            return Ok(None);
        };
        Ok(Some(Saying::Build(label, built)))
    }
}

/// The name that a line declares which has this word, a name, and no more.
fn name_behind<'s>(tokens: &[Token<'s>], head: &[u8]) -> Option<&'s [u8]>
    ensures { MatchOption result
        ((name : List ℕ) → IsNamed head.now (map seen tokens.now) name → ⊥)
        (λ name. IsNamed head.now (map seen tokens.now) name.now) }
{
    let rest = after_word(tokens, head)?;
    let (name, rest) = name_of(rest)?;
    if rest.is_empty() { Some(name) } else { None }
}

/// The type that a line declares: its name, its base's, its own items.
fn type_line<'s>(
    texts: &'s Bump<Global>,
    tokens: &[Token<'s>],
) -> Result<Option<(&'s [u8], &'s [u8], &'s [ItemText<'s>])>, NoMemory>
    ensures { IfOk result (λ found. MatchOption found
        ((name base : List ℕ) (items : List SaidItem)
        → IsTypeLine (map seen tokens.now) name base items → ⊥)
        (λ found. IsTypeLine (map seen tokens.now) found.0.now found.1.now
        (map item_seen found.2.now))) }
{
    let Some((name, base, inside)) = type_head(tokens) else {
        return Ok(None);
    };
    let Some(items) = items_within(texts, inside)? else {
        return Ok(None);
    };
    Ok(Some((name, base, items)))
}

/// The name of a type and its base's, and the tokens behind its parenthesis.
fn type_head<'t, 's>(tokens: &'t [Token<'s>]) -> Option<(&'s [u8], &'s [u8], &'t [Token<'s>])>
    ensures { MatchOption result
        ((name base : List ℕ) (inside : List Lexeme)
        → IsTypeHead (map seen tokens.now) name base inside → ⊥)
        (λ found. IsTypeHead (map seen tokens.now) found.0.now found.1.now
        (map seen found.2.now)) }
{
    let rest = after_word(tokens, b"TYPE")?;
    let (name, rest) = name_of(rest)?;
    let rest = after_sign(rest, b":")?;
    let (base, rest) = name_of(rest)?;
    let rest = after_sign(rest, b"(")?;
    Some((name, base, rest))
}

/// The nonterminal whose family a line declares, and that family.
fn node_line<'s>(tokens: &[Token<'s>]) -> Option<(&'s [u8], &'s [u8])>
    ensures { MatchOption result
        ((nonterminal name : List ℕ) → IsNodeLine (map seen tokens.now) nonterminal name → ⊥)
        (λ found. IsNodeLine (map seen tokens.now) found.0.now found.1.now) }
{
    let rest = after_word(tokens, b"NODE")?;
    let (nonterminal, rest) = name_of(rest)?;
    let rest = after_sign(rest, b":")?;
    let (name, rest) = name_of(rest)?;
    if rest.is_empty() {
        Some((nonterminal, name))
    } else {
        None
    }
}

/// The label whose rule a line says what to build for, and that expression.
fn build_line<'s>(
    texts: &'s Bump<Global>,
    tokens: &[Token<'s>],
) -> Result<Option<(&'s [u8], Written<'s>)>, NoMemory>
    ensures { IfOk result (λ found. MatchOption found
        ((label : List ℕ) (e : Spoken) → IsBuildLine (map seen tokens.now) label e → ⊥)
        (λ found. IsBuildLine (map seen tokens.now) found.0.now (spoken_of found.1))) }
{
    let Some((label, inside)) = build_head(tokens) else {
        return Ok(None);
    };
    let Some(built) = whole_expression(texts, inside)? else {
        return Ok(None);
    };
    Ok(Some((label, built)))
}

/// The label of a rule, and the tokens of what it builds.
fn build_head<'t, 's>(tokens: &'t [Token<'s>]) -> Option<(&'s [u8], &'t [Token<'s>])>
    ensures { MatchOption result
        ((label : List ℕ) (inside : List Lexeme)
        → IsBuildHead (map seen tokens.now) label inside → ⊥)
        (λ found. IsBuildHead (map seen tokens.now) found.0.now (map seen found.1.now)) }
{
    let rest = after_word(tokens, b"BUILD")?;
    let (label, rest) = name_of(rest)?;
    let rest = after_sign(rest, b"=")?;
    Some((label, rest))
}

/// The expression that all the tokens are.
fn whole_expression<'s>(
    texts: &'s Bump<Global>,
    tokens: &[Token<'s>],
) -> Result<Option<Written<'s>>, NoMemory>
    ensures { IfOk result (λ found. MatchOption found
        ((e : Spoken) → IsSpoken (map seen tokens.now) e [] → ⊥)
        (λ e. IsSpoken (map seen tokens.now) (spoken_of e) [])) }
{
    let Some((read, rest)) = read_written(texts, tokens)? else {
        return Ok(None);
    };
    if rest.is_empty() {
        Ok(Some(read))
    } else {
        Ok(None)
    }
}
