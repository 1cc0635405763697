// Items of a type's line.
ghost use Rattle.std.specs.Prelude.{◌≡◌, ◌↔◌, ◌∷◌, [], ℕ, List, map, codes, IsTrue, MatchOption, IfOk};
ghost use Rattle.spec_text.specs.Lexemes.{Lexeme, sign};
ghost use Rattle.section_frame.specs.Parts.{ListOf, NoReading, NotFirst, Reading};
ghost use Rattle.spec_text.specs.Seen.{seen};
ghost use Rattle.node_spec.specs.AstShapes.{ItemPart, ItemsPart, SaidItem};
ghost use Rattle.node_spec.specs.within.AstSeen.{item_seen};
ghost use Rattle.node_spec.specs.within.LineHeads.{closed};

use crate::ast_line::ItemText;
use bumpalo::Bump;
use bumpalo::collections::into_bump_slice;
use ck_base::NoMemory;
use section_frame::{after_sign, is_sign, name_of};
use spec_text::Token;
use std::alloc::Global;

/// The items of a type, which end with its line's last token, `)`.
pub(crate) fn items_within<'s>(
    texts: &'s Bump<Global>,
    tokens: &[Token<'s>],
) -> Result<Option<&'s [ItemText<'s>]>, NoMemory>
    ensures { IfOk result (λ found. MatchOption found
        ((items : List SaidItem) → ItemsPart (map seen tokens.now) items closed → ⊥)
        (λ items. ItemsPart (map seen tokens.now) (map item_seen items.now) closed)) }
{
    if is_closed(tokens) {
        return Ok(Some(&[]));
    }
    let Some((items, rest)) = listed_items(texts, tokens)? else {
        return Ok(None);
    };
    if is_closed(rest) {
        Ok(Some(items))
    } else {
        Ok(None)
    }
}

/// Whether the tokens are `)` alone.
fn is_closed(tokens: &[Token<'_>]) -> bool
    ensures { IsTrue result ↔ (map seen tokens.now ≡ closed) }
{
    match tokens {
        [token] => is_sign(token, b")"),
        _ => false,
    }
}

/// One or more items with `,` between, and what follows them.
fn listed_items<'t, 's>(
    texts: &'s Bump<Global>,
    tokens: &'t [Token<'s>],
) -> Result<Option<(&'s [ItemText<'s>], &'t [Token<'s>])>, NoMemory>
    ensures { let comma = sign (codes ",") in IfOk result (λ found. MatchOption found
        (NoReading (ListOf ItemPart) (NotFirst comma) (map seen tokens.now))
        (λ list. Reading (ListOf ItemPart) (NotFirst comma) (map seen tokens.now)
        (map item_seen list.0.now) (map seen list.1.now))) }
{
    let Some((item, after)) = item_in(tokens) else {
        return Ok(None);
    };
    let mut items = Vec::new(texts);
    items.push(item)?;
    let mut rest = after;
    while let Some(behind) = after_sign(rest, b",") {
        let Some((item, after)) = item_in(behind) else {
            return Ok(None);
        };
        items.push(item)?;
        rest = after;
    }
    Ok(Some((into_bump_slice(items), rest)))
}

/// The item with which the tokens begin, and what follows it.
fn item_in<'t, 's>(tokens: &'t [Token<'s>]) -> Option<(ItemText<'s>, &'t [Token<'s>])>
    ensures { MatchOption result
        ((item : SaidItem) (rest : List Lexeme) → ItemPart (map seen tokens.now) item rest → ⊥)
        (λ found. ItemPart (map seen tokens.now) (item_seen found.0) (map seen found.1.now)) }
{
    let (name, rest) = name_of(tokens)?;
    let rest = after_sign(rest, b":")?;
    let (of, rest) = name_of(rest)?;
    Some((ItemText { name, of }, rest))
}
