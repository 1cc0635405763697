// Lines of the section REX by their shapes.
ghost use Rattle.std.specs.Prelude.{◌≡◌, ℕ, List, map, MatchOption, IfOk};
ghost use Rattle.spec_text.specs.Seen.{seen as token_seen};
ghost use Rattle.front_spec.specs.RexShapes.{StateLine};

use crate::rule::{DeclaredRule, rule_line};
use bumpalo::Bump;
use ck_base::NoMemory;
use section_frame::{Shapes, after_word, name_of};
use spec_text::Token;
use std::alloc::Global;

/// What a line of REX declares.
#[derive(Drop)]
pub(crate) enum Says<'a, 's> {
    State(&'s [u8]),
    Rule(DeclaredRule<'a, 's>),
}

/// How lines of REX are written; their expressions are put into the arena.
#[derive(Clone, Copy)]
pub(crate) struct Declarations<'a> {
    pub arena: &'a Bump<Global>,
}

impl<'a, 's> Shapes<'s, Says<'a, 's>> for Declarations<'a> {
    ghost use Rattle.front_spec.specs.RexShapes.{RexShape, Saying};
    ghost use Rattle.front_spec.specs.Seen.{saying};

    ghost Said = { Saying };

    ghost seen = { saying };

    ghost shape = { RexShape };

    fn saying_of(
        &self,
        alloc: Global,
        _texts: &'s Bump<Global>,
        tokens: &[Token<'s>],
    ) -> Result<Option<Says<'a, 's>>, NoMemory> {
        if let Some(name) = state_line(tokens) {
            return Ok(Some(Says::State(name)));
        }
        let Some(rule) = rule_line(alloc, self.arena, tokens)? else {
            return Ok(None);
        };
        Ok(Some(Says::Rule(rule)))
    }
}

/// The state that the line declares.
fn state_line<'s>(tokens: &[Token<'s>]) -> Option<&'s [u8]>
    ensures { MatchOption result
        ((name : List ℕ) → StateLine (map token_seen tokens.now) name → ⊥)
        (λ name. StateLine (map token_seen tokens.now) name.now) }
{
    let rest = after_word(tokens, b"STATE")?;
    let (name, rest) = name_of(rest)?;
    if rest.is_empty() { Some(name) } else { None }
}
