// The longest written expression from a place on.
ghost use Rattle.std.specs.Prelude.{◌≡◌, ◌↔◌, ℕ, map, MatchOption, IfOk, IsTrue};
ghost use Rattle.section_frame.specs.Parts.{NoReading, Reading};
ghost use Rattle.spec_text.specs.Seen.{seen};
ghost use Rattle.expr_read.specs.Notation.{IsSpoken, MayFollow};
ghost use Rattle.expr_read.specs.Writing.{spoken_of};

use crate::leaves::is_word_behind;
use crate::levels::whole;
use crate::written::Written;
use bumpalo::Bump;
use ck_base::NoMemory;
use section_frame::is_sign;
use spec_text::Token;
use std::alloc::Global;

/// The expression with which the tokens begin, and what follows it, where that may follow one.
pub fn read_written<'t, 's>(
    arena: &'s Bump<Global>,
    tokens: &'t [Token<'s>],
) -> Result<Option<(Written<'s>, &'t [Token<'s>])>, NoMemory>
    ensures reading { IfOk result (λ found. MatchOption found
        (NoReading IsSpoken MayFollow (map seen tokens.now))
        (λ read. Reading IsSpoken MayFollow (map seen tokens.now) (spoken_of read.0)
        (map seen read.1.now))) }
    ensures follows { IfOk result (λ found. MatchOption found (Unit {0})
        (λ read. MayFollow (map seen read.1.now))) }
{
    let Some((read, rest)) = whole(arena, tokens, 64)? else {
        return Ok(None);
    };
    if may_follow(rest) {
        Ok(Some((read.body, rest)))
    } else {
        Ok(None)
    }
}

/// Whether the tokens may follow an expression of a line.
fn may_follow(tokens: &[Token<'_>]) -> bool
    ensures { IsTrue result ↔ MayFollow (map seen tokens.now) }
{
    let Some((first, _)) = tokens.split_first() else {
        return true;
    };
    match first {
        Token::Word(word) => is_word_behind(word),
        Token::Sign(_) => {
            if is_sign(first, b")") {
                true
            } else if is_sign(first, b",") {
                true
            } else {
                is_sign(first, b"=>")
            }
        }
        Token::Number(_) | Token::Text(_) | Token::Class(_) => false,
    }
}
