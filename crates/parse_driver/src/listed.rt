// A list of tokens as a stream.
ghost use Rattle.std.specs.Prelude.{◌≡◌, ℕ, ◌-◌, ◌↔◌, List, length, true};
ghost use Rattle.parse_driver.specs.Listed.{comes_of};
ghost use Rattle.parse_driver.specs.Stream.{Ending, finished, bad_at};
ghost use Rattle.parse_driver.specs.declared.tokens.TokenRef.{TokenRef};

use crate::tokens::{Next, TokenRef, Tokens};

/// A stream of tokens from a list.
#[derive(Drop)]
pub struct Listed<'a> {
    tokens: &'a [TokenRef],
    /// How many were drawn.
    drawn: usize,
    /// Where the list ends, in bytes of the source.
    place: u32,
    /// It ends at a bad place, and not with END.
    is_bad: bool,
}

impl<'a> Listed<'a> {
    /// The tokens of the list, with END at the place.
    pub fn new(tokens: &'a [TokenRef], place: u32) -> Listed<'a>
        ensures { (all : List TokenRef) (ending : Ending) → comes_of result all ending
            ↔ ((all ≡ tokens.now) × (ending ≡ finished place)) }
    {
        Listed {
            tokens,
            drawn: 0,
            place,
            is_bad: false,
        }
    }

    /// The tokens of the list, with a bad place behind them.
    pub fn bad(tokens: &'a [TokenRef], place: u32) -> Listed<'a>
        ensures { (all : List TokenRef) (ending : Ending) → comes_of result all ending
            ↔ ((all ≡ tokens.now) × (ending ≡ bad_at place)) }
    {
        Listed {
            tokens,
            drawn: 0,
            place,
            is_bad: true,
        }
    }
}

impl<'a> Tokens for Listed<'a> {
    ghost comes = { comes_of };

    ghost left = { λ listed. length listed.tokens.now - listed.drawn };

    ghost is_open = { λ listed. true };

    fn next(&mut self) -> Next {
        if self.drawn < self.tokens.len() {
            let token = self.tokens[self.drawn];
            self.drawn += 1;
            return Next::Token(token);
        }
        if self.is_bad {
            return Next::Bad(self.place);
        }
        Next::End(self.place)
    }
}
