// Prefix operators.
ghost use Rattle.std.specs.Prelude.{◌≡◌, List, ◌∷◌, map, MatchOption};
ghost use Rattle.spec_text.specs.Lexemes.{sign};
ghost use Rattle.section_frame.specs.Parts.{Fixed};
ghost use Rattle.spec_text.specs.Seen.{seen};
ghost use Rattle.expr_read.specs.within.Wholes.{NoPrefix, prefix_glyph};

use section_frame::is_sign;
use spec_text::Token;

/// A sign before an expression.
#[derive(Clone, Copy)]
pub(crate) enum Prefix {
    /// `-`.
    Minus,
    /// `!`.
    Not,
}

/// The prefix with which the tokens begin, and what follows it.
pub(crate) fn prefix_of<'t, 's>(tokens: &'t [Token<'s>]) -> Option<(Prefix, &'t [Token<'s>])>
    ensures { MatchOption result (NoPrefix (map seen tokens.now))
        (λ found. Fixed (sign (prefix_glyph found.0)) (map seen tokens.now)
        (map seen found.1.now)) }
{
    let (first, rest) = tokens.split_first()?;
    if is_sign(first, b"-") {
        Some((Prefix::Minus, rest))
    } else if is_sign(first, b"!") {
        Some((Prefix::Not, rest))
    } else {
        None
    }
}
