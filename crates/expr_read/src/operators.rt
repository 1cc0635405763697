// Binary operators by their signs and words, with their levels.
ghost use Rattle.std.specs.Prelude.{◌≡◌, ◌≤◌, ℕ, List, map, IsTrue, MatchOption};
ghost use Rattle.expr_lang.specs.declared.expr.Op.{Op};
ghost use Rattle.spec_text.specs.Lexemes.{sign};
ghost use Rattle.spec_text.specs.Seen.{seen};
ghost use Rattle.expr_read.specs.Notation.{glyph_of, precedence};
ghost use Rattle.expr_read.specs.within.Wholes.{IsOperator, NoOperator, NotWritten};

use expr_lang::Op;
use section_frame::is_sign;
use spec_text::Token;

/// The operator of the level with which the tokens begin, and what follows it.
pub(crate) fn operator_at<'t, 's>(
    tokens: &'t [Token<'s>],
    level: u32,
) -> Option<(Op, &'t [Token<'s>])>
    ensures { MatchOption result (NoOperator level (map seen tokens.now))
        (λ found. IsOperator level (map seen tokens.now) found.0 (map seen found.1.now)) }
{
    let (first, rest) = tokens.split_first()?;
    let op = operator_in(first)?;
    if level_of(op) == level {
        Some((op, rest))
    } else {
        None
    }
}

/// The level of an operator.
fn level_of(op: Op) -> u32
    ensures { result ≡ precedence op }
{
    match op {
        Op::Or => 1,
        Op::And => 2,
        Op::Equal | Op::Differ | Op::Less | Op::AtMost | Op::Greater | Op::AtLeast => 3,
        Op::Plus | Op::Minus => 4,
        Op::Times | Op::Quotient | Op::Remainder => 5,
    }
}

/// The operator that the token is.
fn operator_in(token: &Token<'_>) -> Option<Op>
    ensures { MatchOption result (NotWritten (seen token.now))
        (λ op. seen token.now ≡ sign (glyph_of op)) }
{
    match looser_in(token) {
        Some(op) => Some(op),
        None => tighter_in(token),
    }
}

/// The operator that the token is, where its operands are no sums.
fn looser_in(token: &Token<'_>) -> Option<Op>
    ensures { MatchOption result
        ((op : Op) → precedence op ≤ 3 → seen token.now ≡ sign (glyph_of op) → ⊥)
        (λ op. seen token.now ≡ sign (glyph_of op)) }
{
    if is_sign(token, b"||") {
        Some(Op::Or)
    } else if is_sign(token, b"&&") {
        Some(Op::And)
    } else if is_sign(token, b"==") {
        Some(Op::Equal)
    } else if is_sign(token, b"!=") {
        Some(Op::Differ)
    } else if is_sign(token, b"<") {
        Some(Op::Less)
    } else if is_sign(token, b"<=") {
        Some(Op::AtMost)
    } else if is_sign(token, b">") {
        Some(Op::Greater)
    } else if is_sign(token, b">=") {
        Some(Op::AtLeast)
    } else {
        None
    }
}

/// The operator of sums or products that the token is.
fn tighter_in(token: &Token<'_>) -> Option<Op>
    ensures { MatchOption result
        ((op : Op) → 4 ≤ precedence op → seen token.now ≡ sign (glyph_of op) → ⊥)
        (λ op. seen token.now ≡ sign (glyph_of op)) }
{
    if is_sign(token, b"+") {
        Some(Op::Plus)
    } else if is_sign(token, b"-") {
        Some(Op::Minus)
    } else if is_sign(token, b"*") {
        Some(Op::Times)
    } else if is_sign(token, b"/") {
        Some(Op::Quotient)
    } else if is_sign(token, b"%") {
        Some(Op::Remainder)
    } else {
        None
    }
}

/// Whether the level is that of comparisons, and one more of them is next.
pub(crate) fn is_compared_again(tokens: &[Token<'_>], level: u32) -> bool
    ensures yes { IsTrue result → (level ≡ 3) × (NoOperator 3 (map seen tokens.now) → ⊥) }
    ensures no { (IsTrue result → ⊥) → level ≡ 3 → NoOperator 3 (map seen tokens.now) }
{
    if level == 3 {
        match operator_at(tokens, 3) {
            Some(_) => true,
            None => false,
        }
    } else {
        false
    }
}
