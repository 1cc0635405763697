// Expressions of one token, and names.
ghost use Rattle.std.specs.Prelude.{◌≡◌, ◌↔◌, ℕ, codes, List, Contains, Some, None, map, IsTrue, MatchOption, IfSome};
ghost use Rattle.spec_text.specs.Lexemes.{Lexeme, sign};
ghost use Rattle.section_frame.specs.Parts.{NotFirst};
ghost use Rattle.spec_text.specs.Seen.{seen};
ghost use Rattle.expr_read.specs.Notation.{IsName, own_words, words_behind};
ghost use Rattle.expr_read.specs.Spoken.{Spoken, nesting};
ghost use Rattle.expr_read.specs.within.Wholes.{Named, leaf_of};
ghost use Rattle.expr_read.specs.Writing.{spoken_of};

use crate::written::Written;
use section_frame::{after_sign, is_sign, is_word, name_of, number_of};
use spec_text::Token;

/// The number, truth value, string or `$` with its number with which the tokens begin, and what follows
/// it.
pub(crate) fn leaf<'t, 's>(tokens: &'t [Token<'s>]) -> Option<(Written<'s>, &'t [Token<'s>])>
    ensures reading { MatchOption result (leaf_of (map seen tokens.now) ≡ None)
        (λ found. leaf_of (map seen tokens.now)
        ≡ Some (spoken_of found.0, map seen found.1.now)) }
    ensures flat { IfSome result (λ found. nesting (spoken_of found.0) ≡ 1) }
{
    let (first, rest) = tokens.split_first()?;
    match first {
        Token::Number(n) => Some((Written::Number(*n), rest)),
        Token::Text(bytes) => Some((Written::Text(bytes), rest)),
        Token::Class(_) => None,
        Token::Word(_) => {
            if is_word(first, b"true") {
                Some((Written::Truth(true), rest))
            } else if is_word(first, b"false") {
                Some((Written::Truth(false), rest))
            } else {
                None
            }
        }
        Token::Sign(_) => {
            if is_sign(first, b"$") {
                let (n, rest) = number_of(rest)?;
                Some((Written::Dollar(n), rest))
            } else {
                None
            }
        }
    }
}

/// Whether the word is a name.
pub fn is_name(word: &[u8]) -> bool
    ensures { IsTrue result ↔ IsName word.now }
{
    if is_own_word(word) {
        false
    } else {
        !is_word_behind(word)
    }
}

/// Whether the word is one of those that expressions are written with.
fn is_own_word(word: &[u8]) -> bool
    ensures { IsTrue result ↔ Contains own_words word.now }
{
    if word == b"if".as_slice() {
        true
    } else if word == b"then".as_slice() {
        true
    } else if word == b"else".as_slice() {
        true
    } else if word == b"true".as_slice() {
        true
    } else if word == b"false".as_slice() {
        true
    } else {
        false
    }
}

/// Whether the word is one of those that may follow an expression.
pub(crate) fn is_word_behind(word: &[u8]) -> bool
    ensures { IsTrue result ↔ Contains words_behind word.now }
{
    if word == b"IF".as_slice() {
        true
    } else if word == b"LET".as_slice() {
        true
    } else if word == b"WHEN".as_slice() {
        true
    } else if word == b"COST".as_slice() {
        true
    } else if word == b"EARLY".as_slice() {
        true
    } else if word == b"EMIT".as_slice() {
        true
    } else {
        false
    }
}

/// The name alone, or the pair where `.` and another name are behind it, and what follows; nothing where
/// `.` has no name behind it.
pub(crate) fn dotted<'t, 's>(
    name: &'s [u8],
    behind: &'t [Token<'s>],
) -> Option<(Written<'s>, &'t [Token<'s>])>
    requires { NotFirst (sign (codes "(")) (map seen behind.now) }
    ensures { MatchOption result
        ((e : Spoken) (rest : List Lexeme) → Named name.now (map seen behind.now) e rest → ⊥)
        (λ found. Named name.now (map seen behind.now) (spoken_of found.0) (map seen found.1.now)
        × (nesting (spoken_of found.0) ≡ 1)) }
{
    let Some(after) = after_sign(behind, b".") else {
        return Some((Written::Name(name), behind));
    };
    let (second, rest) = name_of(after)?;
    if is_name(second) {
        Some((Written::Pair(name, second), rest))
    } else {
        None
    }
}
