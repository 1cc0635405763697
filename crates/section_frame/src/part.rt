// Parts of a line: words, signs, names, numbers, texts, and lists of names.
ghost use Rattle.std.specs.Prelude.{◌≡◌, ◌↔◌, ℕ, List, ◌∷◌, map, IsTrue, IfOk, MatchOption};
ghost use Rattle.spec_text.specs.Lexemes.{Lexeme, word, sign};
ghost use Rattle.section_frame.specs.Parts.{Fixed, ListOf, Name, NoReading, NotFirst, Number, Reading, Text, comma};
ghost use Rattle.spec_text.specs.Seen.{bytes_of, seen};

use ck_base::NoMemory;
use spec_text::Token;
use std::alloc::Global;

/// Whether the token is this word.
pub fn is_word(token: &Token<'_>, text: &[u8]) -> bool
    ensures { IsTrue result ↔ (seen token.now ≡ word text.now) }
{
    matches!(token, Token::Word(bytes) if *bytes == text)
}

/// Whether the token is this sign.
pub fn is_sign(token: &Token<'_>, text: &[u8]) -> bool
    ensures { IsTrue result ↔ (seen token.now ≡ sign text.now) }
{
    matches!(token, Token::Sign(bytes) if *bytes == text)
}

/// What follows the word with which the tokens begin.
pub fn after_word<'t, 's>(tokens: &'t [Token<'s>], text: &[u8]) -> Option<&'t [Token<'s>]>
    ensures { MatchOption result
        ((rest : List Lexeme) → Fixed (word text.now) (map seen tokens.now) rest → ⊥)
        (λ rest. Fixed (word text.now) (map seen tokens.now) (map seen rest.now)) }
{
    let (first, rest) = tokens.split_first()?;
    if is_word(first, text) {
        Some(rest)
    } else {
        None
    }
}

/// What follows the sign with which the tokens begin.
pub fn after_sign<'t, 's>(tokens: &'t [Token<'s>], text: &[u8]) -> Option<&'t [Token<'s>]>
    ensures { MatchOption result
        ((rest : List Lexeme) → Fixed (sign text.now) (map seen tokens.now) rest → ⊥)
        (λ rest. Fixed (sign text.now) (map seen tokens.now) (map seen rest.now)) }
{
    let (first, rest) = tokens.split_first()?;
    if is_sign(first, text) {
        Some(rest)
    } else {
        None
    }
}

/// The name with which the tokens begin, and what follows it.
pub fn name_of<'t, 's>(tokens: &'t [Token<'s>]) -> Option<(&'s [u8], &'t [Token<'s>])>
    ensures { MatchOption result
        ((name : List ℕ) (rest : List Lexeme) → Name (map seen tokens.now) name rest → ⊥)
        (λ found. Name (map seen tokens.now) found.0.now (map seen found.1.now)) }
{
    match tokens {
        [Token::Word(bytes), rest @ ..] => Some((bytes, rest)),
        _ => None,
    }
}

/// The number with which the tokens begin, and what follows it.
pub fn number_of<'t, 's>(tokens: &'t [Token<'s>]) -> Option<(u64, &'t [Token<'s>])>
    ensures { MatchOption result
        ((n : ℕ) (rest : List Lexeme) → Number (map seen tokens.now) n rest → ⊥)
        (λ found. Number (map seen tokens.now) found.0 (map seen found.1.now)) }
{
    match tokens {
        [Token::Number(n), rest @ ..] => Some((*n, rest)),
        _ => None,
    }
}

/// What the string means with which the tokens begin, and what follows it.
pub fn text_of<'t, 's>(tokens: &'t [Token<'s>]) -> Option<(&'s [u8], &'t [Token<'s>])>
    ensures { MatchOption result
        ((bytes : List ℕ) (rest : List Lexeme) → Text (map seen tokens.now) bytes rest → ⊥)
        (λ found. Text (map seen tokens.now) found.0.now (map seen found.1.now)) }
{
    match tokens {
        [Token::Text(bytes), rest @ ..] => Some((bytes, rest)),
        _ => None,
    }
}

/// One or more names with `,` between, and what follows them.
pub fn names_of<'t, 's>(
    alloc: Global,
    tokens: &'t [Token<'s>],
) -> Result<Option<(Vec<&'s [u8]>, &'t [Token<'s>])>, NoMemory>
    ensures { IfOk result (λ found. MatchOption found
        (NoReading (ListOf Name) (NotFirst comma) (map seen tokens.now))
        (λ list. Reading (ListOf Name) (NotFirst comma) (map seen tokens.now)
        (map bytes_of list.0.items) (map seen list.1.now))) }
{
    let Some((name, after)) = name_of(tokens) else {
        return Ok(None);
    };
    let mut names = Vec::new(alloc);
    names.push(name)?;
    let mut rest = after;
    while let Some(behind) = after_sign(rest, b",") {
        let Some((name, after)) = name_of(behind) else {
            return Ok(None);
        };
        names.push(name)?;
        rest = after;
    }
    Ok(Some((names, rest)))
}
