// Tokens seen with their bytes.
ghost use Rattle.std.specs.Prelude.{◌≡◌, ◌≤◌, ◌<◌, ◌↔◌, ◌∷◌, ◌++◌, [], ℕ, List, length, map, true, IfOk, MatchOption};
ghost use Rattle.std.specs.List.{list_all};
ghost use Rattle.std.specs.Str.Parse.{digits_value};
ghost use Rattle.spec_text.specs.Bytes.{is_digit};
ghost use Rattle.spec_text.specs.Classes.{set_of};
ghost use Rattle.spec_text.specs.Lexemes.{Form, class};
ghost use Rattle.spec_text.specs.Lines.{Line, said_by};
ghost use Rattle.spec_text.specs.Seen.{seen};
ghost use Rattle.spec_text.specs.Spans.{IsLineOf, bytes_from};
ghost use Rattle.spec_text.specs.Steps.{IsClassToken, IsSpelled, IsTextToken};

use crate::class::set_at;
use crate::line::SpecLine;
use crate::text::meant_in;
use crate::token::{SpecSort, SpecToken, number_in};
use bumpalo::Bump;
use ck_base::NoMemory;
use std::alloc::Global;

/// A token, by what it says.
#[derive(Clone, Copy)]
pub enum Token<'s> {
    Word(&'s [u8]),
    Number(u64),
    /// A string, by the bytes that it means.
    Text(&'s [u8]),
    /// A class, by its set of bytes: byte b is in it where bit b % 64 of word b / 64 is set.
    Class([u64; 4]),
    Sign(&'s [u8]),
}

/// The tokens of a line of the specification, by what they say. What the strings mean is put into
/// the arena.
pub fn tokens_in<'s>(
    alloc: Global,
    arena: &'s Bump<Global>,
    spec: &'s [u8],
    line: &SpecLine,
) -> Result<Vec<Token<'s>>, NoMemory>
    requires { (is : Line) × IsLineOf spec.now line.now is }
    ensures { IfOk result (λ tokens. (is : Line) → IsLineOf spec.now line.now is
        → map seen tokens.items ≡ said_by is) }
{
    let mut tokens = Vec::new(alloc);
    for token in line.tokens.as_slice() {
        tokens.push(token_at(arena, spec, *token)?)?;
    }
    Ok(tokens)
}

/// What the token at its place says.
fn token_at<'s>(
    arena: &'s Bump<Global>,
    spec: &'s [u8],
    token: SpecToken,
) -> Result<Token<'s>, NoMemory>
    requires { IsSpelled spec.now token }
    ensures { IfOk result (λ says. Form (bytes_from spec.now token.from token.to) (seen says)) }
{
    let bytes = bytes_at(spec, token);
    match token.sort {
        SpecSort::Word => Ok(Token::Word(bytes)),
        SpecSort::Number => Ok(Token::Number(value_of(bytes))),
        SpecSort::Text => Ok(Token::Text(meant_in(arena, between(bytes))?)),
        SpecSort::Class => {
            let set = set_in(bytes);
            Ok(Token::Class(set))
        }
        SpecSort::Sign => Ok(Token::Sign(bytes)),
    }
}

/// The bytes of the token at its place.
pub(crate) fn bytes_at(spec: &[u8], token: SpecToken) -> &[u8]
    requires { IsSpelled spec.now token }
    ensures { result.now ≡ bytes_from spec.now token.from token.to }
{
    &spec[token.from as usize..token.to as usize]
}

/// The bytes without the first and the last one.
fn between(bytes: &[u8]) -> &[u8]
    requires { IsTextToken bytes.now }
    ensures { bytes.now ≡ 34 ∷ (result.now ++ 34 ∷ []) }
{
    match bytes {
        [_, inside @ .., _] => inside,
        _ => bytes,
    }
}

/// The number of the digits; the greatest one where they are of a greater one.
fn value_of(digits: &[u8]) -> u64
    requires digits { list_all is_digit digits.now ≡ true }
    requires small { digits_value 10 digits.now ≤ 9223372036854775807 }
    ensures { result ≡ digits_value 10 digits.now }
{
    number_in(digits).unwrap_or(u64::MAX)
}

/// The set of the class.
fn set_in(bytes: &[u8]) -> [u64; 4]
    requires { IsClassToken bytes.now }
    ensures { Form bytes.now (class (set_of result)) }
{
    let Some(found) = set_at(&bytes[1..]) else {
        return [0; 4];
    };
    let set = found.0;
    set
}
