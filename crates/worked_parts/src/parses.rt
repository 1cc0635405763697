// Parses of lists of tokens in print.
ghost use Rattle.std.specs.Prelude.{◌<◌, IsTrue, All};
ghost use Rattle.cfg_model.specs.LlTables.{IsLlTable};
ghost use Rattle.ell_tables.specs.Table.{answer_of, grammar_of};

use crate::lines::letter;
use crate::written::{Written, symbol_of};
use cfg_model::{LlTable, Sym};
use ck_base::NoMemory;
use ell_tables::PlainLl;
use parse_driver::{Listed, ParseError, Step, TokenRef, parse_ll};
use std::alloc::Global;

/// What stands for the text without tokens.
const EMPTY: &str = "-";

/// The parse of the text, with a token for each byte; a letter that is no terminal is a bad place.
pub(crate) fn parsed(
    alloc: Global,
    written: &Written,
    table: &PlainLl,
    text: &str,
) -> Result<String, NoMemory>
    requires { IsLlTable (grammar_of table.now) (answer_of table.now) }
{
    let mut tokens = Vec::new(alloc);
    let bytes = if text == EMPTY { "" } else { text };
    let is_bad = add_tokens(written, bytes.as_bytes(), &mut tokens)?;
    let place = u32::try_from(tokens.len()).unwrap_or(u32::MAX);
    let answer = match parse(alloc, table, &tokens, place, is_bad) {
        Ok(steps) => steps_text(alloc, written, &steps)?,
        Err(ParseError::SyntaxError { k, at }) => format!(in alloc;
            "syntax error, token {k} at {at}"
        )?,
        Err(ParseError::BadToken { at }) => format!(in alloc; "bad token at {at}")?,
        Err(ParseError::NoMemory) => return Err(NoMemory),
    };
    Ok(format!(in alloc; "{text}: {answer}")?)
}

/// Puts a token in for each byte; whether a byte that is no terminal ends them.
fn add_tokens(
    written: &Written,
    bytes: &[u8],
    tokens: &mut Vec<TokenRef>,
) -> Result<bool, NoMemory> {
    let mut from: u32 = 0;
    for byte in bytes {
        let Some(Sym::T(terminal)) = symbol_of(written, *byte) else {
            return Ok(true);
        };
        let to = from.saturating_add(1);
        tokens.push(TokenRef { terminal, from, to })?;
        from = to;
    }
    Ok(false)
}

/// The parse of the tokens, which end at a place that may be bad. No table takes a list of more
/// than 1,000,000 tokens here, or one with a number that is no terminal's.
fn parse(
    alloc: Global,
    table: &PlainLl,
    tokens: &[TokenRef],
    place: u32,
    is_bad: bool,
) -> Result<Vec<Step>, ParseError>
    requires { IsLlTable (grammar_of table.now) (answer_of table.now) }
{
    if tokens.len() > 1_000_000 || !are_below(tokens, table.terminals()) {
        return Err(ParseError::NoMemory);
    }
    if is_bad {
        parse_ll(alloc, table, &mut Listed::bad(tokens, place))
    } else {
        parse_ll(alloc, table, &mut Listed::new(tokens, place))
    }
}

/// Whether all terminals are below the number.
fn are_below(tokens: &[TokenRef], terminals: u32) -> bool
    ensures { IsTrue result → All (λ k. k.terminal < terminals) tokens.now }
{
    for token in tokens {
        if token.terminal >= terminals {
            return false;
        }
    }
    true
}

/// The steps: a letter for a token, a number for a rule.
fn steps_text(alloc: Global, written: &Written, steps: &[Step]) -> Result<String, NoMemory> {
    let mut text = String::new(alloc);
    for step in steps {
        if !text.is_empty() {
            text.push(' ')?;
        }
        match *step {
            Step::Shift(token) => text.push(letter(written.terminals, token.terminal))?,
            Step::Reduce(rule) => text.push_str(format!(in alloc; "{rule}")?.as_str())?,
        }
    }
    Ok(text)
}
