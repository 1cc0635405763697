// The text of a source's tokens.
ghost use Rattle.std.specs.Prelude.{◌≡◌, ◌+◌, ◌^◌, ◌<◌, ◌++◌, length, All, IfSome, OnOk, Some, slice_get};
ghost use Rattle.rex_model.specs.RuleMeaning.{rules_of};
ghost use Rattle.rex_model.specs.TableMeaning.{tables_of};
ghost use Rattle.ck_chain.specs.Promise.{answer_in};
ghost use Rattle.ck_chain.specs.Scanning.{Scanning};
ghost use Rattle.ck_chain.specs.within.Places.{printed_place, printed_token, printed_end};
ghost use Rattle.ck_chain.specs.within.Scanners.{NameTokens, ScansBy};

use crate::refused::Refused;
use ck_base::{NoMemory, Refusal};
use quoting::{push_decimal, push_quoted};
use rex_model::{Place, Scan, ScanRules, ScanTables};
use scan_driver::next;
use std::alloc::Global;

/// The printed tokens of the source, a line each, with END at the end.
pub(crate) fn tokens_text(
    alloc: Global,
    rules: &ScanRules<'_>,
    tables: &ScanTables,
    source: &[u8],
) -> Result<Vec<u8>, Refused>
    requires scans { ScansBy (rules_of rules.now) (tables_of tables.now) }
    requires named { NameTokens rules.now }
    requires small { length source.now + 1 < 2 ^ 32 }
    ensures { IfSome (answer_in result) (Scanning (rules_of rules.now) source.now) }
{
    let mut out = Vec::new(alloc);
    let mut place = Place::START;
    let mut state = 0;
    loop {
        match next(tables, source, state, place.at) {
            Scan::Token {
                rule,
                to,
                state: after,
            } => {
                let name = token_name(rules, rule);
                push_token(&mut out, place, name, &source[place.at..to])?;
                place = place.go_to(source, to);
                state = after;
            }
            Scan::Skip {
                to,
                state: after,
                ..
            } => {
                place = place.go_to(source, to);
                state = after;
            }
            Scan::End => {
                push_end(&mut out, place)?;
                return Ok(out);
            }
            Scan::BadToken(_) => {
                return Err(Refused::Refusal(Refusal::BadToken {
                    line: place.line,
                    col: place.col,
                }));
            }
        }
    }
}

/// The name of the rule's token; empty where it has none.
fn token_name<'r>(rules: &'r ScanRules, rule: u32) -> &'r [u8]
    requires rule { rule < length rules.now.rules.items }
    requires named { NameTokens rules.now }
    ensures { IfSome (slice_get rules.now.rules.items rule)
        (λ found. IfSome found.token (λ t. slice_get rules.now.tokens t ≡ Some result.now)) }
{
    match rules.rules[rule as usize].token {
        Some(token) => rules.tokens.text_of(token),
        None => b"",
    }
}

/// Appends the line of a token at the place.
fn push_token(out: &mut Vec<u8>, place: Place, name: &[u8], text: &[u8]) -> Result<(), NoMemory>
    ensures { OnOk result
        (out.new.items ≡ out.old.items ++ printed_token place name.now text.now) }
{
    push_place(out, place)?;
    out.extend_from_slice(name)?;
    out.push(b' ')?;
    push_quoted(out, text)?;
    out.push(b'\n')?;
    Ok(())
}

/// Appends the line of END at the place.
fn push_end(out: &mut Vec<u8>, place: Place) -> Result<(), NoMemory>
    ensures { OnOk result (out.new.items ≡ out.old.items ++ printed_end place) }
{
    push_place(out, place)?;
    out.extend_from_slice(b"END\n")?;
    Ok(())
}

/// Appends line and column of the place.
fn push_place(out: &mut Vec<u8>, place: Place) -> Result<(), NoMemory>
    ensures { OnOk result (out.new.items ≡ out.old.items ++ printed_place place) }
{
    push_decimal(out, place.line as u64)?;
    out.push(b':')?;
    push_decimal(out, place.col as u64)?;
    out.push(b' ')?;
    Ok(())
}
