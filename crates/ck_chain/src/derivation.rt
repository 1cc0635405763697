// The derivation of a source, and its text.
ghost use Rattle.std.specs.Prelude.{◌≡◌, ℕ, ◌+◌, ◌^◌, ◌<◌, List, Some, length, IfSome, MatchResult};
ghost use Rattle.rex_model.specs.RuleMeaning.{rules_of};
ghost use Rattle.rex_model.specs.Runs.{AreBytes};
ghost use Rattle.rex_model.specs.TableMeaning.{tables_of};
ghost use Rattle.parse_driver.specs.Parse.{Parses};
ghost use Rattle.parse_driver.specs.Stream.{Ending};
ghost use Rattle.parse_driver.specs.declared.tokens.TokenRef.{TokenRef};
ghost use Rattle.ck_chain.specs.Deriving.{Comes, Deriving, DerivingFails};
ghost use Rattle.ck_chain.specs.Promise.{IsParserOf, Refuses, answer_in};
ghost use Rattle.ck_chain.specs.within.Refusing.{IsPlaceIn, refused_at};
ghost use Rattle.ck_chain.specs.within.Scanners.{NameTokens, ScansBy};
ghost use Rattle.ck_chain.specs.within.Trees.{AreStepsOf};

use crate::derive_text::steps_text;
use crate::refused::Refused;
use crate::source_tokens::SourceTokens;
use crate::toolset::Parser;
use cfg_model::NamedGrammar;
use ck_base::Refusal;
use parse_driver::{ParseError, Step, parse_ll, parse_lr};
use rex_model::{Place, ScanRules, ScanTables};
use std::alloc::Global;

/// The printed derivation of the source's tokens by the grammar, or the first wrong place.
pub(crate) fn derivation_text(
    alloc: Global,
    rules: &ScanRules<'_>,
    scan: &ScanTables,
    g: &NamedGrammar,
    parser: &Parser,
    source: &[u8],
) -> Result<Vec<u8>, Refused>
    requires scans { ScansBy (rules_of rules.now) (tables_of scan.now) }
    requires named { NameTokens rules.now }
    requires parses { IsParserOf (Some g.now) parser.now }
    requires terminals { g.now.grammar.terminals ≡ length rules.now.tokens }
    requires small { length source.now + 1 < 2 ^ 32 }
    ensures { IfSome (answer_in result) (Deriving (rules_of rules.now) g.now source.now) }
{
    let steps = derivation(alloc, rules, scan, g, parser, source)?;
    let text = steps_text(alloc, &rules.tokens, &g.labels, source, steps.as_slice())?;
    Ok(text)
}

/// The steps of the derivation of the source's tokens, or the refusal for the first wrong place.
pub(crate) fn derivation(
    alloc: Global,
    rules: &ScanRules<'_>,
    scan: &ScanTables,
    g: &NamedGrammar,
    parser: &Parser,
    source: &[u8],
) -> Result<Vec<Step>, Refused>
    requires scans { ScansBy (rules_of rules.now) (tables_of scan.now) }
    requires named { NameTokens rules.now }
    requires parses { IsParserOf (Some g.now) parser.now }
    requires terminals { g.now.grammar.terminals ≡ length rules.now.tokens }
    requires small { length source.now + 1 < 2 ^ 32 }
    ensures { MatchResult result
        (λ steps. AreStepsOf (rules_of rules.now) g.now source.now steps.items)
        (Refuses (DerivingFails (rules_of rules.now) g.now source.now)) }
{
    known_bytes(source);
    match steps_of(alloc, rules, scan, g, parser, source) {
        Ok(steps) => Ok(steps),
        Err(error) => Err(wrong_place(source, error)),
    }
}

/// The refusal for a wrong place of the source, by its line and its column.
fn wrong_place(source: &[u8], error: ParseError) -> Refused
    requires place { IsPlaceIn source.now error }
    requires small { length source.now + 1 < 2 ^ 32 }
    ensures { result ≡ refused_at source.now error }
{
    match error {
        ParseError::SyntaxError { at, .. } => {
            let place = Place::START.go_to(source, at as usize);
            Refused::Refusal(Refusal::SyntaxError {
                line: place.line,
                col: place.col,
            })
        }
        ParseError::BadToken { at } => {
            let place = Place::START.go_to(source, at as usize);
            Refused::Refusal(Refusal::BadToken {
                line: place.line,
                col: place.col,
            })
        }
        ParseError::NoMemory => Refused::NoMemory,
    }
}

/// The source's numbers are bytes.
fn known_bytes(source: &[u8])
    ensures { AreBytes source.now }
{}

/// The steps of the derivation of the source's tokens, or why they have none.
fn steps_of(
    alloc: Global,
    rules: &ScanRules<'_>,
    scan: &ScanTables,
    g: &NamedGrammar,
    parser: &Parser,
    source: &[u8],
) -> Result<Vec<Step>, ParseError>
    requires scans { ScansBy (rules_of rules.now) (tables_of scan.now) }
    requires named { NameTokens rules.now }
    requires parses { IsParserOf (Some g.now) parser.now }
    requires terminals { g.now.grammar.terminals ≡ length rules.now.tokens }
    requires small { length source.now + 1 < 2 ^ 32 }
    ensures { (tokens : List TokenRef) (ending : Ending)
        → Comes (rules_of rules.now).list source.now 0 0 tokens ending
        → Parses g.now.grammar tokens ending result }
{
    known_bytes(source);
    let mut tokens = SourceTokens::new(scan, source);
    match parser {
        Parser::Ll(table) => parse_ll(alloc, table, &mut tokens),
        Parser::Lr(table) => parse_lr(alloc, table, &mut tokens),
        Parser::Nothing => unreachable!(),
    }
}
