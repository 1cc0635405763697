// The parser of a grammar, by its class, or the refusal of its tables.
ghost use Rattle.std.specs.Prelude.{◌≡◌, Some, true, false, IfOk, IfErr, option_map};
ghost use Rattle.cfg_model.specs.Cfg.{IsGrammar};
ghost use Rattle.ck_chain.specs.GrammarAccepts.{HasNoTable, HasTable, ell_refusal, label_of, lalr_refusal};
ghost use Rattle.ck_chain.specs.Promise.{IsParserOf, Refuses};
ghost use Rattle.ck_chain.specs.within.Grammars.{HasTableIf, IsInRange, RefusesTable};

use crate::naming::{label_at, name_at, terminal_at};
use crate::refused::Refused;
use crate::toolset::Parser;
use cfg_model::{LalrError, NamedGrammar};
use ck_base::{Name, Names, NoMemory, Refusal, StateKind};
use ell_tables::EllError;
use std::alloc::Global;

/// The parser of the grammar, by its kind, or the first reason in order why there is none. `tokens`
/// are the names of the terminals.
pub(crate) fn parser_of(
    alloc: Global,
    tokens: &Names,
    grammar: &Option<NamedGrammar>,
) -> Result<Parser, Refused>
    requires { IsInRange grammar.now }
    ensures parser { IfOk result (IsParserOf grammar.now) }
    ensures has { IfOk result (λ _. HasTableIf grammar.now) }
    ensures refused { IfErr result (RefusesTable tokens.now grammar.now) }
{
    match grammar {
        None => Ok(Parser::Nothing),
        Some(g) => {
            let parser = if g.ell {
                ll_parser(alloc, tokens, g)?
            } else {
                lr_parser(alloc, tokens, g)?
            };
            Ok(parser)
        }
    }
}

/// The LL(1) table of the grammar.
fn ll_parser(alloc: Global, tokens: &Names, g: &NamedGrammar) -> Result<Parser, Refused>
    requires grammar { IsGrammar g.now.grammar }
    requires kind { g.now.ell ≡ true }
    ensures parser { IfOk result (IsParserOf (Some g.now)) }
    ensures has { IfOk result (λ _. HasTable g.now) }
    ensures refused { IfErr result (Refuses (HasNoTable tokens.now g.now)) }
{
    match ell_tables::build(alloc, &g.grammar) {
        Ok(table) => Ok(Parser::Ll(table)),
        Err(error) => {
            let refusal = ell_refusal_of(alloc, tokens, g, error)?;
            Err(Refused::Refusal(refusal))
        }
    }
}

/// The LALR(1) table of the grammar.
fn lr_parser(alloc: Global, tokens: &Names, g: &NamedGrammar) -> Result<Parser, Refused>
    requires grammar { IsGrammar g.now.grammar }
    requires kind { g.now.ell ≡ false }
    ensures parser { IfOk result (IsParserOf (Some g.now)) }
    ensures has { IfOk result (λ _. HasTable g.now) }
    ensures refused { IfErr result (Refuses (HasNoTable tokens.now g.now)) }
{
    match lalr_tables::build(alloc, &g.grammar) {
        Ok(table) => Ok(Parser::Lr(table)),
        Err(error) => {
            let refusal = lalr_refusal_of(alloc, tokens, g, error)?;
            Err(Refused::Refusal(refusal))
        }
    }
}

/// The refusal of a grammar without an LL(1) table, by its names.
fn ell_refusal_of(
    alloc: Global,
    tokens: &Names,
    g: &NamedGrammar,
    error: EllError,
) -> Result<Refusal, NoMemory>
    ensures { IfOk result (λ refusal. ell_refusal tokens.now g.now error ≡ Some refusal) }
{
    match error {
        EllError::Unproductive(n) => {
            let name = Name::from_bytes(alloc, name_at(&g.nonterminals, n))?;
            Ok(Refusal::Unproductive { name })
        }
        EllError::LeftRecursive(n) => {
            let name = Name::from_bytes(alloc, name_at(&g.nonterminals, n))?;
            Ok(Refusal::LeftRecursive { name })
        }
        EllError::LlConflict {
            nonterminal,
            rule,
            other,
            terminal,
        } => {
            let name = Name::from_bytes(alloc, name_at(&g.nonterminals, nonterminal))?;
            let rule = Name::from_bytes(alloc, label_at(&g.labels, rule))?;
            let other = Name::from_bytes(alloc, label_at(&g.labels, other))?;
            let terminal = Name::from_bytes(alloc, terminal_at(tokens, terminal))?;
            Ok(Refusal::LlConflict {
                name,
                rule,
                other,
                terminal,
            })
        }
        EllError::NoMemory => Err(NoMemory),
    }
}

/// The refusal of a grammar without an LALR(1) table, by its names.
fn lalr_refusal_of(
    alloc: Global,
    tokens: &Names,
    g: &NamedGrammar,
    error: LalrError,
) -> Result<Refusal, NoMemory>
    ensures { IfOk result (λ refusal. lalr_refusal tokens.now g.now error ≡ Some refusal) }
{
    match error {
        LalrError::Unproductive(n) => {
            let name = Name::from_bytes(alloc, name_at(&g.nonterminals, n))?;
            Ok(Refusal::Unproductive { name })
        }
        LalrError::Cyclic(n) => {
            let name = Name::from_bytes(alloc, name_at(&g.nonterminals, n))?;
            Ok(Refusal::Cyclic { name })
        }
        LalrError::HiddenLeft(n) => {
            let name = Name::from_bytes(alloc, name_at(&g.nonterminals, n))?;
            Ok(Refusal::HiddenLeft { name })
        }
        LalrError::TooManyStates => Ok(Refusal::TooManyStates {
            kind: StateKind::Parser,
        }),
        LalrError::LalrConflict {
            terminal,
            rule,
            other,
        } => {
            let terminal = Name::from_bytes(alloc, terminal_at(tokens, terminal))?;
            let rule = Name::from_bytes(alloc, label_at(&g.labels, rule))?;
            let other = label_if(alloc, &g.labels, other)?;
            Ok(Refusal::LalrConflict {
                terminal,
                rule,
                other,
            })
        }
        LalrError::NoMemory => Err(NoMemory),
    }
}

/// The label of the rule, if there is one.
fn label_if(alloc: Global, labels: &Names, rule: Option<u32>) -> Result<Option<Name>, NoMemory>
    ensures { IfOk result (λ label. label ≡ option_map (label_of labels.now) rule) }
{
    match rule {
        Some(rule) => {
            let label = Name::from_bytes(alloc, label_at(labels, rule))?;
            Ok(Some(label))
        }
        None => Ok(None),
    }
}
