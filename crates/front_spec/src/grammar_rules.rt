// Rules of a grammar over numbered symbols.
ghost use Rattle.std.specs.Prelude.{◌≡◌, ℕ, List, map, IfOk};
ghost use Rattle.spec_text.specs.Seen.{bytes_of};
ghost use Rattle.front_spec.specs.GrammarRules.{known_number, production_by, symbol_by};
ghost use Rattle.section_frame.specs.Passes.{judged_by};
ghost use Rattle.front_spec.specs.GrammarSteps.{produced};

use crate::production::Production;
use cfg_model::{GrammarRule, Sym};
use ck_base::{Names, NoMemory};
use section_frame::Numbered;
use std::alloc::Global;

/// The rules by the numbers of their symbols.
pub(crate) fn grammar_rules(
    alloc: Global,
    tokens: &Names,
    nonterminals: &Names,
    list: &[Numbered<Production<'_>>],
) -> Result<Vec<GrammarRule>, NoMemory>
    ensures { IfOk result (λ rules. rules.items
        ≡ map (λ d. production_by tokens.now nonterminals.now d.said)
        (map (judged_by produced) list.now)) }
{
    let mut rules = Vec::new(alloc);
    for item in list {
        rules.push(rule_of(alloc, tokens, nonterminals, &item.says)?)?;
    }
    Ok(rules)
}

/// The rule by the numbers of its symbols.
fn rule_of(
    alloc: Global,
    tokens: &Names,
    nonterminals: &Names,
    item: &Production<'_>,
) -> Result<GrammarRule, NoMemory>
    ensures { IfOk result (λ rule.
        rule ≡ production_by tokens.now nonterminals.now (produced item.now)) }
{
    let right = symbols_of(alloc, tokens, nonterminals, item.right.as_slice())?;
    Ok(GrammarRule {
        left: known_number(nonterminals, item.left),
        right,
    })
}

/// The symbols of the names.
fn symbols_of(
    alloc: Global,
    tokens: &Names,
    nonterminals: &Names,
    names: &[&[u8]],
) -> Result<Vec<Sym>, NoMemory>
    ensures { IfOk result (λ symbols. symbols.items
        ≡ map (symbol_by tokens.now nonterminals.now) (map bytes_of names.now)) }
{
    let mut symbols = Vec::new(alloc);
    for name in names {
        symbols.push(symbol_of(tokens, nonterminals, name))?;
    }
    Ok(symbols)
}

/// The symbol of the name: the token that is so called, else the nonterminal.
fn symbol_of(tokens: &Names, nonterminals: &Names, name: &[u8]) -> Sym
    ensures { result ≡ symbol_by tokens.now nonterminals.now name.now }
{
    match tokens.find(name) {
        Some(token) => Sym::T(token),
        None => Sym::N(known_number(nonterminals, name)),
    }
}

/// The number of the name; 0 where it isn't there.
fn known_number(names: &Names, name: &[u8]) -> u32
    ensures { result ≡ known_number names.now name.now }
{
    names.find(name).unwrap_or(0)
}
