// Grammars written as text.
ghost use Rattle.std.specs.Prelude.{◌≡◌, ◌<◌, ◌≤◌, ◌+◌, ⊤, IsTrue, All, IfOk, MatchOption};
ghost use Rattle.cfg_model.specs.Cfg.{IsGrammar, IsSymbol};

use cfg_model::{Grammar, GrammarRule, Sym};
use ck_base::NoMemory;
use std::alloc::Global;

/// A grammar as a textbook has it: a letter for each symbol, and rules such as `S:aSb`, with blanks
/// between them. The first nonterminal is the start symbol.
#[derive(Clone, Copy)]
pub(crate) struct Written {
    pub terminals: &'static str,
    pub nonterminals: &'static str,
    pub rules: &'static str,
}

/// The grammar that is written there; none where it isn't one.
pub(crate) fn read(alloc: Global, written: &Written) -> Result<Option<Grammar>, NoMemory>
    ensures { IfOk result (λ found. MatchOption found ⊤ (λ g. IsGrammar g)) }
{
    let mut rules = Vec::new(alloc);
    for word in written.rules.split_whitespace() {
        let Some(rule) = rule_of(alloc, written, word.as_bytes())? else {
            return Ok(None);
        };
        rules.push(rule)?;
    }
    Ok(checked(Grammar {
        terminals: u32::try_from(written.terminals.len()).unwrap_or(u32::MAX),
        nonterminals: u32::try_from(written.nonterminals.len()).unwrap_or(u32::MAX),
        start: 0,
        rules,
    }))
}

/// The rule that a word writes: its left side, a colon, its right side.
fn rule_of(alloc: Global, written: &Written, word: &[u8]) -> Result<Option<GrammarRule>, NoMemory> {
    let mut right = Vec::new(alloc);
    for (place, byte) in word.iter().enumerate() {
        if place > 1 {
            let Some(symbol) = symbol_of(written, *byte) else {
                return Ok(None);
            };
            right.push(symbol)?;
        }
    }
    let Some(Sym::N(left)) = word.first().and_then(|byte| symbol_of(written, *byte)) else {
        return Ok(None);
    };
    Ok(Some(GrammarRule { left, right }))
}

/// The symbol that the letter stands for.
pub(crate) fn symbol_of(written: &Written, letter: u8) -> Option<Sym> {
    if let Some(n) = place_of(written.nonterminals.as_bytes(), letter) {
        return Some(Sym::N(n));
    }
    if let Some(t) = place_of(written.terminals.as_bytes(), letter) {
        return Some(Sym::T(t));
    }
    None
}

/// Where the letter stands first.
fn place_of(letters: &[u8], letter: u8) -> Option<u32> {
    let place = letters.iter().position(|byte| *byte == letter)?;
    u32::try_from(place).ok()
}

/// The grammar, where its numbers are in range and its counts within the limits.
pub(crate) fn checked(g: Grammar) -> Option<Grammar>
    ensures { MatchOption result ⊤ (λ g. IsGrammar g) }
{
    if is_grammar(&g) { Some(g) } else { None }
}

/// Whether numbers are in range and counts within the limits.
fn is_grammar(g: &Grammar) -> bool
    ensures { IsTrue result → IsGrammar g.now }
{
    if g.rules.len() > 1024 || g.terminals > 511 || g.nonterminals > 511 {
        return false;
    }
    if g.terminals + 1 + g.nonterminals > 512 || g.start >= g.nonterminals {
        return false;
    }
    for rule in &g.rules {
        if rule.left >= g.nonterminals || !fits(g, &rule.right) {
            return false;
        }
    }
    true
}

/// Whether each symbol is one of the grammar.
fn fits(g: &Grammar, list: &[Sym]) -> bool
    ensures { IsTrue result → All (IsSymbol g.now) list.now }
{
    for symbol in list {
        if !is_symbol(g, *symbol) {
            return false;
        }
    }
    true
}

/// Whether the symbol is one of the grammar.
fn is_symbol(g: &Grammar, symbol: Sym) -> bool
    ensures { IsTrue result → IsSymbol g.now symbol }
{
    match symbol {
        Sym::T(t) => t < g.terminals,
        Sym::N(n) => n < g.nonterminals,
    }
}
