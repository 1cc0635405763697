// Cores, lookaheads and LALR(1) tables in print.
ghost use Rattle.std.specs.Prelude.{◌≡◌, ◌≤◌, ◌<◌, ⊤, IfOk, MatchOption, length};
ghost use Rattle.cfg_model.specs.Cfg.{IsGrammar};
ghost use Rattle.cfg_model.specs.Cores.{IsCores};
ghost use Rattle.cfg_model.specs.Sets.{AllProductive};

use crate::lines::{letter, letters_in, push_line, symbol_letter};
use crate::written::{Written, read, symbol_of};
use cfg_model::{Grammar, GrammarRule, LalrError, Sym, unproductive};
use ck_base::{Bits, NoMemory};
use lalr_look::{Cores, cores, lookaheads};
use std::alloc::Global;

/// Writes how many cores the grammar has, and of the core behind each prefix the items with their
/// united lookaheads.
pub(crate) fn show_cores(
    alloc: Global,
    written: &Written,
    prefixes: &str,
    out: &mut String,
) -> Result<(), NoMemory> {
    push_line(out, format!(in alloc; "cores of {}", written.rules)?)?;
    let Some(g) = read(alloc, written)? else {
        return push_line(out, format!(in alloc; "no grammar")?);
    };
    if unproductive(alloc, &g)?.is_some() {
        return push_line(out, format!(in alloc; "unproductive")?);
    }
    let Some(made) = found_cores(alloc, &g)? else {
        return push_line(out, format!(in alloc; "too many")?);
    };
    let looks = lookaheads(alloc, &g, &made)?;
    push_line(out, format!(in alloc; "{} cores", made.len())?)?;
    for prefix in prefixes.split_whitespace() {
        let core = core_behind(&g, written, &made, prefix);
        let line = core_text(alloc, written, &g, &made, &looks, core)?;
        push_line(out, format!(in alloc; "{prefix}{line}")?)?;
    }
    Ok(())
}

/// The cores; none where there are too many.
pub(crate) fn found_cores(alloc: Global, g: &Grammar) -> Result<Option<Cores>, NoMemory>
    requires grammar { IsGrammar g.now }
    requires productive { AllProductive g.now }
    ensures { IfOk result (λ found. MatchOption found ⊤
        (λ made. IsCores g.now made × (length made.items ≤ 4096))) }
{
    match cores(alloc, g) {
        Ok(made) => Ok(Some(made)),
        Err(LalrError::TooManyStates) => Ok(None),
        Err(_) => Err(NoMemory),
    }
}

/// The core behind the prefix, by the moves. A letter that is no symbol is passed over.
fn core_behind(g: &Grammar, written: &Written, made: &Cores, prefix: &str) -> u32
    requires cores { IsCores g.now made.now }
    requires few { length made.now.items ≤ 4096 }
{
    let mut at = 0;
    for byte in prefix.bytes() {
        if let Some(symbol) = symbol_of(written, byte) {
            if at < made.len() {
                at = target_of(made.moves(at), symbol);
            }
        }
    }
    at
}

/// Where the move over the symbol leads; the greatest number where there is none.
fn target_of(moves: &[(Sym, u32)], symbol: Sym) -> u32 {
    for (over, core) in moves {
        if *over == symbol {
            return *core;
        }
    }
    u32::MAX
}

/// The items of the core, each with its lookaheads.
fn core_text(
    alloc: Global,
    written: &Written,
    g: &Grammar,
    made: &Cores,
    looks: &[Vec<Bits>],
    core: u32,
) -> Result<String, NoMemory>
    requires { length made.now.items ≤ 4096 }
{
    let mut text = String::new(alloc);
    let Some(sets) = looks.get(core as usize) else {
        return Ok(text);
    };
    if core >= made.len() {
        return Ok(text);
    }
    for ((rule, dot), set) in made.items(core).iter().zip(sets.iter()) {
        let item = item_text(alloc, written, g, *rule, *dot)?;
        let ahead = letters_in(alloc, written.terminals, set)?;
        text.push_str(format!(in alloc; " {item} {ahead}")?.as_str())?;
    }
    Ok(text)
}

/// The item, with a point at the place of its dot. Rule 0 has no left side.
fn item_text(
    alloc: Global,
    written: &Written,
    g: &Grammar,
    rule: u32,
    dot: u32,
) -> Result<String, NoMemory> {
    let Some(found) = rule_of(g, rule) else {
        let start = letter(written.nonterminals, g.start);
        return Ok(if dot == 0 {
            format!(in alloc; ":.{start}")?
        } else {
            format!(in alloc; ":{start}.")?
        });
    };
    let mut text = format!(in alloc; "{}:", letter(written.nonterminals, found.left))?;
    for (place, symbol) in found.right.iter().enumerate() {
        if place == dot as usize {
            text.push('.')?;
        }
        text.push(symbol_letter(written, *symbol))?;
    }
    if dot as usize == found.right.len() {
        text.push('.')?;
    }
    Ok(text)
}

/// The rule of this number; rules count from 1.
fn rule_of(g: &Grammar, rule: u32) -> Option<&GrammarRule> {
    if rule == 0 {
        return None;
    }
    g.rules.get(rule as usize - 1)
}
