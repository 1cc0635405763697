// Large values: chains, deep trees, many sets.
ghost use Rattle.std.specs.Prelude.{⊤, IfOk, MatchOption};
ghost use Rattle.cfg_model.specs.Cfg.{IsGrammar};

use crate::lalr::found_cores;
use crate::lines::push_line;
use crate::written::checked;
use cfg_model::{
    Grammar, GrammarRule, Sym, first, follow, nullable, productive, reachable, unproductive,
};
use ck_base::{Bits, NoMemory};
use lalr_look::lookaheads;
use std::alloc::Global;

/// Writes how many cores and lookaheads the chains of one symbol have, at the limit and past it.
pub(crate) fn show_chains(alloc: Global, out: &mut String) -> Result<(), NoMemory> {
    for size in [1, 4_094, 4_095] {
        let name = format!(in alloc; "S = X .. X, {size} times")?;
        show_size(alloc, name, chain(alloc, size)?, out)?;
    }
    Ok(())
}

/// Writes how many cores and lookaheads a grammar of 1,000 rules has.
pub(crate) fn show_thousand(alloc: Global, out: &mut String) -> Result<(), NoMemory> {
    let name = format!(in alloc; "1000 rules")?;
    show_size(alloc, name, thousand(alloc)?, out)?;
    let name = format!(in alloc; "1000 rules, the other way round")?;
    let g = upside_down(thousand(alloc)?);
    show_size(alloc, name, g, out)
}

/// Writes how many cores the grammar has, and how many lookaheads all items.
fn show_size(alloc: Global, name: String, g: Grammar, out: &mut String) -> Result<(), NoMemory> {
    let Some(g) = checked(g) else {
        return push_line(out, format!(in alloc; "{name}: no grammar")?);
    };
    if unproductive(alloc, &g)?.is_some() {
        return push_line(out, format!(in alloc; "{name}: unproductive")?);
    }
    let Some(made) = found_cores(alloc, &g)? else {
        return push_line(out, format!(in alloc; "{name}: too many")?);
    };
    let looks = lookaheads(alloc, &g, &made)?;
    let mut items: u64 = 0;
    let mut ahead: u64 = 0;
    for sets in &looks {
        for set in sets {
            items = items.saturating_add(1);
            ahead = ahead.saturating_add(numbers_in(set));
        }
    }
    push_line(
        out,
        format!(in alloc;
            "{name}: {} cores, {items} items, {ahead} lookaheads",
            made.len()
        )?,
    )
}

/// The grammar with its nonterminals numbered the other way round.
fn upside_down(g: Grammar) -> Grammar {
    let mut g = g;
    for rule in &mut g.rules {
        rule.left = LEVELS.saturating_sub(rule.left).saturating_sub(1);
        for symbol in &mut rule.right {
            if let Sym::N(n) = *symbol {
                *symbol = Sym::N(LEVELS.saturating_sub(n).saturating_sub(1));
            }
        }
    }
    g.start = LEVELS - 1;
    g.rules.reverse();
    g
}

/// How many numbers the set has.
fn numbers_in(set: &Bits) -> u64 {
    let mut count: u64 = 0;
    for word in set.words() {
        count = count.saturating_add(word.count_ones() as u64);
    }
    count
}

/// `S = X .. X` with so many `X`.
fn chain(alloc: Global, size: u32) -> Result<Grammar, NoMemory> {
    let mut right = Vec::new(alloc);
    for _ in 0..size {
        right.push(Sym::T(0))?;
    }
    let mut rules = Vec::new(alloc);
    rules.push(GrammarRule { left: 0, right })?;
    Ok(Grammar {
        terminals: 1,
        nonterminals: 1,
        start: 0,
        rules,
    })
}

/// How many nonterminals the grammar of 1,000 rules has.
const LEVELS: u32 = 250;

/// 250 levels of left associative operators: `E_n = E_n o E_n+1 | E_n p E_n+1 | E_n q E_n+1 |
/// E_n+1`, with `E_249 = i`.
fn thousand(alloc: Global) -> Result<Grammar, NoMemory> {
    let mut rules = Vec::new(alloc);
    for n in 0..LEVELS {
        for t in 0..4u32 {
            rules.push(level_rule(alloc, n, t)?)?;
        }
    }
    Ok(Grammar {
        terminals: 254,
        nonterminals: LEVELS,
        start: 0,
        rules,
    })
}

/// Rule t of level n, of which there are four.
fn level_rule(alloc: Global, n: u32, t: u32) -> Result<GrammarRule, NoMemory> {
    let mut right = Vec::new(alloc);
    let above = n.saturating_add(1);
    if above >= LEVELS {
        right.push(Sym::T(250u32.saturating_add(t)))?;
    } else if t == 3 {
        right.push(Sym::N(above))?;
    } else {
        right.push(Sym::N(n))?;
        right.push(Sym::T(n.saturating_add(t) % 250))?;
        right.push(Sym::N(above))?;
    }
    Ok(GrammarRule { left: n, right })
}

/// Writes how many numbers the sets of the grammar of 1,000 rules have.
pub(crate) fn show_thousand_sets(alloc: Global, out: &mut String) -> Result<(), NoMemory> {
    let Some(g) = checked(thousand(alloc)?) else {
        return push_line(out, format!(in alloc; "1000 rules: no grammar")?);
    };
    if unproductive(alloc, &g)?.is_some() {
        return push_line(out, format!(in alloc; "1000 rules: unproductive")?);
    }
    let empty = numbers_in(&nullable(alloc, &g)?);
    let words = numbers_in(&productive(alloc, &g)?);
    let reached = numbers_in(&reachable(alloc, &g)?);
    let begins = numbers_in_all(&first(alloc, &g)?);
    let behind = numbers_in_all(&follow(alloc, &g)?);
    push_line(
        out,
        format!(in alloc;
            "1000 rules: {empty} nullable, {words} productive, {reached} reachable, {begins} in FIRST, {behind} in FOLLOW"
        )?,
    )
}

/// How many numbers the sets have.
fn numbers_in_all(sets: &[Bits]) -> u64 {
    let mut count: u64 = 0;
    for set in sets {
        count = count.saturating_add(numbers_in(set));
    }
    count
}
