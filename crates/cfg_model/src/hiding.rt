// Hidden left recursion: a nonterminal behind a part that can vanish at the left of its own rules.
ghost use Rattle.std.specs.Prelude.{◌≡◌, ◌<◌, ℕ, IfOk, IsTrue, All, false};
ghost use Rattle.ck_base.specs.BitSet.{Has};
ghost use Rattle.cfg_model.specs.Cfg.{IsGrammar, IsSymbol};
ghost use Rattle.cfg_model.specs.Rows.{In, AreRows};
ghost use Rattle.cfg_model.specs.Searches.{HiddenLeft, IsLeast};
ghost use Rattle.cfg_model.specs.Sets.{Reachable};
ghost use Rattle.cfg_model.specs.within.Closing.{AreMakers};
ghost use Rattle.cfg_model.specs.within.Hiding.{Meets, FrontMeets, IsBelowIn, AreHidden, IsHiddenIn};
ghost use Rattle.cfg_model.specs.within.Trailers.{JoinsRows};

use crate::closing::{nullable, passes};
use crate::first_sets::{add_at, empty_rows};
use crate::grammar::{Grammar, GrammarRule};
use crate::least::least_in_own_row;
use crate::met::{left_edges, run_rows};
use crate::reach::reachable;
use crate::rows::{join_row, spread};
use crate::symbol::Sym;
use ck_base::{Bits, NoMemory};
use std::alloc::Global;

/// The least reachable nonterminal that derives, in one or more steps, a list in which it stands behind
/// what isn't empty and vanishes.
pub fn hidden_left(alloc: Global, g: &Grammar) -> Result<Option<u32>, NoMemory>
    requires { IsGrammar g.now }
    ensures { IfOk result (IsLeast (λ n. Reachable g.now n × HiddenLeft g.now n)) }
{
    let null = nullable(alloc, g)?;
    let rows = met_hidden(alloc, g, &null)?;
    let reach = reachable(alloc, g)?;
    let least = least_in_own_row(&reach, &rows, g.nonterminals);
    Ok(least)
}

/// For each nonterminal those that are met from it behind what isn't empty and vanishes.
fn met_hidden(alloc: Global, g: &Grammar, null: &Bits) -> Result<Vec<Bits>, NoMemory>
    requires grammar { IsGrammar g.now }
    requires null { AreMakers false g.now null.now }
    ensures { IfOk result (λ rows. AreHidden g.now rows.items) }
{
    let count = g.nonterminals;
    let edges = left_edges(alloc, g, null)?;
    let met = run_rows(alloc, &edges, count)?;
    let mut rows = empty_rows(alloc, count, count)?;
    hide_rules(g, null, &met, &mut rows);
    spread(alloc, &mut rows, &edges, count, count)?;
    Ok(rows)
}

/// Adds to the row of each left side what is met from the second and later symbols of the right side, as
/// far as all before them vanishes.
fn hide_rules(g: &Grammar, null: &Bits, met: &[Bits], rows: &mut Vec<Bits>)
    requires grammar { IsGrammar g.now }
    requires met { AreRows g.now.nonterminals g.now.nonterminals met.now }
    requires rows { AreRows g.now.nonterminals g.now.nonterminals rows.old.items }
    ensures rows { AreRows g.now.nonterminals g.now.nonterminals rows.new.items }
    ensures hidden { JoinsRows rows.old.items rows.new.items (IsHiddenIn g.now null.now met.now) }
{
    let count = g.nonterminals;
    for (i, rule) in g.rules.iter().enumerate() {
        hide_rule(rule, null, met, rows, count);
    }
}

/// The same for one rule.
fn hide_rule(rule: &GrammarRule, null: &Bits, met: &[Bits], rows: &mut Vec<Bits>, count: u32)
    requires left { rule.now.left < count }
    requires right { All (IsBelowIn count) rule.now.right }
    requires met { AreRows count count met.now }
    requires rows { AreRows count count rows.old.items }
    ensures rows { AreRows count count rows.new.items }
    ensures hidden { JoinsRows rows.old.items rows.new.items (λ n t. (n ≡ rule.now.left)
        × FrontMeets null.now met.now false rule.now.right t) }
{
    let left = rule.left;
    let right = rule.right.as_slice();
    let mut behind = false;
    for symbol in right {
        hide_symbol(*symbol, behind, left, met, rows, count);
        if !passes(*symbol, false, null) {
            return;
        }
        behind = true;
    }
}

/// Adds to the row of `left` the symbol and what is met first from it, where it is a nonterminal that
/// something stands before.
fn hide_symbol(symbol: Sym, behind: bool, left: u32, met: &[Bits], rows: &mut Vec<Bits>, count: u32)
    requires symbol { IsBelowIn count symbol }
    requires left { left < count }
    requires met { AreRows count count met.now }
    requires rows { AreRows count count rows.old.items }
    ensures rows { AreRows count count rows.new.items }
    ensures joined { JoinsRows rows.old.items rows.new.items (λ n t. (n ≡ left) × IsTrue behind
        × Meets met.now symbol t) }
{
    if let Sym::N(n) = symbol {
        if behind {
            add_at(rows, left, n, count, count);
            join_row(rows, left, &met[n as usize]);
        }
    }
}
