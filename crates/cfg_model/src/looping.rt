// Cyclic nonterminals: those that derive themselves alone by one or more steps.
ghost use Rattle.std.specs.Prelude.{◌≡◌, ◌↔◌, ℕ, IfOk, IsTrue};
ghost use Rattle.cfg_model.specs.Cfg.{IsGrammar};
ghost use Rattle.cfg_model.specs.declared.symbol.Sym.TheVariants.{N};
ghost use Rattle.cfg_model.specs.Sets.{Reachable};
ghost use Rattle.cfg_model.specs.Searches.{Cyclic, IsLeast};
ghost use Rattle.cfg_model.specs.within.Gather.{Gathers};
ghost use Rattle.cfg_model.specs.within.Middles.{Stops, IsAlone, IsMiddle, AreMiddle};

use crate::closing::{nullable, passes};
use crate::follow_sets::put_edge;
use crate::grammar::{Grammar, GrammarRule};
use crate::least::least_in_own_row;
use crate::met::run_rows;
use crate::reach::reachable;
use crate::rows::Edge;
use crate::symbol::Sym;
use ck_base::{Bits, NoMemory};
use std::alloc::Global;

/// The least reachable nonterminal that derives itself in one or more steps.
pub fn cyclic(alloc: Global, g: &Grammar) -> Result<Option<u32>, NoMemory>
    requires { IsGrammar g.now }
    ensures { IfOk result (IsLeast (λ n. Reachable g.now n × Cyclic g.now n)) }
{
    let null = nullable(alloc, g)?;
    let edges = middle_edges(alloc, g, &null)?;
    let rows = run_rows(alloc, &edges, g.nonterminals)?;
    let reach = reachable(alloc, g)?;
    let least = least_in_own_row(&reach, &rows, g.nonterminals);
    Ok(least)
}

/// An edge from each left side to each nonterminal beside which all vanishes.
fn middle_edges(alloc: Global, g: &Grammar, null: &Bits) -> Result<Vec<Edge>, NoMemory>
    ensures { IfOk result (λ edges. AreMiddle g.now null.now edges.items) }
{
    let mut edges = Vec::new(alloc);
    for (i, rule) in g.rules.iter().enumerate() {
        add_middle(rule, null, &mut edges)?;
    }
    Ok(edges)
}

/// Adds the rule's edges.
fn add_middle(rule: &GrammarRule, null: &Bits, edges: &mut Vec<Edge>) -> Result<(), NoMemory>
    ensures { IfOk result (λ _. Gathers edges.old.items edges.new.items
        (IsMiddle null.now rule.now.left rule.now.right)) }
{
    let left = rule.left;
    let right = rule.right.as_slice();
    let others = stops(right, null);
    let mut i = right.len();
    while i > 0 {
        i -= 1;
        let symbol = right[i];
        let alone = is_alone(symbol, null, others);
        put_edge(symbol, left, alone, edges)?;
    }
    Ok(())
}

/// How many of the symbols don't vanish.
fn stops(list: &[Sym], null: &Bits) -> usize
    ensures { Stops null.now list.now result }
{
    let mut count = 0;
    let mut i = list.len();
    while i > 0 {
        i -= 1;
        if !passes(list[i], false, null) {
            count += 1;
        }
    }
    count
}

/// Whether all other symbols of the list vanish.
fn is_alone(symbol: Sym, null: &Bits, stops: usize) -> bool
    ensures { IsTrue result ↔ IsAlone null.now stops symbol }
{
    stops == 0 || stops == 1 && !passes(symbol, false, null)
}
