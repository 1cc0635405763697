// Nonterminals that the start symbol reaches.
ghost use Rattle.std.specs.Prelude.{◌≡◌, ◌↔◌, ℕ, IfOk};
ghost use Rattle.ck_base.specs.BitSet.{Has};
ghost use Rattle.cfg_model.specs.Cfg.{IsGrammar};
ghost use Rattle.cfg_model.specs.Rows.{In, AreRows};
ghost use Rattle.cfg_model.specs.Promise.{AreReachable};
ghost use Rattle.cfg_model.specs.Sets.{Reachable};
ghost use Rattle.cfg_model.specs.within.Gather.{Gathers, IsDown, AreDown};

use crate::first_sets::{add_at, empty_rows};
use crate::grammar::{Grammar, GrammarRule};
use crate::rows::{Edge, spread};
use crate::symbol::Sym;
use ck_base::{Bits, NoMemory};
use std::alloc::Global;

/// The nonterminals that stand in a list derived from the start symbol.
pub fn reachable(alloc: Global, g: &Grammar) -> Result<Bits, NoMemory>
    requires { IsGrammar g.now }
    ensures { IfOk result (AreReachable g.now) }
{
    let count = g.nonterminals;
    let edges = down_edges(alloc, g)?;
    let mut rows = empty_rows(alloc, count, 1)?;
    add_at(&mut rows, g.start, 0, count, 1);
    spread(alloc, &mut rows, &edges, count, 1)?;
    let set = column(alloc, &rows, 0, count, 1)?;
    Ok(set)
}

/// An edge from each left side to each nonterminal of its right side.
fn down_edges(alloc: Global, g: &Grammar) -> Result<Vec<Edge>, NoMemory>
    ensures { IfOk result (λ edges. AreDown g.now edges.items) }
{
    let mut edges = Vec::new(alloc);
    for (i, rule) in g.rules.iter().enumerate() {
        add_down(rule, &mut edges)?;
    }
    Ok(edges)
}

/// Adds the rule's edges.
fn add_down(rule: &GrammarRule, edges: &mut Vec<Edge>) -> Result<(), NoMemory>
    ensures { IfOk result (λ _. Gathers edges.old.items edges.new.items
        (IsDown rule.now.left rule.now.right)) }
{
    let left = rule.left;
    let right = rule.right.as_slice();
    let mut i = right.len();
    while i > 0 {
        i -= 1;
        if let Sym::N(n) = right[i] {
            edges.push(Edge { from: left, to: n })?;
        }
    }
    Ok(())
}

/// The rows that have the number.
fn column(alloc: Global, rows: &[Bits], t: u32, count: u32, width: u32) -> Result<Bits, NoMemory>
    requires { AreRows count width rows.now }
    ensures size { IfOk result (λ set. set.size ≡ count) }
    ensures has { IfOk result (λ set. (n : ℕ) → Has set n ↔ In rows.now n t) }
{
    let mut set = Bits::new(alloc, count)?;
    for n in 0..count {
        if rows[n as usize].has(t) {
            set.add(n);
        }
    }
    Ok(set)
}
