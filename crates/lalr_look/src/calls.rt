// Which items hand their lookaheads to a nonterminal that is called at a core.
ghost use Rattle.std.specs.Prelude.{◌≡◌, ℕ, ◌<◌, ◌↔◌, ◌⊎◌, length, All, IfOk, OnOk};
ghost use Rattle.ck_base.specs.BitSet.{Has};
ghost use Rattle.cfg_model.specs.Cfg.{IsGrammar};
ghost use Rattle.lalr_look.specs.within.Flow.{Edge, set_at};
ghost use Rattle.lalr_look.specs.within.Rows.{rows_of};
ghost use Rattle.lalr_look.specs.within.Kernel.{Calls, CallsAt, CallsFirst};

use crate::flow::{own_sets, spread};
use crate::rows::{no_rows, push_at};
use cfg_model::{Grammar, Sym};
use ck_base::{Bits, NoMemory};
use std::alloc::Global;

/// Puts in the edge of a rule that begins with a nonterminal.
fn add_call(g: &Grammar, edges: &mut Vec<Vec<u32>>, i: u32) -> Result<(), NoMemory>
    requires grammar { IsGrammar g.now }
    requires inside { i < length g.now.rules }
    requires nodes { length edges.old.items ≡ g.now.nonterminals }
    ensures nodes { OnOk result (length edges.new.items ≡ length edges.old.items) }
    ensures edge { OnOk result ((k n : ℕ) → Edge (rows_of edges.new.items) k n ↔ (Edge
        (rows_of edges.old.items) k n ⊎ CallsAt g.now i k n)) }
{
    let one = g.rule(i);
    let Some(symbol) = one.symbol(0) else {
        return Ok(());
    };
    let Sym::N(k) = symbol else {
        return Ok(());
    };
    push_at(edges, k, one.left)?;
    Ok(())
}

/// The edges along which calls flow: from what begins a rule to the rule's left side.
fn call_edges(alloc: Global, g: &Grammar) -> Result<Vec<Vec<u32>>, NoMemory>
    requires grammar { IsGrammar g.now }
    ensures nodes { IfOk result (λ edges. length edges.items ≡ g.now.nonterminals) }
    ensures edges { IfOk result (λ edges. (k n : ℕ) → Edge (rows_of edges.items) k n
        ↔ CallsFirst g.now (length g.now.rules) k n) }
{
    let mut edges = no_rows(alloc, g.nonterminals)?;
    for i in 0..g.size() {
        add_call(g, &mut edges, i)?;
    }
    Ok(edges)
}

/// The nonterminals that each nonterminal calls.
pub fn calls_of(alloc: Global, g: &Grammar) -> Result<Vec<Bits>, NoMemory>
    requires grammar { IsGrammar g.now }
    ensures sets { IfOk result (λ calls. length calls.items ≡ g.now.nonterminals) }
    ensures sizes { IfOk result (λ calls. (size : ℕ) × All (λ set. set.size ≡ size) calls.items) }
    ensures calls { IfOk result (λ calls. (m n : ℕ) → m < g.now.nonterminals
        → Has (set_at calls.items m) n ↔ Calls g.now m n) }
{
    let edges = call_edges(alloc, g)?;
    let mut sets = own_sets(alloc, g.nonterminals)?;
    spread(alloc, &edges, &mut sets)?;
    Ok(sets)
}
