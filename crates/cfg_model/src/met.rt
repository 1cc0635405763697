// Left recursion: what a nonterminal meets at the left of what it derives.
ghost use Rattle.std.specs.Prelude.{◌≡◌, ◌↔◌, ◌<◌, false, ℕ, IfOk, All};
ghost use Rattle.ck_base.specs.BitSet.{Has};
ghost use Rattle.cfg_model.specs.Cfg.{IsGrammar};
ghost use Rattle.cfg_model.specs.within.Closing.{AreMakers};
ghost use Rattle.cfg_model.specs.Rows.{In, AreRows};
ghost use Rattle.cfg_model.specs.within.Spreading.{IsInside};
ghost use Rattle.cfg_model.specs.Sets.{Reachable};
ghost use Rattle.cfg_model.specs.Searches.{LeftRecursive, IsLeast};
ghost use Rattle.cfg_model.specs.within.Runs.{AreLeftEdges, AreEdgeRows, AreRuns, AreMet};

use crate::closing::nullable;
use crate::first_sets::{add_at, empty_rows, first_edges};
use crate::grammar::Grammar;
use crate::least::least_in_own_row;
use crate::parts::left_parts;
use crate::reach::reachable;
use crate::rows::{Edge, spread};
use ck_base::{Bits, NoMemory};
use std::alloc::Global;

/// The least reachable nonterminal that derives a list in which it stands first, or behind what vanishes.
pub fn left_recursive(alloc: Global, g: &Grammar) -> Result<Option<u32>, NoMemory>
    requires { IsGrammar g.now }
    ensures { IfOk result (IsLeast (λ n. Reachable g.now n × LeftRecursive g.now n)) }
{
    let null = nullable(alloc, g)?;
    let rows = met_first(alloc, g, &null)?;
    let reach = reachable(alloc, g)?;
    let least = least_in_own_row(&reach, &rows, g.nonterminals);
    Ok(least)
}

/// For each nonterminal those that can be met first from it.
fn met_first(alloc: Global, g: &Grammar, null: &Bits) -> Result<Vec<Bits>, NoMemory>
    requires grammar { IsGrammar g.now }
    requires null { AreMakers false g.now null.now }
    ensures { IfOk result (λ rows. AreMet g.now null.now rows.items) }
{
    let edges = left_edges(alloc, g, null)?;
    let rows = run_rows(alloc, &edges, g.nonterminals)?;
    Ok(rows)
}

/// An edge from each nonterminal that can stand first in a right side to its left side.
pub(crate) fn left_edges(alloc: Global, g: &Grammar, null: &Bits) -> Result<Vec<Edge>, NoMemory>
    requires { IsGrammar g.now }
    ensures { IfOk result (λ edges. AreLeftEdges g.now null.now edges.items) }
{
    let parts = left_parts(alloc, g, null)?;
    let edges = first_edges(alloc, &parts, g.nonterminals)?;
    Ok(edges)
}

/// For each number those from which one or more edges lead to it.
pub(crate) fn run_rows(alloc: Global, edges: &[Edge], count: u32) -> Result<Vec<Bits>, NoMemory>
    requires { All (IsInside count) edges.now }
    ensures { IfOk result (λ rows. AreRuns count edges.now rows.items) }
{
    let mut rows = edge_rows(alloc, edges, count)?;
    spread(alloc, &mut rows, edges, count, count)?;
    Ok(rows)
}

/// For each number those from which one edge leads to it.
fn edge_rows(alloc: Global, edges: &[Edge], count: u32) -> Result<Vec<Bits>, NoMemory>
    requires { All (IsInside count) edges.now }
    ensures { IfOk result (λ rows. AreEdgeRows count edges.now rows.items) }
{
    let mut rows = empty_rows(alloc, count, count)?;
    for edge in edges {
        add_at(&mut rows, edge.to, edge.from, count, count);
    }
    Ok(rows)
}
