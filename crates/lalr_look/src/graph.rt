// A graph whose nodes have sets of tokens of their own.
ghost use Rattle.std.specs.Prelude.{◌≡◌, ℕ, ◌<◌, length, All, IfOk, OnOk};
ghost use Rattle.lalr_look.specs.within.Graph.{IsSized, InSet, Grows};
ghost use Rattle.lalr_look.specs.within.Flow.{Edge, set_at};
ghost use Rattle.lalr_look.specs.within.Rows.{rows_of};

use crate::rows::{no_rows, push_at};
use ck_base::{Bits, NoMemory};
use std::alloc::Global;

/// A graph along which numbers flow.
#[derive(Drop)]
pub struct Graph {
    /// For each node those to which an edge leads from it.
    pub edges: Vec<Vec<u32>>,
    /// For each node the numbers that it has.
    pub sets: Vec<Bits>,
}

impl Graph {
    /// So many nodes without edges and numbers, with room for the numbers below `size`.
    pub fn new(alloc: Global, nodes: u32, size: u32) -> Result<Graph, NoMemory>
        ensures sized { IfOk result (IsSized nodes size) }
        ensures edges { IfOk result
            (λ graph. (k j : ℕ) → Edge (rows_of graph.edges.items) k j → ⊥) }
        ensures sets { IfOk result (λ graph. (k a : ℕ) → InSet graph.sets.items k a → ⊥) }
    {
        let edges = no_rows(alloc, nodes)?;
        let sets = empty_sets(alloc, nodes, size)?;
        Ok(Graph { edges, sets })
    }

    /// Puts an edge in.
    pub fn lead(&mut self, from: u32, to: u32) -> Result<(), NoMemory>
        requires { from < length self.old.edges.items }
        ensures { OnOk result (Grows self.old self.new (λ k j. (k ≡ from) × (j ≡ to)) (λ _ _. ⊥)) }
    {
        push_at(&mut self.edges, from, to)?;
        Ok(())
    }

    /// Puts a number into a node's set.
    pub fn add(&mut self, node: u32, number: u32)
        requires node { node < length self.old.sets.items }
        requires number { number < (set_at self.old.sets.items node).size }
        ensures { Grows self.old self.new (λ _ _. ⊥) (λ k a. (k ≡ node) × (a ≡ number)) }
    {
        self.sets[node as usize].add(number);
    }
}

/// So many empty sets of numbers below `size`.
fn empty_sets(alloc: Global, count: u32, size: u32) -> Result<Vec<Bits>, NoMemory>
    ensures long { IfOk result (λ sets. length sets.items ≡ count) }
    ensures sizes { IfOk result (λ sets. All (λ set. set.size ≡ size) sets.items) }
    ensures empty { IfOk result (λ sets. (k a : ℕ) → InSet sets.items k a → ⊥) }
{
    let mut sets = Vec::new(alloc);
    for _ in 0..count {
        let set = Bits::new(alloc, size)?;
        sets.push(set)?;
    }
    Ok(sets)
}
