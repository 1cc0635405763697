// Pairs of core and nonterminal, numbered.
ghost use Rattle.std.specs.Prelude.{◌≡◌, ℕ, [], length, IfOk, OnOk, Some, Contains, slice_get};
ghost use Rattle.lalr_look.specs.within.Numbered.{Interns};

use ck_base::NoMemory;
use indexmap::IndexSet;
use std::alloc::Global;
use std::marker::Model;

/// The nodes of the graph of lookaheads, numbered from 0. A node is the number of a core, and a slot
/// in it.
#[derive(Drop)]
pub struct Nodes {
    nodes: IndexSet<(u32, u32)>,
}

impl Model for Nodes {
    ghost use Rattle.std.specs.Prelude.{ℕ, List};
    ghost use Rattle.lalr_look.specs.within.Numbered.{AreNumbered};

    ghost Value = { List (ℕ × ℕ) };

    ghost view = { λ known. known.nodes.keys };

    ghost invariant = { λ known. AreNumbered known.nodes.keys };
}

impl Nodes {
    /// No nodes yet.
    pub fn new(alloc: Global) -> Nodes
        ensures { result ≡ [] }
    {
        Nodes {
            nodes: IndexSet::new(alloc),
        }
    }

    /// The number of the node: its old one, else the next. Where all numbers are taken memory is
    /// wanting.
    pub fn number_of(&mut self, node: (u32, u32)) -> Result<u32, NoMemory>
        ensures { IfOk result (λ n. Interns self.old self.new node n) }
    {
        if let Some(index) = self.nodes.get_index_of(&node) {
            return Ok(index as u32);
        }
        if self.nodes.len() >= 4294967295 {
            return Err(NoMemory);
        }
        let (index, _) = self.nodes.insert_full(node)?;
        Ok(index as u32)
    }

    /// The number of a node that is there.
    pub fn find(&self, node: (u32, u32)) -> u32
        requires { Contains self.now node }
        ensures there { slice_get self.now result ≡ Some node }
        ensures one { (k : ℕ) → slice_get self.now k ≡ Some node → k ≡ result }
    {
        match self.nodes.get_index_of(&node) {
            Some(index) => index as u32,
            None => 0,
        }
    }

    /// How many nodes there are.
    pub fn len(&self) -> u32
        ensures { result ≡ length self.now }
    {
        self.nodes.len() as u32
    }
}
