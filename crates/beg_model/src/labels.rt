// Labels: the least cost and the chosen rule of each node and nonterminal.
ghost use Rattle.std.specs.Prelude.{◌≡◌, ℕ, ◌-◌, ◌^◌, ◌<◌, ◌≤◌, Some, None, length, IfOk};
ghost use Rattle.beg_model.specs.Labels.{IsBlank, Puts, label_at, least_of, rule_of};
ghost use Rattle.beg_model.specs.within.Entries.{cost_of, label_of};

use std::alloc::Global;
use std::marker::Model;
use value_store::NoMemory;

/// No rule: there are fewer rules than this.
const NONE: u32 = 4_294_967_295;

/// The least cost of a node for a nonterminal in two halves of 32 bits, so that an entry takes 12
/// bytes, and the rule that was chosen.
#[derive(Clone, Copy)]
pub struct Entry {
    low: u32,
    high: u32,
    rule: u32,
}

impl Entry {
    /// The entry of this cost and this rule.
    fn of(cost: u64, rule: u32) -> Entry
        requires { rule < 2 ^ 32 - 1 }
        ensures { label_of result ≡ Some (record { cost = cost; rule = rule }) }
    {
        Entry {
            low: (cost % 4_294_967_296) as u32,
            high: (cost / 4_294_967_296) as u32,
            rule,
        }
    }

    /// The cost, from its halves.
    fn cost(self) -> u64
        ensures { result ≡ cost_of self }
    {
        self.high as u64 * 4_294_967_296 + self.low as u64
    }
}

/// A least cost and a chosen rule for each pair of a node and a nonterminal that has a cover.
#[derive(Drop)]
pub struct Labels {
    nodes: u32,
    nonterminals: u32,
    entries: Vec<Entry>,
}

impl Model for Labels {
    ghost use Rattle.std.specs.Prelude.{◌≡◌, ◌*◌, length, map};
    ghost use Rattle.beg_model.specs.Labels.{LabelTable};
    ghost use Rattle.beg_model.specs.within.Entries.{label_of};

    ghost Value = { LabelTable };

    ghost view = { λ l. record {
      nodes = l.nodes;
      nonterminals = l.nonterminals;
      labels = map label_of l.entries.items;
    } };

    ghost invariant = { λ l. length l.entries.items ≡ l.nodes * l.nonterminals };
}

impl Labels {
    /// No labels, for so many nodes and nonterminals.
    pub fn new(alloc: Global, nodes: u32, nonterminals: u32) -> Result<Labels, NoMemory>
        ensures { IfOk result (IsBlank nodes nonterminals) }
    {
        let blank = Entry {
            low: 0,
            high: 0,
            rule: NONE,
        };
        let entries = vec![in alloc; blank; nodes as usize * nonterminals as usize]?;
        Ok(Labels {
            nodes,
            nonterminals,
            entries,
        })
    }

    /// The least cost of the node for the nonterminal; none where nothing was put for the pair.
    pub fn least(&self, node: u32, n: u32) -> Option<u64>
        requires node { node < self.now.nodes }
        requires nonterminal { n < self.now.nonterminals }
        ensures { result ≡ least_of self.now node n }
    {
        let entry = self.entry(node, n);
        if entry.rule == NONE {
            None
        } else {
            Some(entry.cost())
        }
    }

    /// The rule chosen for the pair; none where nothing was put for it.
    pub fn rule(&self, node: u32, n: u32) -> Option<u32>
        requires node { node < self.now.nodes }
        requires nonterminal { n < self.now.nonterminals }
        ensures { result ≡ rule_of self.now node n }
    {
        let entry = self.entry(node, n);
        if entry.rule == NONE {
            None
        } else {
            Some(entry.rule)
        }
    }

    /// Puts a cost and a rule for the pair, in the place of what was there.
    pub fn put(&mut self, node: u32, n: u32, cost: u64, rule: u32)
        requires node { node < self.old.nodes }
        requires nonterminal { n < self.old.nonterminals }
        requires rule { rule < 2 ^ 32 - 1 }
        ensures { Puts self.old self.new node n cost rule }
    {
        let at = node as usize * self.nonterminals as usize + n as usize;
        self.entries[at] = Entry::of(cost, rule);
    }

    /// What is kept for the pair.
    fn entry(&self, node: u32, n: u32) -> Entry
        requires node { node < self.now.nodes }
        requires nonterminal { n < self.now.nonterminals }
        ensures { label_at self.now node n ≡ label_of result }
    {
        self.entries[node as usize * self.nonterminals as usize + n as usize]
    }

    /// How many nodes the labels are for. There are none past these.
    pub fn node_count(&self) -> u32
        ensures is { result ≡ self.now.nodes }
        ensures none_past { (n x : ℕ) → self.now.nodes ≤ n → label_at self.now n x ≡ None }
    {
        self.nodes
    }
}
