// The labels of one node, and of all nodes.
ghost use Rattle.std.specs.Prelude.{◌≡◌, ℕ, ◌-◌, ◌<◌, ◌≤◌, ◌^◌, List, length, None, IfOk, All};
ghost use Rattle.ast_types.specs.TypeTable.{IsSound};
ghost use Rattle.tree_store.specs.Forest.{IsForest};
ghost use Rattle.beg_model.specs.Accepted.{IsAccepted};
ghost use Rattle.beg_model.specs.Applies.{applies};
ghost use Rattle.beg_model.specs.declared.matched.Subgoal.{Subgoal};
ghost use Rattle.beg_model.specs.Labels.{label_at, AreLeastAndChosen};
ghost use Rattle.beg_label.specs.within.Labelled.{NodeLabelled, RowPut, BestPut};
ghost use Rattle.beg_label.specs.within.Offers.{best_at, IsIn};

use crate::closing::close;
use crate::collecting::collect;
use crate::listing::{list_at, rules_by_type};
use crate::offers::{Best, NOTHING, Offer};
use ast_types::Types;
use beg_model::{CoverRules, Labeller, Labels, Matched};
use std::alloc::Global;
use tree_store::Tree;
use value_store::{NoMemory, Texts};

/// No best.
const BLANK: Best = Best {
    cost: NOTHING,
    rule: 0,
};

/// The plain labeller.
pub struct PlainLabels {}

/// Puts the labels of a node whose children have theirs.
fn label_node(
    rules: &CoverRules,
    types: &Types,
    tree: &Tree,
    texts: &Texts,
    node: u32,
    list: &[u32],
    found: &mut Matched,
    offers: &mut Vec<Offer>,
    row: &mut [Best],
    labels: &mut Labels,
) -> Result<(), NoMemory>
    requires accepted { IsAccepted texts.now rules.now types.now tree.now }
    requires sound { IsSound types.now }
    requires forest { IsForest tree.now }
    requires node { node < length tree.now }
    requires list { All (λ r. r < length rules.now.rules.items) list.now }
    requires all { (r x k : ℕ) (ps : List Subgoal)
        → applies texts.now rules.now types.now tree.now r node x k ps → IsIn r list.now }
    requires nodes { labels.old.nodes ≡ length tree.now }
    requires nonterminals { labels.old.nonterminals ≡ length rules.now.nonterminals }
    requires width { length row.old ≡ length rules.now.nonterminals }
    requires blank { (x : ℕ) → label_at labels.old node x ≡ None }
    ensures { IfOk result (λ _. NodeLabelled (applies texts.now rules.now types.now tree.now)
        labels.old labels.new node) }
{
    collect(rules, types, tree, texts, labels, node, list, found, offers)?;
    clear(row);
    close(offers.as_slice(), row);
    put_row(row, node, labels);
    Ok(())
}

/// Forgets all bests.
fn clear(row: &mut [Best])
    ensures { (x : ℕ) → (best_at row.new x).cost ≡ NOTHING }
{
    for best in row.iter_mut() {
        *best = Best {
            cost: NOTHING,
            rule: 0,
        };
    }
}

/// Puts the bests as labels of the node, which has none yet.
fn put_row(row: &[Best], node: u32, labels: &mut Labels)
    requires node { node < labels.old.nodes }
    requires width { length row.now ≡ labels.old.nonterminals }
    requires few { labels.old.nonterminals < 2 ^ 32 }
    requires rules { (x : ℕ) → (best_at row.now x).cost < NOTHING
        → (best_at row.now x).rule < 2 ^ 32 - 1 }
    requires blank { (x : ℕ) → label_at labels.old node x ≡ None }
    ensures { RowPut labels.old labels.new node row.now }
{
    for i in 0..row.len() {
        let best = best_in(row, i);
        put_best(best, node, i as u32, labels);
    }
}

/// The best of a nonterminal that there is.
fn best_in(row: &[Best], i: usize) -> Best
    requires { i < length row.now }
    ensures { result ≡ best_at row.now i }
{
    row[i]
}

/// Puts the best as the label of the pair, where there is one.
fn put_best(best: Best, node: u32, x: u32, labels: &mut Labels)
    requires node { node < labels.old.nodes }
    requires nonterminal { x < labels.old.nonterminals }
    requires rule { best.cost < NOTHING → best.rule < 2 ^ 32 - 1 }
    requires blank { label_at labels.old node x ≡ None }
    ensures { BestPut labels.old labels.new node x best }
{
    if best.cost < NOTHING {
        labels.put(node, x, best.cost, best.rule);
    }
}

impl Labeller for PlainLabels {
    fn label(
        &mut self,
        alloc: Global,
        rules: &CoverRules,
        types: &Types,
        tree: &Tree,
        texts: &Texts,
    ) -> Result<Labels, NoMemory> {
        label_all(alloc, rules, types, tree, texts)
    }
}

impl PlainLabels {
    /// A plain labeller. It takes no memory.
    pub fn new() -> PlainLabels {
        PlainLabels {}
    }
}

/// The labels of all nodes, children before their parents.
fn label_all(
    alloc: Global,
    rules: &CoverRules,
    types: &Types,
    tree: &Tree,
    texts: &Texts,
) -> Result<Labels, NoMemory>
    requires { IsAccepted texts.now rules.now types.now tree.now }
    ensures { IfOk result (AreLeastAndChosen texts.now rules.now types.now tree.now) }
{
    let nodes = tree.len();
    let nonterminals = rules.nonterminals.len();
    let _types = types.len();
    let lists = rules_by_type(alloc, rules, types, rules.rules.len() as u32)?;
    let mut found = Matched::new();
    let mut offers = Vec::new(alloc);
    let mut row = vec![in alloc; BLANK; nonterminals as usize]?;
    let mut labels = Labels::new(alloc, nodes, nonterminals)?;
    let row = row.as_mut_slice();
    let lists = lists.as_slice();
    for node in 0..nodes {
        let list = list_at(lists, tree.type_of(node) as usize);
        label_node(
            rules,
            types,
            tree,
            texts,
            node,
            list,
            &mut found,
            &mut offers,
            row,
            &mut labels,
        )?;
    }
    Ok(labels)
}
