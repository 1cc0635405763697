// What the rules offer at a node.
ghost use Rattle.std.specs.Prelude.{◌≡◌, ℕ, ◌+◌, ◌<◌, [], ◌∷◌, length, slice_get, Some, IfOk, All};
ghost use Rattle.ast_types.specs.TypeTable.{IsSound};
ghost use Rattle.tree_store.specs.Forest.{IsForest};
ghost use Rattle.beg_model.specs.Accepted.{IsAccepted};
ghost use Rattle.beg_model.specs.Applies.{applies};
ghost use Rattle.beg_model.specs.declared.matched.Subgoal.{Subgoal};
ghost use Rattle.beg_model.specs.Labels.{least_of};
ghost use Rattle.beg_label.specs.within.Collected.{own_operand as own_of, cost_or_nothing, total_from, cost_by, RuleOffered, Collected};

use crate::offers::{NOTHING, Offer, added};
use ast_types::Types;
use beg_model::{CoverRule, CoverRules, Labels, Matched, Subgoal, applies_at, cost_at};
use tree_store::Tree;
use value_store::{NoMemory, Texts};

/// The offers of the rules of the list that apply at the node.
pub(crate) fn collect(
    rules: &CoverRules,
    types: &Types,
    tree: &Tree,
    texts: &Texts,
    labels: &Labels,
    node: u32,
    list: &[u32],
    found: &mut Matched,
    offers: &mut Vec<Offer>,
) -> Result<(), NoMemory>
    requires accepted { IsAccepted texts.now rules.now types.now tree.now }
    requires sound { IsSound types.now }
    requires forest { IsForest tree.now }
    requires node { node < length tree.now }
    requires list { All (λ r. r < length rules.now.rules.items) list.now }
    requires nodes { labels.now.nodes ≡ length tree.now }
    requires nonterminals { labels.now.nonterminals ≡ length rules.now.nonterminals }
    ensures { IfOk result (λ _. Collected (applies texts.now rules.now types.now tree.now)
        (least_of labels.now) node list.now offers.new.items) }
{
    offers.clear();
    for i in 0..list.len() {
        let r = list[i];
        offer_rule(rules, types, tree, texts, labels, node, r, found, offers)?;
    }
    Ok(())
}

/// Adds the offer of the rule where it applies at the node.
fn offer_rule(
    rules: &CoverRules,
    types: &Types,
    tree: &Tree,
    texts: &Texts,
    labels: &Labels,
    node: u32,
    r: u32,
    found: &mut Matched,
    offers: &mut Vec<Offer>,
) -> Result<(), NoMemory>
    requires accepted { IsAccepted texts.now rules.now types.now tree.now }
    requires sound { IsSound types.now }
    requires forest { IsForest tree.now }
    requires node { node < length tree.now }
    requires rule { r < length rules.now.rules.items }
    requires nodes { labels.now.nodes ≡ length tree.now }
    requires nonterminals { labels.now.nonterminals ≡ length rules.now.nonterminals }
    ensures { IfOk result (λ _. RuleOffered (applies texts.now rules.now types.now tree.now)
        (least_of labels.now) node r offers.old.items offers.new.items) }
{
    let rule = rule_at(rules, r);
    let fits = applies_at(rule, types, tree, texts, node, found);
    if !fits {
        return Ok(());
    }
    let own_cost = cost_at(rule, found, texts);
    let operands = found.operands();
    let operand = own_operand(operands, node);
    let cost = offered(operand, own_cost, operands, labels);
    let left = rule.left;
    offers.push(Offer {
        left,
        rule: r,
        cost,
        operand,
    })?;
    Ok(())
}

/// The rule of a number that there is.
pub(crate) fn rule_at<'e, 'a>(rules: &'e CoverRules<'a>, r: u32) -> &'e CoverRule<'a>
    requires { r < length rules.now.rules.items }
    ensures { slice_get rules.now.rules.items r ≡ Some result.now }
{
    &rules.rules[r as usize]
}

/// The nonterminal of the only operand, where that is the node itself.
fn own_operand(operands: &[Subgoal], node: u32) -> Option<u32>
    ensures { result ≡ own_of operands.now node }
{
    match operands {
        [operand] => own_nonterminal(operand, node),
        _ => None,
    }
}

/// The nonterminal of the operand, where that is the node itself.
fn own_nonterminal(operand: &Subgoal, node: u32) -> Option<u32>
    ensures { result ≡ own_of (operand.now ∷ []) node }
{
    if operand.node == node {
        Some(operand.nonterminal)
    } else {
        None
    }
}

/// What a rule of this cost offers.
fn offered(operand: Option<u32>, cost: u32, operands: &[Subgoal], labels: &Labels) -> u64
    requires { (k : ℕ) (p : Subgoal) → slice_get operands.now k ≡ Some p
        → (p.node < labels.now.nodes) × (p.nonterminal < labels.now.nonterminals) }
    ensures { result ≡ cost_by operand cost (total_from (least_of labels.now) 0 operands.now) }
{
    match operand {
        Some(_) => cost as u64,
        None => added(cost as u64, operands_cost(operands, labels)),
    }
}

/// The sum of the labels of the operands.
fn operands_cost(operands: &[Subgoal], labels: &Labels) -> u64
    requires { (k : ℕ) (p : Subgoal) → slice_get operands.now k ≡ Some p
        → (p.node < labels.now.nodes) × (p.nonterminal < labels.now.nonterminals) }
    ensures { result ≡ total_from (least_of labels.now) 0 operands.now }
{
    let mut sum = 0;
    for i in 0..operands.len() {
        let operand = operand_at(operands, i);
        sum = added(sum, label_of(labels, operand));
    }
    sum
}

/// The operand at a place that there is.
fn operand_at(operands: &[Subgoal], i: usize) -> &Subgoal
    requires { i < length operands.now }
    ensures { slice_get operands.now i ≡ Some result.now }
{
    &operands[i]
}

/// The label of the operand; `NOTHING` where it has none.
fn label_of(labels: &Labels, operand: &Subgoal) -> u64
    requires node { operand.now.node < labels.now.nodes }
    requires nonterminal { operand.now.nonterminal < labels.now.nonterminals }
    ensures { result ≡ cost_or_nothing
        (least_of labels.now operand.now.node operand.now.nonterminal) }
{
    match labels.least(operand.node, operand.nonterminal) {
        Some(cost) => cost,
        None => NOTHING,
    }
}
