// What a rule gives at a pair of a node and a nonterminal.
ghost use Rattle.std.specs.Prelude.{◌≡◌, ℕ, ◌<◌, length, slice_get, Some};
ghost use Rattle.ast_types.specs.TypeTable.{IsSound};
ghost use Rattle.tree_store.specs.Forest.{IsForest};
ghost use Rattle.beg_model.specs.Accepted.{IsAccepted};
ghost use Rattle.beg_model.specs.Applies.{applies};
ghost use Rattle.beg_model.specs.Labels.{least_of};
ghost use Rattle.beg_model.specs.declared.matched.Subgoal.{Subgoal};
ghost use Rattle.cover_check.specs.within.Givings.{GivenIs, given_of, given_plus, sum_from};

use ast_types::Types;
use beg_model::{CoverRule, CoverRules, Labels, Matched, Subgoal, applies_at, cost_at};
use tree_store::Tree;
use value_store::Texts;

/// What a rule gives at a pair.
#[derive(Clone, Copy)]
pub enum Given {
    /// The rule doesn't apply, or an operand has no label.
    Nothing,
    /// The sum of its cost and its operands' labels.
    Cost(u64),
    /// A sum that no label reaches.
    Past,
}

/// What the rule of this number gives at the pair.
pub(crate) fn given_at(
    rules: &CoverRules,
    types: &Types,
    tree: &Tree,
    texts: &Texts,
    labels: &Labels,
    node: u32,
    x: u32,
    r: u32,
    found: &mut Matched,
) -> Given
    requires accepted { IsAccepted texts.now rules.now types.now tree.now }
    requires sound { IsSound types.now }
    requires forest { IsForest tree.now }
    requires node { node < length tree.now }
    requires rule { r < length rules.now.rules.items }
    requires nodes { labels.now.nodes ≡ length tree.now }
    requires nonterminals { labels.now.nonterminals ≡ length rules.now.nonterminals }
    ensures { GivenIs (applies texts.now rules.now types.now tree.now)
        (least_of labels.now) node x r result }
{
    let rule = rule_at(rules, r);
    if rule.left != x {
        return Given::Nothing;
    }
    let fits = applies_at(rule, types, tree, texts, node, found);
    if !fits {
        return Given::Nothing;
    }
    let own_cost = cost_at(rule, found, texts);
    let operands = found.operands();
    sum_of(own_cost, operands, labels)
}

/// The rule of a number that there is.
fn rule_at<'e, 'a>(rules: &'e CoverRules<'a>, r: u32) -> &'e CoverRule<'a>
    requires { r < length rules.now.rules.items }
    ensures { slice_get rules.now.rules.items r ≡ Some result.now }
{
    &rules.rules[r as usize]
}

/// The cost and the labels of the operands together.
fn sum_of(cost: u32, operands: &[Subgoal], labels: &Labels) -> Given
    requires { (k : ℕ) (p : Subgoal) → slice_get operands.now k ≡ Some p
        → (p.node < labels.now.nodes) × (p.nonterminal < labels.now.nonterminals) }
    ensures { result ≡ given_of (sum_from (least_of labels.now) (Some cost) operands.now) }
{
    let mut sum = Given::Cost(cost as u64);
    for i in 0..operands.len() {
        let operand = subgoal_at(operands, i);
        let label = labels.least(operand.node, operand.nonterminal);
        sum = with_label(sum, label);
    }
    sum
}

/// The operand of a number that there is.
fn subgoal_at(operands: &[Subgoal], i: usize) -> &Subgoal
    requires { i < length operands.now }
    ensures { slice_get operands.now i ≡ Some result.now }
{
    &operands[i]
}

/// The sum with one label more.
fn with_label(sum: Given, label: Option<u64>) -> Given
    ensures { result ≡ given_plus sum label }
{
    match label {
        None => Given::Nothing,
        Some(cost) => with_cost(sum, cost),
    }
}

/// The sum with a label of this cost.
fn with_cost(sum: Given, cost: u64) -> Given
    ensures { result ≡ given_plus sum (Some cost) }
{
    match sum {
        Given::Nothing => Given::Nothing,
        Given::Past => Given::Past,
        Given::Cost(so_far) => added(so_far, cost),
    }
}

/// The sum of two costs.
fn added(a: u64, b: u64) -> Given
    ensures { result ≡ given_plus (Given.Cost a) (Some b) }
{
    match a.checked_add(b) {
        Some(sum) => Given::Cost(sum),
        None => Given::Past,
    }
}
