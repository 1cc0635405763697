// A pair of a node and a nonterminal against all rules.
ghost use Rattle.std.specs.Prelude.{◌≡◌, ℕ, ◌<◌, ◌^◌, length, Some, None};
ghost use Rattle.ast_types.specs.TypeTable.{IsSound};
ghost use Rattle.tree_store.specs.Forest.{IsForest};
ghost use Rattle.beg_model.specs.Accepted.{IsAccepted};
ghost use Rattle.beg_model.specs.Applies.{applies};
ghost use Rattle.beg_model.specs.Labels.{IsRightAt, least_of, rule_of};
ghost use Rattle.cover_check.specs.within.Pairs.{breaks as breaks_by, comes_to, IsOwn, IsUnder, Tells, NodeChecked};

use crate::giving::{Given, given_at};
use ast_types::Types;
use beg_model::{CoverRules, Labels, Matched};
use tree_store::Tree;
use value_store::Texts;

/// The first nonterminal for which the node isn't right; none where it is right for all.
pub(crate) fn first_wrong(
    rules: &CoverRules,
    types: &Types,
    tree: &Tree,
    texts: &Texts,
    labels: &Labels,
    node: u32,
    found: &mut Matched,
) -> Option<u32>
    requires accepted { IsAccepted texts.now rules.now types.now tree.now }
    requires sound { IsSound types.now }
    requires forest { IsForest tree.now }
    requires node { node < length tree.now }
    requires nodes { labels.now.nodes ≡ length tree.now }
    requires nonterminals { labels.now.nonterminals ≡ length rules.now.nonterminals }
    ensures { NodeChecked (applies texts.now rules.now types.now tree.now) (least_of labels.now)
        (rule_of labels.now) (length rules.now.nonterminals) node result }
{
    for x in 0..rules.nonterminals.len() {
        let right = is_right(rules, types, tree, texts, labels, node, x, found);
        if !right {
            return Some(x);
        }
    }
    None
}

/// Whether the pair is right.
fn is_right(
    rules: &CoverRules,
    types: &Types,
    tree: &Tree,
    texts: &Texts,
    labels: &Labels,
    node: u32,
    x: u32,
    found: &mut Matched,
) -> bool
    requires accepted { IsAccepted texts.now rules.now types.now tree.now }
    requires sound { IsSound types.now }
    requires forest { IsForest tree.now }
    requires node { node < length tree.now }
    requires nonterminal { x < length rules.now.nonterminals }
    requires nodes { labels.now.nodes ≡ length tree.now }
    requires nonterminals { labels.now.nonterminals ≡ length rules.now.nonterminals }
    ensures { Tells (IsRightAt (applies texts.now rules.now types.now tree.now)
        (least_of labels.now) (rule_of labels.now) node x) result }
{
    let own = is_own(rules, types, tree, texts, labels, node, x, found);
    if !own {
        return false;
    }
    is_under(rules, types, tree, texts, labels, node, x, found)
}

/// Whether the pair's label, if it has one, is what its own rule gives.
fn is_own(
    rules: &CoverRules,
    types: &Types,
    tree: &Tree,
    texts: &Texts,
    labels: &Labels,
    node: u32,
    x: u32,
    found: &mut Matched,
) -> bool
    requires accepted { IsAccepted texts.now rules.now types.now tree.now }
    requires sound { IsSound types.now }
    requires forest { IsForest tree.now }
    requires node { node < length tree.now }
    requires nonterminal { x < length rules.now.nonterminals }
    requires nodes { labels.now.nodes ≡ length tree.now }
    requires nonterminals { labels.now.nonterminals ≡ length rules.now.nonterminals }
    ensures { Tells (IsOwn (applies texts.now rules.now types.now tree.now)
        (least_of labels.now) (rule_of labels.now) node x) result }
{
    let Some(cost) = labels.least(node, x) else {
        return true;
    };
    let Some(r) = labels.rule(node, x) else {
        return false;
    };
    if r as usize >= rules.rules.len() {
        return false;
    }
    let given = given_at(rules, types, tree, texts, labels, node, x, r, found);
    gives(given, cost)
}

/// Whether no rule undercuts the pair's label, or fills it where there is none.
fn is_under(
    rules: &CoverRules,
    types: &Types,
    tree: &Tree,
    texts: &Texts,
    labels: &Labels,
    node: u32,
    x: u32,
    found: &mut Matched,
) -> bool
    requires accepted { IsAccepted texts.now rules.now types.now tree.now }
    requires sound { IsSound types.now }
    requires forest { IsForest tree.now }
    requires node { node < length tree.now }
    requires nonterminal { x < length rules.now.nonterminals }
    requires nodes { labels.now.nodes ≡ length tree.now }
    requires nonterminals { labels.now.nonterminals ≡ length rules.now.nonterminals }
    ensures { Tells (IsUnder (applies texts.now rules.now types.now tree.now)
        (least_of labels.now) node x) result }
{
    let label = labels.least(node, x);
    for r in 0..rules.rules.len() as u32 {
        let given = given_at(rules, types, tree, texts, labels, node, x, r, found);
        let broken = breaks(given, label);
        if broken {
            return false;
        }
    }
    true
}

/// Whether what a rule gives is this cost.
fn gives(given: Given, cost: u64) -> bool
    ensures is { result ≡ comes_to given cost }
    ensures small { cost < 2 ^ 64 }
{
    match given {
        Given::Nothing => false,
        Given::Past => false,
        Given::Cost(sum) => sum == cost,
    }
}

/// Whether what a rule gives undercuts the label, or fills it where there is none.
fn breaks(given: Given, label: Option<u64>) -> bool
    ensures is { result ≡ breaks_by given label }
    ensures small { (cost : ℕ) → label ≡ Some cost → cost < 2 ^ 64 }
{
    match label {
        Some(cost) => undercuts(given, cost),
        None => fills(given),
    }
}

/// Whether what a rule gives is less than the cost.
fn undercuts(given: Given, cost: u64) -> bool
    ensures is { result ≡ breaks_by given (Some cost) }
    ensures small { cost < 2 ^ 64 }
{
    match given {
        Given::Nothing => false,
        Given::Past => false,
        Given::Cost(sum) => sum < cost,
    }
}

/// Whether a rule gives anything.
fn fills(given: Given) -> bool
    ensures { result ≡ breaks_by given None }
{
    match given {
        Given::Nothing => false,
        Given::Past => true,
        Given::Cost(_) => true,
    }
}
