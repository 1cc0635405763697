// All pairs, nodes in preorder.
ghost use Rattle.std.specs.Prelude.{◌≡◌, ℕ, ◌<◌, List, [], ◌∷◌, length, MatchResult, OnOk, None};
ghost use Rattle.ast_types.specs.TypeTable.{IsSound};
ghost use Rattle.tree_store.specs.Forest.{IsForest, OnlyRoot, Under};
ghost use Rattle.tree_store.specs.Orders.{Preorder, IsNext};
ghost use Rattle.beg_model.specs.Accepted.{IsAccepted};
ghost use Rattle.beg_model.specs.Applies.{applies};
ghost use Rattle.beg_model.specs.Labels.{IsConsistent, IsLeastAndReached, least_of, rule_of};
ghost use Rattle.cover_check.specs.Checked.{IsFirstWrong};
ghost use Rattle.cover_check.specs.within.Pairs.{NodeChecked, WrongFirst};

use crate::pairs::first_wrong;
use ast_types::Types;
use beg_model::{CoverRules, Labels, Matched};
use tree_store::Tree;
use value_store::Texts;

/// A pair whose label isn't what its rule gives, or that some rule undercuts or fills.
#[derive(Clone, Copy, Debug, PartialEq, Eq)]
pub struct BadEntry {
    pub node: u32,
    pub nonterminal: u32,
}

/// Whether each label is what its rule gives and no rule undercuts or fills one; else the first
/// pair for which it isn't so, nodes in preorder. It takes no memory.
pub fn check(
    rules: &CoverRules,
    types: &Types,
    tree: &Tree,
    texts: &Texts,
    labels: &Labels,
) -> Result<(), BadEntry>
    requires accepted { IsAccepted texts.now rules.now types.now tree.now }
    requires root { (r : ℕ) × OnlyRoot tree.now r }
    requires nodes { labels.now.nodes ≡ length tree.now }
    requires nonterminals { labels.now.nonterminals ≡ length rules.now.nonterminals }
    ensures told { MatchResult result
        (λ done. IsConsistent (applies texts.now rules.now types.now tree.now)
        (least_of labels.now) (rule_of labels.now))
        (λ bad. (root : ℕ) (order : List ℕ) → OnlyRoot tree.now root
        → Preorder tree.now (root ∷ []) order
        → IsFirstWrong (applies texts.now rules.now types.now tree.now) (least_of labels.now)
        (rule_of labels.now) order (length rules.now.nonterminals) bad.node bad.nonterminal) }
    ensures least { OnOk result ((n x : ℕ)
        → IsLeastAndReached (applies texts.now rules.now types.now tree.now) n x
        (least_of labels.now n x) (rule_of labels.now n x)) }
{
    // What these say of the types, the tree and the labels is what the pairs past them need.
    let _types = types.len();
    let nodes = tree.len();
    let _labelled = labels.node_count();
    let root = tree.root();
    let mut found = Matched::new();
    let mut node = root;
    for _turn in 0..nodes {
        match check_node(rules, types, tree, texts, labels, root, node, &mut found) {
            Err(bad) => return Err(bad),
            Ok(None) => return Ok(()),
            Ok(Some(next)) => node = next,
        }
    }
    Ok(())
}

/// The node that stands behind this one, which is right, in preorder; or the first pair of this one
/// that isn't right.
fn check_node(
    rules: &CoverRules,
    types: &Types,
    tree: &Tree,
    texts: &Texts,
    labels: &Labels,
    root: u32,
    node: u32,
    found: &mut Matched,
) -> Result<Option<u32>, BadEntry>
    requires accepted { IsAccepted texts.now rules.now types.now tree.now }
    requires sound { IsSound types.now }
    requires forest { IsForest tree.now }
    requires root { root < length tree.now }
    requires node { node < length tree.now }
    requires under { Under tree.now root node }
    requires nodes { labels.now.nodes ≡ length tree.now }
    requires nonterminals { labels.now.nonterminals ≡ length rules.now.nonterminals }
    ensures { let A = applies texts.now rules.now types.now tree.now in MatchResult result
        (λ next. NodeChecked A (least_of labels.now) (rule_of labels.now)
        (length rules.now.nonterminals) node None
        × ((order : List ℕ) → Preorder tree.now (root ∷ []) order → IsNext order node next))
        (λ bad. (bad.node ≡ node) × WrongFirst A (least_of labels.now) (rule_of labels.now)
        (length rules.now.nonterminals) node bad.nonterminal) }
{
    match first_wrong(rules, types, tree, texts, labels, node, found) {
        Some(nonterminal) => Err(BadEntry { node, nonterminal }),
        None => Ok(tree.next_in_preorder(root, node)),
    }
}
