// The laws of covers.
ghost use Rattle.std.specs.Prelude.{◌≡◌, ℕ, ◌+◌, ◌^◌, ◌<◌, ◌≤◌, List, [], ◌∷◌, length};
ghost use Rattle.beg_model.specs.Accepted.{IsAccepted};
ghost use Rattle.beg_model.specs.Applies.{applies};
ghost use Rattle.beg_model.specs.Cover.{Cover, Least, Chosen, Instance, Stands};
ghost use Rattle.beg_model.specs.Labels.{Costs, IsConsistent, IsLeastAndReached};
ghost use Rattle.beg_model.specs.Fitting.{Subgoal};

use crate::rules::CoverRules;
use ast_types::Types;
use tree_store::Tree;
use value_store::Texts;

/// Law: the chosen cover exists wherever a cover does, is one, and its cost is the least one. Least
/// costs stay below 2^40, and a chosen cover has at most 2^25 instances.
pub fn chosen_cover_is_least(rules: &CoverRules, types: &Types, tree: &Tree, texts: &Texts)
    requires { IsAccepted texts.now rules.now types.now tree.now }
    ensures exists { (n x c : ℕ) → Cover (applies texts.now rules.now types.now tree.now) n x c
        → (list : List Instance) × (tops : List ℕ) × (d : ℕ)
        × Stands (applies texts.now rules.now types.now tree.now) 0
        (record { node = n; nonterminal = x } ∷ []) list tops d }
    ensures one { (first : ℕ) (ps : List Subgoal) (l m : List Instance) (s t : List ℕ) (c d : ℕ)
        → Stands (applies texts.now rules.now types.now tree.now) first ps l s c
        → Stands (applies texts.now rules.now types.now tree.now) first ps m t d
        → (l ≡ m) × (s ≡ t) × (c ≡ d) }
    ensures least { (n x c first : ℕ) (list : List Instance) (tops : List ℕ)
        → Stands (applies texts.now rules.now types.now tree.now) first
        (record { node = n; nonterminal = x } ∷ []) list tops c
        → Least (applies texts.now rules.now types.now tree.now) n x c }
    ensures chosen { (n x c : ℕ) → Cover (applies texts.now rules.now types.now tree.now) n x c
        → (d : ℕ) × (r : ℕ) × (d ≤ c)
        × Chosen (applies texts.now rules.now types.now tree.now) n x d r }
    ensures below { (n x c : ℕ) → Least (applies texts.now rules.now types.now tree.now) n x c
        → c < 2 ^ 40 }
    ensures few { (n x c first : ℕ) (list : List Instance) (tops : List ℕ)
        → Stands (applies texts.now rules.now types.now tree.now) first
        (record { node = n; nonterminal = x } ∷ []) list tops c → length list ≤ 2 ^ 25 }
{
    let _types = types.len();
    let _nodes = tree.len();
}

/// Law: labels of which each is what its rule gives, and that no rule undercuts or fills, are the
/// least costs, each with a rule that reaches it, and a pair without a label has no cover. So a
/// checker need only look at one pair after the other.
pub fn consistent_labels_are_least(rules: &CoverRules, types: &Types, tree: &Tree, texts: &Texts)
    requires { IsAccepted texts.now rules.now types.now tree.now }
    ensures { (costs chosen : Costs)
        → IsConsistent (applies texts.now rules.now types.now tree.now) costs chosen
        → (n x : ℕ) → IsLeastAndReached (applies texts.now rules.now types.now tree.now) n x
        (costs n x) (chosen n x) }
{
    let _types = types.len();
    let _nodes = tree.len();
}

/// Law: a node and a nonterminal have one least cost and one chosen rule at most.
pub fn at_most_one_choice(rules: &CoverRules, types: &Types, tree: &Tree, texts: &Texts)
    ensures { (n x c d r q : ℕ) → Chosen (applies texts.now rules.now types.now tree.now) n x c r
        → Chosen (applies texts.now rules.now types.now tree.now) n x d q → (c ≡ d) × (r ≡ q) }
{}
