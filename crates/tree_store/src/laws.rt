// A law, on an empty function: a tree has one preorder and one postorder.
ghost use Rattle.std.specs.Prelude.{◌≡◌, ℕ, List, [], ◌∷◌};
ghost use Rattle.tree_store.specs.Orders.{Preorder, Postorder};

use crate::tree::Tree;

/// Law: what is under a node has one preorder and one postorder. So `next_in_preorder` and
/// `next_in_postorder`, which speak of each order that there is, speak of exactly one.
pub fn one_order(tree: &Tree)
    ensures preorder { (root : ℕ) → (order : List ℕ) × Preorder tree.now (root ∷ []) order }
    ensures one_preorder { (root : ℕ) (a b : List ℕ)
        → Preorder tree.now (root ∷ []) a → Preorder tree.now (root ∷ []) b → a ≡ b }
    ensures postorder { (root : ℕ) → (order : List ℕ) × Postorder tree.now (root ∷ []) order }
    ensures one_postorder { (root : ℕ) (a b : List ℕ)
        → Postorder tree.now (root ∷ []) a → Postorder tree.now (root ∷ []) b → a ≡ b }
{
    let _count = tree.len();
}
