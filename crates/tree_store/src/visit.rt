// The trait of what a walk calls at each node.
ghost use Rattle.std.specs.Prelude.{ℕ, List, Bool, ◌<◌, length};
ghost use Rattle.tree_store.specs.Forest.{Node};

use crate::tree::Tree;

/// What a walk calls: `enter` at each node before its children, and `leave` after them. A call that
/// answers false stops the walk at its node.
pub trait Visit {
    /// What a call of `enter` at a node makes of the visitor, and what it answers.
    ghost enters: { List Node → ℕ → Self → Bool → Self → Type 0 };

    /// What a call of `leave` at a node makes of the visitor, and what it answers.
    ghost leaves: { List Node → ℕ → Self → Bool → Self → Type 0 };

    /// What the visitor needs before each call, and keeps.
    ghost ready: { List Node → Self → Type 0 };

    /// Called at the node before its children are visited.
    fn enter(&mut self, tree: &Tree, node: u32) -> bool
        requires node { node < length tree.now }
        requires ready { ready tree.now self.old }
        ensures enters { enters tree.now node self.old result self.new }
        ensures ready { ready tree.now self.new };

    /// Called at the node after its children were visited.
    fn leave(&mut self, tree: &Tree, node: u32) -> bool
        requires node { node < length tree.now }
        requires ready { ready tree.now self.old }
        ensures leaves { leaves tree.now node self.old result self.new }
        ensures ready { ready tree.now self.new };
}
