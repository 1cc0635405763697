// The rest of a node's line, behind its type.
ghost use Rattle.std.specs.Prelude.{◌≡◌, ◌++◌, ◌<◌, ℕ, List, length, OnOk};
ghost use Rattle.tree_store.specs.Forest.{Node};

use tree_store::Tree;
use value_store::NoMemory;

/// What appends the rest of a node's line.
pub trait RestOfLine {
    /// The rest of the line of a node, among the nodes of its tree.
    ghost rest: { Self → List Node → ℕ → List ℕ };

    /// What the nodes of a tree have to be.
    ghost needs: { Self → List Node → Type 0 };

    /// Appends the rest of the node's line.
    fn push_rest(&self, out: &mut Vec<u8>, tree: &Tree, node: u32) -> Result<(), NoMemory>
        requires node { node < length tree.now }
        requires needs { needs self.now tree.now }
        ensures { OnOk result (out.new.items ≡ out.old.items ++ rest self.now tree.now node) };
}
