//! Trees linked by parent, first child, next sibling and child number. Their walk is a fold.
//!
//! | what | file |
//! |---|---|
//! | nodes and their children; roots; what lies under a node | `specs/Forest.antt` |
//! | a tree that conforms to types | `specs/Conforms.antt` |
//! | a made tree that conforms to types | `specs/Fitting.antt` |
//! | the tree, and what each call makes of it | `src/tree.rt` |
//! | what a walk calls; the fold | `src/visit.rt`; `specs/Folds.antt` |
//! | preorder and postorder | `specs/Orders.antt` |
//! | how links keep a forest | `specs/Links.antt`, `specs/Linking.antt` |
//! | one node more over some roots | `proofs/NodeAdded.antt`, `proofs/LabelsRead.antt`, `proofs/TreeGrown.antt` |
//! | a conforming tree stays so; the last node is a root | `proofs/StaysConforming.antt`, `proofs/LastIsRoot.antt` |
//! | a step of a walk, and why it ends | `proofs/WalkSteps.antt`, `proofs/LinksAgree.antt`, `proofs/CallsToCome.antt` |
//! | the next node in each order | `proofs/NextInPreorder.antt`, `proofs/NextInPostorder.antt` |
//! | law: there is one preorder and one postorder | `src/laws.rt`; `proofs/SomeOrder.antt` |
#![tactic(auto)]

mod laws;
mod tree;
mod visit;

pub use laws::one_order;
pub use tree::{AddError, Tree};
pub use visit::Visit;
