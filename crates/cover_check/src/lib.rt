//! The label checker: whether each label is what its rule gives, and no rule undercuts or fills
//! one. A yes implies that the labels are the least costs, whoever made them.
//!
//! | what | file |
//! |---|---|
//! | when a pair is right | `specs/Labels.antt` of `beg_model`: `IsRightAt` |
//! | the first pair that isn't right | `specs/Checked.antt` |
//! | what a rule gives at a pair | `src/giving.rt`; `specs/within/Givings.antt` |
//! | a pair against all rules | `src/pairs.rt`; `specs/within/Pairs.antt`, `proofs/PairTold.antt` |
//! | all nodes in preorder | `src/checking.rt`; `proofs/EachOnce.antt`, `proofs/Visited.antt` |
#![tactic(auto)]

mod checking;
mod giving;
mod pairs;

pub use checking::{BadEntry, check};
