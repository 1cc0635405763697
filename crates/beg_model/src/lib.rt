//! The model of code selection: cover rules, the covers of a tree with their costs, the chosen
//! cover, and labels.
//!
//! | what | file |
//! |---|---|
//! | rules as the program has them, and as pure values | `src/rules.rt`; `specs/Rules.antt`, `specs/RuleMeaning.antt` |
//! | when a pattern fits, with its operands and bound fields | `specs/Fitting.antt` |
//! | when a rule applies at a node; its cost there | `specs/Applies.antt` |
//! | matching a rule at a node | `src/matched.rt`, `src/matching.rt`; `specs/Matching.antt` |
//! | covers, least costs, chosen rules, the list of instances | `specs/Cover.antt` |
//! | rules and trees that a labeller is handed | `specs/Accepted.antt` |
//! | what instances hold, where values are used, needs, the register rule | `specs/Items.antt`, `specs/Registers.antt` |
//! | labels, and what a labeller gives | `src/labels.rt`, `src/labeller.rt`; `specs/Labels.antt` |
//! | an instance; why there is no code | `src/instance.rt`, `src/error.rt` |
//! | laws: the chosen cover, and bounds of its cost and its size | `src/laws.rt`; `proofs/AcceptedRules.antt` |
#![tactic(auto)]

mod error;
mod instance;
mod labeller;
mod labels;
mod laws;
mod matched;
mod matching;
mod rules;

pub use error::CodeError;
pub use instance::Instance;
pub use labeller::Labeller;
pub use labels::Labels;
pub use laws::{at_most_one_choice, chosen_cover_is_least, consistent_labels_are_least};
pub use matched::{Matched, Subgoal};
pub use matching::{applies_at, cost_at, may_apply};
pub use rules::{CoverPattern, CoverRule, CoverRules, Holding, Piece};
