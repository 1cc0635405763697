//! The plain labeller: from the leaves upward it finds the least cost of each node for each
//! nonterminal, and the first rule that reaches it.
//!
//! | what | file |
//! |---|---|
//! | what a rule offers at a node, and the best offers | `src/offers.rt`; `specs/within/Offers.antt` |
//! | best offers are improved until none is better | `src/closing.rt`; `proofs/Rounds.antt` |
//! | the offers of all rules at a node | `src/collecting.rt`; `specs/within/Collected.antt` |
//! | the rules that may apply at nodes of a type | `src/listing.rt`; `specs/within/Listed.antt` |
//! | the labels of one node, and of all | `src/labelling.rt`; `proofs/RowDone.antt`, `proofs/AllLabelled.antt` |
#![tactic(auto)]

mod closing;
mod collecting;
mod labelling;
mod listing;
mod offers;

pub use labelling::PlainLabels;
