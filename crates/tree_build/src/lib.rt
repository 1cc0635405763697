//! The source tree of a derivation: what the expressions of its rules build, bottom up.
//!
//! | what | file |
//! |---|---|
//! | why there is no tree | `src/error.rt` |
//! | the value of a derivation; what a build answers | `specs/Built.antt` |
//! | the nodes of a value as one list; a tree that shows it, with nothing beside it | `specs/Shown.antt` |
//! | steps replayed on a list of values | `src/building.rt`; `specs/within/Replaying.antt` |
//! | the texts and places of a source's tokens | `src/token_list.rt`, `src/place.rt` |
//! | a made node laid out as a tree | `src/laying.rt`; `specs/within/Laying.antt` |
//! | replaying leaves the value of the derivation | `proofs/Replayed.antt` |
//! | that value is of its family, and its tree conforms | `src/laws.rt`; `proofs/Typed.antt`, `proofs/Conforming.antt` |
//! | a visit, a node laid out | `proofs/Visiting.antt`, `proofs/NodeLaid.antt` |
//! | the whole tree shows the value | `proofs/Showing.antt` |
//! | its nodes are those of the value, which are one tree | `proofs/NodesNumbered.antt`, `proofs/NodesLinked.antt` |
#![tactic(auto)]

mod building;
mod error;
mod laws;
mod laying;
mod token_list;

pub use building::build;
pub use error::BuildError;
pub use laws::{
    built_of_its_family, made_of_a_family_fits, nodes_make_a_tree, one_tree_of_a_value,
};
pub use laying::lay_out;
