//! The LALR(1) table of a grammar, or the first reason in order why there is none.
//!
//! | what | file |
//! |---|---|
//! | the table; its answers, by one look-up | `src/plain.rt`; `src/asked.rt`, `specs/Table.antt` |
//! | the table of a grammar, or why there is none | `src/making.rt`; `specs/Promise.antt` |
//! | the rows of a core, from moves and lookaheads | `src/rows.rt`; `specs/within/Rows.antt` |
//! | the rows of all cores | `src/fill.rt`; `specs/within/Rows.antt` |
//! | the least conflict, while cells are filled | `src/clash.rt`; `specs/within/Clashes.antt` |
//! | filled cells are the actions, the least clash is the report | `proofs/Exact.antt` |
//! | a grammar has a table or one refusal | `src/laws.rt`, `proofs/OneAnswer.antt` |
#![tactic(auto)]

mod asked;
mod clash;
mod fill;
mod laws;
mod making;
mod plain;
mod rows;

pub use laws::{conflicts_are_of_rules, one_answer};
pub use making::build;
pub use plain::PlainLr;
