//! The LL(1) table of a grammar, or the first reason in order why there is none.
//!
//! | what | file |
//! |---|---|
//! | the table; what it answers, by one look-up | `src/plain.rt`; `src/asked.rt`, `specs/Table.antt` |
//! | why there is none | `src/refusal.rt`; `specs/Promise.antt` |
//! | the table of a grammar; the terminals that a rule is for | `src/making.rt`; `specs/Promise.antt` |
//! | cells and the least conflict, rule by rule | `src/fill.rt`; `specs/within/Fill.antt` |
//! | filled cells are the predictions, the least clash is the report | `proofs/Exact.antt` |
//! | a grammar has a table or one refusal | `src/laws.rt`, `proofs/OneAnswer.antt` |
#![tactic(auto)]

mod asked;
mod fill;
mod laws;
mod making;
mod plain;
mod refusal;

pub use laws::one_answer;
pub use making::build;
pub use plain::PlainLl;
pub use refusal::EllError;
