//! The top call: one command line over files and sinks.
//!
//! | what | file |
//! |---|---|
//! | the call, in the order of what is done | `src/top.rt` |
//! | what a run is to answer, and which files it reads | `specs/Wanted.antt` |
//! | how a run ends | `specs/Ran.antt`; `src/stop.rt`, `src/telling.rt` |
//! | which words are right, and the stage that they ask for | `src/words.rt`, `src/stage.rt`; `specs/Words.antt` |
//! | which specifications are accepted, and what a stage makes of a source | `ck_chain` |
//! | words of contracts within the crate | `specs/within.antt` |
//! | a run has one answer | `src/laws.rt`; `proofs/OneOutcome.antt`, `proofs/SomeOutcome.antt` |
#![tactic(auto)]

mod laws;
mod stage;
mod stop;
mod telling;
mod top;
mod words;

pub use laws::{at_most_one_answer, some_answer};
pub use top::cocktail;
