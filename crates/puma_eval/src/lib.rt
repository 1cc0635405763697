//! Calls of routines within a budget. The calls that wait stand in a list.
//!
//! | what | file |
//! |---|---|
//! | what the evaluator needs and answers | `specs/Answers.antt` |
//! | calls one after the other, within the budget | `src/rewriting.rt` |
//! | frames run to the next call or to the end | `src/frames.rt`; `specs/within/Frames.antt` |
//! | expressions and reads | `src/evaluating.rt`; `specs/within/Evaluating.antt` |
//! | what waits for a call, as pure values | `specs/within/Machine.antt` |
//! | one step each; the definitions at work | `proofs/Steps.antt`; `proofs/Examples.antt` |
#![tactic(auto)]

mod evaluating;
mod frames;
mod results;
mod rewriting;

pub use results::{RewriteError, Rewritten};
pub use rewriting::run;
