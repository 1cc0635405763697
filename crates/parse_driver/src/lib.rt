//! The drivers of parse tables: from tokens that are drawn one at a time to the steps of their derivation,
//! or the first wrong place.
//!
//! | what | file |
//! |---|---|
//! | streams of tokens; a list as one | `src/tokens.rt`, `specs/Stream.antt`; `src/listed.rt`, `specs/Listed.antt` |
//! | what the answer of a parse says | `src/step.rt`, `src/refusal.rt`; `specs/Parse.antt` |
//! | the driver of LL tables | `src/ll.rt`; `specs/within/LlStack.antt` |
//! | what its stack derives, turn by turn; why it ends | `proofs/Stack.antt`, `proofs/Turn.antt`; `proofs/Opening.antt`, `proofs/Load.antt` |
//! | what was read is viable; each end of a parse | `proofs/Viable.antt`, `proofs/Parsing.antt` |
//! | the driver of LR tables | `src/lr.rt`; `specs/within/LrStack.antt` |
//! | it makes each derivation's steps, and no others | `proofs/LrComplete.antt`, `proofs/LrOneParse.antt` |
//! | what its stack says, step by step; each end | `proofs/LrPrefix.antt`, `proofs/LrTurn.antt`; `proofs/LrEnds.antt` |
//! | why it ends | `proofs/LrMeasure.antt`; `proofs/Spine.antt`, `proofs/Height.antt`, `proofs/StackNumber.antt` |
//! | one derivation at most | `src/laws.rt`; `proofs/OneDerivation.antt`, `proofs/LrOneDerivation.antt` |
//! | one answer | `src/laws.rt`; `proofs/OneParse.antt` |
#![tactic(auto)]

mod laws;
mod listed;
mod ll;
mod lr;
mod refusal;
mod step;
mod tokens;

pub use laws::{at_most_one_derivation, at_most_one_lr_derivation, one_parse};
pub use listed::Listed;
pub use ll::parse_ll;
pub use lr::parse_lr;
pub use refusal::ParseError;
pub use step::Step;
pub use tokens::{Next, TokenRef, Tokens};
