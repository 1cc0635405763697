//! The chain of a run: what a specification declares and its tables, and what a stage makes of a source.
//!
//! | what | file |
//! |---|---|
//! | which specifications are accepted, and why another one is refused | `specs/Accepts.antt`, `specs/RexAccepts.antt`, `specs/GrammarAccepts.antt`, `specs/AstAccepts.antt` |
//! | the tools of an accepted one, reader by reader | `src/accepting.rt`, `src/toolset.rt`; `specs/Tools.antt`, `specs/Promise.antt` |
//! | a grammar's parser, or its refusal with its names | `src/parser.rt`, `src/naming.rt` |
//! | what a stage makes of a source, or the first refusal | `src/answering.rt`, `src/stage.rt`; `specs/Answers.antt` |
//! | its tokens as text | `src/token_text.rt`; `specs/Scanning.antt`, `specs/TokenText.antt` |
//! | their derivation as text | `src/derivation.rt`, `src/derive_text.rt`; `specs/Deriving.antt`, `specs/DeriveText.antt` |
//! | their tree as text | `src/source_tree.rt`; `specs/Treeing.antt` |
//! | its tokens as a stream | `src/source_tokens.rt`; `specs/within/Streams.antt`, `proofs/Drawing.antt`, `proofs/HasRun.antt` |
//! | line and column of a place | `src/place.rt` |
//! | words of contracts within the crate | `specs/within.antt` |
//! | one acceptance or refusal, one answer | `src/laws.rt`; `proofs/AcceptedOrRefused.antt`, `proofs/OneAnswer.antt` |
#![tactic(auto)]

mod accepting;
mod answering;
mod derivation;
mod derive_text;
mod laws;
mod naming;
mod parser;
mod refused;
mod source_tokens;
mod source_tree;
mod stage;
mod token_text;
mod toolset;

pub use accepting::accept;
pub use answering::{meaning, without_section};
pub use laws::{at_most_one_meaning, one_acceptance, some_meaning};
pub use refused::Refused;
pub use stage::Stage;
pub use toolset::{Parser, Toolset};
