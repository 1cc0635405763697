//! Patterns, routines and calls of rewriting, and the plain matcher.
//!
//! | what | file |
//! |---|---|
//! | a pattern | `src/pattern.rt`; `specs/PurePatterns.antt` |
//! | a rule with its clauses; a routine | `src/rules.rt`; `specs/Rules.antt` |
//! | what a pattern matches, and what it binds | `specs/Matches.antt` |
//! | what a call comes to, and in how many calls | `specs/Comes.antt` |
//! | of which type a value is in a world; typed rules | `specs/Typed.antt`, `specs/TypedRules.antt` |
//! | what patterns look at | `src/world.rt`; `specs/Scene.antt` |
//! | the variables that patterns bind | `src/bindings.rt`, `src/counting.rt` |
//! | the first rule that matches | `src/matcher.rt`; `specs/Found.antt` |
//! | a pattern against a value; the parts of a node | `src/matching.rt`, `src/parts.rt` |
//! | law: one match, one result | `src/laws.rt` |
//! | what usable types give; the definitions at work | `proofs/UsableTypes.antt`; `proofs/Examples.antt` |
#![tactic(auto)]

mod bindings;
mod counting;
mod laws;
mod matcher;
mod matching;
mod parts;
mod pattern;
mod rules;
mod world;

pub use bindings::Bindings;
pub use counting::variables;
pub use laws::{one_match, one_result};
pub use matcher::{InOrder, Matcher};
pub use pattern::Pattern;
pub use rules::{Clause, PumaRule, Read, Routine, Routines};
pub use world::World;
