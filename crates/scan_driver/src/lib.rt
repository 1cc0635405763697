//! Scanning by tables: the token or the skip of the winner at a place. It takes no memory.
//!
//! | what | file |
//! |---|---|
//! | `next`: what the tables find at a place | `src/scanning.rt` |
//! | the longest beginning that an automaton accepts | `src/running.rt`; `specs/within/Furthest.antt`, `specs/within/Found.antt` |
//! | where a token's text ends before its context | `src/cutting.rt`; `specs/within/Blocks.antt` |
//! | runs byte by byte | `proofs/RunsAlong.antt`, `proofs/FurthestRuns.antt` |
//! | going back through a word by blocks | `proofs/Flags.antt`, `proofs/Behind.antt` |
//! | what is found wins | `proofs/NextOfTables.antt` |
#![tactic(auto)]

mod cutting;
mod running;
mod scanning;

pub use scanning::next;
