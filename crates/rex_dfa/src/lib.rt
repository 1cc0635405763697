//! Scanner tables from scan rules: sets of positions, the automata whose states they are, and why
//! there are none.
//!
//! | what | file |
//! |---|---|
//! | `build`: the tables of rules | `src/building.rt` |
//! | why there are none | `src/fault.rt`; `specs/Faults.antt` |
//! | positions with the bytes that they take and what follows them | `src/positions.rt`, `src/alike.rt`; `specs/within/Positions.antt` |
//! | one walk over an expression, which finds both | `src/walk.rt`; `specs/within/Walked.antt` |
//! | those of all rules | `src/rule_positions.rt`, `src/rule_rows.rt` |
//! | those of one expression, also read from its end | `src/part_rows.rt` |
//! | sets reached from first sets, their numbers and moves | `src/subset.rt`; `specs/within/Subset.antt` |
//! | the least end mark in a set | `src/marking.rt`; `specs/within/Marks.antt` |
//! | sets, moves and marks as an automaton | `src/table.rt`; `specs/within/Parts.antt` |
//! | the main automaton of the rules | `src/main_table.rt`; `specs/within/Main.antt` |
//! | the two automata of a split; all splits | `src/parts.rt`, `src/halves.rt`, `src/splitting.rt`; `specs/within/Splits.antt` |
//! | a mark comes next exactly after the words | `src/laws.rt`; `proofs/MarkedWords.antt`, `proofs/MarkedRules.antt`, `proofs/BackwardWords.antt` |
//! | automata that accept so give the winners | `proofs/WinnersOfTables.antt` |
#![tactic(auto)]

mod alike;
mod building;
mod fault;
mod halves;
mod laws;
mod main_table;
mod marking;
mod part_rows;
mod parts;
mod positions;
mod rule_positions;
mod rule_rows;
mod splitting;
mod subset;
mod table;
mod walk;

pub use building::build;
pub use fault::DfaError;
pub use laws::{mark_follows_reversed_words, mark_follows_words};
