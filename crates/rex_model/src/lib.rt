//! The model of scanning: regular expressions with their languages, scan rules with the winner at a
//! place, scanner tables and what they have to give, and the plain scanner, which finds the winner
//! by sets of positions.
//!
//! | what | file |
//! |---|---|
//! | a regular expression, and its language | `src/regex.rt`; `specs/Language.antt`, `specs/Meaning.antt` |
//! | scan rules, and what they mean | `src/rules.rt`; `specs/Rules.antt`, `specs/RuleMeaning.antt` |
//! | candidates and the winner at a place | `specs/Winner.antt` |
//! | what a scan answers; the tokens of a whole text | `src/scan.rt`; `specs/Run.antt` |
//! | a place of a text, with its line and column | `src/place.rt`, `specs/Place.antt` |
//! | whether the empty word is in the language, how many positions | `src/empty_word.rt`, `src/counts.rt` |
//! | the positions that come first, that follow one, that take a byte | `src/firsts.rt`, `src/follows.rt`, `src/takers.rt`; `specs/Positions.antt` |
//! | scanner tables, and what they mean | `src/tables.rt`; `specs/Runs.antt`, `specs/Tables.antt`, `specs/TableMeaning.antt` |
//! | the sets of positions of all rules, and when there are too many | `specs/Sets.antt`, `specs/ScanSets.antt` |
//! | the plain scanner: its sets | `src/position_sets.rt`, `src/sets.rt` |
//! | the longest word of an expression | `src/longest.rt`; `specs/within/Longest.antt` |
//! | the best text of one rule with its context | `src/pairs.rt`; `specs/within/Pairs.antt` |
//! | the winner of all rules, and what a scan answers | `src/winner.rt`; `specs/within/Best.antt` |
//! | laws over the definitions | `src/laws.rt` |
#![tactic(auto)]

mod counts;
mod empty_word;
mod firsts;
mod follows;
mod laws;
mod longest;
mod pairs;
mod place;
mod position_sets;
mod regex;
mod rules;
mod scan;
mod sets;
mod tables;
mod takers;
mod winner;

pub use counts::positions;
pub use empty_word::nullable;
pub use firsts::add_first;
pub use follows::follow;
pub use laws::{
    at_most_one_run, at_most_one_winner, no_winner_at_end, same_tokens_after, same_winner, some_run,
};
pub use place::Place;
pub use position_sets::PositionSets;
pub use regex::Regex;
pub use rules::{ScanRule, ScanRules};
pub use scan::Scan;
pub use tables::{Dfa, ScanAction, ScanTables, Split};
pub use takers::add_takers;
pub use winner::{scan_sets, scan_with};
