//! Grammars, the sets of a grammar, and what the tables of parsers are.
//!
//! | what | file |
//! |---|---|
//! | grammars; a grammar with its names | `src/symbol.rt`, `src/grammar.rt`, `src/named.rt`; `specs/Cfg.antt` |
//! | derivations, sentences, what can still become one; derive steps | `specs/Derivation.antt`, `specs/Steps.antt` |
//! | their laws | `src/derivation_laws.rt` |
//! | the sets of a grammar; what the calls that find them give | `specs/Sets.antt`; `specs/Promise.antt` |
//! | nullable, productive; reachable | `src/closing.rt`, `proofs/Makers.antt`; `src/reach.rt` |
//! | FIRST; FOLLOW | `src/first_sets.rt`, `proofs/FirstSets.antt`; `src/follow_sets.rt`, `proofs/FollowSets.antt` |
//! | cyclic, hidden left recursive, left recursive; the least one | `specs/Searches.antt` |
//! | the same, found | `src/looping.rt`, `src/hiding.rt`, `src/met.rt`; `src/least.rt` |
//! | the same, proved | `proofs/Cycles.antt`, `proofs/HiddenRows.antt`, `proofs/LeftPaths.antt` |
//! | sets that spread along edges | `src/rows.rt` |
//! | LL(1) conflicts; LL tables | `specs/LlConflicts.antt`; `src/ll_table.rt`, `specs/LlTables.antt` |
//! | valid items, cores, united lookaheads; their laws | `specs/Valid.antt`; `src/lalr_laws.rt` |
//! | the numbering of cores; LALR conflicts | `specs/Cores.antt`; `specs/LalrConflicts.antt` |
//! | items without lookaheads | `specs/Items.antt`, `src/items.rt` |
//! | LR tables; those with the numbers of cores | `src/table.rt`, `src/action.rt`, `specs/LrTables.antt`; `specs/CoreTables.antt` |
//! | why a grammar has none | `src/refused.rt` |
#![tactic(auto)]

mod action;
mod begins;
mod closing;
mod copying;
mod derivation_laws;
mod first_sets;
mod follow_sets;
mod grammar;
mod hiding;
mod items;
mod lalr_laws;
mod least;
mod ll_table;
mod looping;
mod met;
mod named;
mod parts;
mod reach;
mod refused;
mod rows;
mod symbol;
mod table;

pub use action::LrAction;
pub use begins::add_first;
pub use closing::{nullable, productive};
pub use copying::copy_grammar;
pub use derivation_laws::{fronts_are_viable, steps_are_derivations};
pub use first_sets::first;
pub use follow_sets::follow;
pub use grammar::{Grammar, GrammarRule};
pub use hiding::hidden_left;
pub use lalr_laws::{
    cores_are_viable, lookaheads_spread, no_move_leads_to_0, rule_0_has_no_conflict,
    same_answers_same_table,
};
pub use least::unproductive;
pub use ll_table::LlTable;
pub use looping::cyclic;
pub use met::left_recursive;
pub use named::NamedGrammar;
pub use reach::reachable;
pub use refused::LalrError;
pub use symbol::Sym;
pub use table::LrTable;
