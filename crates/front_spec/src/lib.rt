//! The readers of the first sections of a specification: scanner rules, and the grammar.
//!
//! | what | file |
//! |---|---|
//! | a regular expression of a line, with its nesting | `specs/Regexes.antt`; `src/regexes.rt` |
//! | how the reader goes over it | `specs/RegexSteps.antt`; both are the same `proofs/RegexForms.antt` |
//! | the shapes of REX, and what a line declares | `specs/RexShapes.antt`; `src/rule.rt`, `src/declaration.rt` |
//! | the kinds of faults | `specs/RexFaults.antt`; `src/fault.rt` |
//! | the scan rules that are declared | `specs/RexRules.antt`; `src/rules.rt` |
//! | what `read_rex` gives | `specs/Promise.antt`; `src/rex.rt` |
//! | the section of a grammar | `src/grammar_text.rt` |
//! | its lines, and what they declare | `specs/GrammarShapes.antt`; `src/production.rt` |
//! | their kinds of faults | `specs/GrammarFaults.antt`; `src/production_fault.rt` |
//! | the grammar that is declared | `specs/GrammarRules.antt`; `src/grammar_rules.rt` |
//! | what `read_grammar` gives | `specs/GrammarPromise.antt`; `src/grammar.rt` |
//! | laws | `src/laws.rt` |
#![tactic(auto)]

mod declaration;
mod fault;
mod grammar;
mod grammar_rules;
mod grammar_text;
mod laws;
mod production;
mod production_fault;
mod regexes;
mod rex;
mod rule;
mod rules;

pub use cfg_model::NamedGrammar;
pub use grammar::read_grammar;
pub use laws::{
    at_most_one_declaration, at_most_one_grammar_section, at_most_one_production,
    at_most_one_regex, declared_in_range, fault_or_declarations, one_grammar, one_rex,
};
pub use rex::read_rex;
