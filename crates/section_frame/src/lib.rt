//! What is said of any section of a specification: parts of a line, of which shapes are made; what
//! the lines of a section declare; and its first fault, found by one pass for each kind.
//!
//! | what | file |
//! |---|---|
//! | parts of a line | `specs/Parts.antt`; `src/part.rt`; how they are read `proofs/Readings.antt` |
//! | lists of parts, and parts that follow one another | `specs/Read.antt`; `src/reading.rt` |
//! | what lines declare, and the notation of a section | `specs/Declares.antt`; `src/shapes.rt` |
//! | one pass, for any test; two tests in one pass | `specs/Passes.antt`; `src/pass.rt`, `both.rt` |
//! | what a test finds: the words for faults | `specs/Words.antt` |
//! | a name that is there already, is reserved, isn't there | `src/again.rt`, `among.rt`, `missing.rt` |
//! | a name that is one of some words, that no line before has | `src/used.rt`, `src/undeclared.rt` |
//! | a name twice in one line; a count that is passed | `src/doubled.rt`, `src/counted.rt` |
//! | a section's first fault, in the order of kinds | `specs/FirstFault.antt` |
//! | the first of the kinds with a line, and at the head | `specs/Stages.antt`; `src/kinds.rt` |
//! | one reading at most; exactly one of fault and declarations | `proofs/One.antt`; `proofs/Frame.antt` |
#![tactic(auto)]

mod again;
mod among;
mod both;
mod counted;
mod doubled;
mod gathering;
mod kinds;
mod missing;
mod part;
mod pass;
mod reading;
mod shapes;
mod undeclared;
mod used;

pub use again::{Again, Naming};
pub use among::{Among, AnyOf, WordSet, Words};
pub use both::Both;
pub use counted::{Adding, Counted, CountedNames};
pub use doubled::{HasTwo, repeats};
pub use gathering::{gather, gathered};
pub use kinds::{stages, with_head};
pub use missing::{Missing, Uses};
pub use part::{after_sign, after_word, is_sign, is_word, name_of, names_of, number_of, text_of};
pub use pass::{LineTest, Numbered, first_line};
pub use reading::{ReadPart, listed, optional, repeated};
pub use shapes::{Shapes, declared_lines};
pub use undeclared::Undeclared;
pub use used::{Called, UsesAny};
