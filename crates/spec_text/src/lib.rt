//! A specification's lines, their tokens and the sections that they stand in.
//!
//! | what | file |
//! |---|---|
//! | the bytes of a line; tokens and what they say | `specs/Bytes.antt`; `specs/Lexemes.antt` |
//! | strings; classes | `specs/Escapes.antt`; `specs/Classes.antt`; `src/text.rt`, `src/class.rt` |
//! | a line's tokens up to its first fault | `specs/Reading.antt`; `src/token.rt` |
//! | lines and their places | `specs/TextLines.antt`, `specs/Lines.antt`; `src/line.rt` |
//! | the order of sections, and its first fault | `specs/Sections.antt`; `src/order.rt` |
//! | what `sections` gives | `specs/Promise.antt`, `specs/Spans.antt`; `src/read.rt` |
//! | a line's tokens by what they say | `specs/Seen.antt`; `src/view.rt` |
//! | the least number with a property, for a first line | `specs/Least.antt` |
//! | laws | `specs/Laws.antt`; `src/laws.rt` |
#![tactic(auto)]

mod bytes;
mod class;
mod laws;
mod line;
mod order;
mod read;
mod section;
mod text;
mod token;
mod view;

pub use laws::{
    at_most_one_file, at_most_one_order, at_most_one_reading, at_most_one_section,
    at_most_one_section_fault, one_token_begins, some_file, some_order, some_reading, some_rex,
};
pub use line::SpecLine;
pub use read::{first_other, rex_of, section_of, sections};
pub use section::{Part, Section, SectionText, Sections};
pub use token::{SpecSort, SpecToken};
pub use view::{Token, tokens_in};
