//! Numbers and texts in print.
//!
//! | what | file |
//! |---|---|
//! | a text in quotes | `specs/Quoted.antt`; `src/quote.rt` |
//! | numbers in decimal digits | `src/number.rt` |
#![tactic(auto)]

mod number;
mod quote;

pub use number::{push_decimal, push_int};
pub use quote::push_quoted;
