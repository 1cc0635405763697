//! A tree in print: a line for each node, in preorder.
//!
//! | what | file |
//! |---|---|
//! | the printed form of a value | `specs/TreeText.antt` |
//! | a value in print | `src/value.rt` |
//! | the line of a node, with its fields | `src/line.rt` |
//! | the rest of a line, behind the type: what appends it | `src/rest.rt` |
//! | the walk that prints | `src/printer.rt`; `specs/within/Printing.antt` |
//! | where the nodes of a value stand in its tree | `proofs/Placed.antt` |
//! | a walk that went on to the end has printed the tree | `proofs/Printed.antt` |
//! | with fields the lines are the printed form | `proofs/WithFields.antt` |
#![tactic(auto)]

mod line;
mod printer;
mod rest;
mod value;

pub use printer::{push_lines, push_tree};
pub use rest::RestOfLine;
pub use value::push_value;
