//! The instances of a chosen cover, their registers and their text.
//!
//! | what | file |
//! |---|---|
//! | the list of the chosen cover's instances | `src/choosing.rt`; `specs/Chosen.antt`, `proofs/Walk.antt` |
//! | where each value is used | `src/uses.rt`; `proofs/UseLaws.antt` |
//! | how many registers a class needs | `src/need.rt`; `proofs/NeedSoFar.antt` |
//! | registers by the rule of the least free one | `src/assigning.rt`; `specs/Assigned.antt`, `proofs/RegisterLaws.antt` |
//! | the text of the list | `src/emitting.rt`; `specs/Code.antt`, `proofs/CodeTexts.antt` |
//! | the fields that a rule binds | `src/variables.rt`; `specs/Bound.antt`, `proofs/BoundFields.antt` |
//! | items, uses, needs and registers as words | `specs/Items.antt`, `specs/Registers.antt` of `beg_model` |
#![tactic(auto)]

mod assigning;
mod choosing;
mod emitting;
mod items;
mod laws;
mod need;
mod uses;
mod variables;

pub use assigning::assign;
pub use choosing::choose;
pub use emitting::emit;
pub use laws::bound_as_it_fits;
