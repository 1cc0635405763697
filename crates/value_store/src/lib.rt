//! Values, texts as spans, and cells that never change once they are made: maps and nodes.
//!
//! | what | file |
//! |---|---|
//! | want of memory; a name | `src/memory.rt`, `src/name.rt` |
//! | a text, and the literals that texts lie in | `src/text.rt`, `src/literals.rt`; `specs/Texts.antt` |
//! | a value and its type | `src/value.rt` |
//! | maps as lists of pairs, made nodes as trees | `specs/Maps.antt`, `specs/MadeTrees.antt` |
//! | the cells, and what each call makes of them | `src/cells.rt`; `specs/Cells.antt` |
//! | what one unit of the store says of its cell | `src/unit.rt`; `specs/UnitFacts.antt` |
//! | units packed into slots | `src/slot.rt`, `src/units.rt`; `specs/Slots.antt` |
//! | adding a unit changes no cell | `proofs/CellsStay.antt` |
//! | a pair in front, a made node | `proofs/PairAdded.antt`, `proofs/NodeMade.antt` |
//! | a look-up in a map; the parts of a node | `proofs/PairFound.antt`, `proofs/PartsStand.antt` |
#![tactic(auto)]

mod cells;
mod laws;
mod literals;
mod memory;
mod name;
mod slot;
mod text;
mod unit;
mod units;
mod value;

pub use cells::Cells;
pub use laws::cells_stay;
pub use literals::Literals;
pub use memory::NoMemory;
pub use name::Name;
pub use text::{Text, TextOf, Texts};
pub use value::{ValType, Value};
