//! The section AG: attributes of families, equations of types, and the attribution that they make.
//!
//! | what | file |
//! |---|---|
//! | AG's lines | `src/line.rt`, `src/shapes.rt`; `specs/AgShapes.antt` |
//! | what their names stand for | `specs/AgPlaces.antt` |
//! | the attributes that they declare | `specs/AgAttributes.antt` |
//! | what equations use and mean | `specs/AgEquations.antt` |
//! | faults of AG | `specs/AgFaults.antt` |
//! | kinds twice, unknown and limit | `src/faults.rt`, `src/naming.rt`, `src/known.rt` |
//! | the tests that the frame doesn't have | `src/unknown_makers.rt`, `src/crowded.rt` |
//! | what a section without a fault is refused for | `src/fault.rt`; `specs/AgRefusals.antt` |
//! | what the reader is to give | `specs/AgPromise.antt` |
//! | laws | `src/laws.rt` |
#![tactic(auto)]

mod crowded;
mod fault;
mod faults;
mod known;
mod laws;
mod line;
mod naming;
mod shapes;
mod unknown_makers;

pub use fault::AgFault;
pub use laws::{ag_fault_or_declarations, at_most_one_ag_line};
