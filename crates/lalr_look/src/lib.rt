//! The LALR(1) automaton of a grammar: its cores with their moves, and the united lookaheads of their
//! items.
//!
//! | what | file |
//! |---|---|
//! | what cores, lookaheads and their numbering are | `specs/Valid.antt`, `specs/Cores.antt` of `cfg_model` |
//! | what the calls give | `specs/Promise.antt` |
//! | the cores' type | `src/core_list.rt` |
//! | cores: kernels by a map, moves in one pass over the items | `src/making.rt`, `src/kernels.rt` |
//! | which nonterminals a nonterminal calls | `src/calls.rt` |
//! | items as numbers, kernels; what the loops over cores leave | `specs/within/Kernel.antt` |
//! | each core is found, once, in the order in which it is first met | `proofs/OfPrefix.antt`, `RowsOf.antt`, `Grown.antt` |
//! | lookaheads: the graph that they flow along, its making | `src/lookahead_sets.rt`, `src/nodes.rt`, `src/graph.rt`, `src/rests.rt`; `specs/within/LookGraph.antt` |
//! | numbers that flow along edges, by a work list | `src/flow.rt`; `specs/within/Flow.antt`, `proofs/Flowing.antt` |
//! | what flows is what spreads over the cores | `proofs/Looking.antt`; the graph is that one: `proofs/Demands.antt`, `NodesOf.antt` |
#![tactic(auto)]

mod calls;
mod core_list;
mod flow;
mod graph;
mod kernels;
mod lookahead_sets;
mod making;
mod nodes;
mod rests;
mod rows;

pub use core_list::Cores;
pub use lookahead_sets::lookaheads;
pub use making::cores;
