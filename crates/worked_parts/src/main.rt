//! Calls the layers below the tool, with ample memory, and prints what comes.
//!
//! | question | file |
//! |---|---|
//! | grammars as they are written | `src/written.rt`; the grammars: `src/grammars.rt` |
//! | the sets of a grammar, and what it is refused for | `src/sets.rt` |
//! | LL(1) tables, and parses by them | `src/ll.rt`, `src/parses.rt` |
//! | cores and united lookaheads | `src/lalr.rt` |
//! | large grammars, which are made | `src/large.rt` |
//! | expressions in postfix form | `src/postfix.rt`; the expressions: `src/expressions.rt` |
//! | their values | `src/values.rt` |
//! | expressions as they are written in a specification, and their values | `src/infix.rt` |
//! | maps and nodes in cells | `src/cells.rt` |
//! | the types of nodes; how trees of them grow | `src/kinds.rt`; `src/growing.rt` |
//! | walks and orders | `src/trees.rt`, `src/visitors.rt` |
#![tactic(auto)]

mod cells;
mod expressions;
mod grammars;
mod growing;
mod infix;
mod kinds;
mod lalr;
mod large;
mod lines;
mod ll;
mod parses;
mod postfix;
mod sets;
mod trees;
mod values;
mod visitors;
mod written;

use anyhow::{Result, bail};
use ck_base::NoMemory;
use std::alloc::Global;
use std::env;

fn main(rt: HostRuntime) -> Result<()> {
    let alloc = rt.alloc();
    let mut words = env::args(&rt)?;
    let part = words.nth(1);
    let text = match &part {
        Some(word) => parts(alloc, word.as_str()),
        None => parts(alloc, ""),
    };
    let Ok(text) = text else {
        bail!("memory was wanting");
    };
    print!(rt; "{text}")?;
    Ok(())
}

/// What the part of this name prints; all of them where the name is empty.
fn parts(alloc: Global, name: &str) -> Result<String, NoMemory> {
    let mut out = String::new(alloc);
    if name.is_empty() || name == "grammars" {
        show_grammars(alloc, &mut out)?;
    }
    if name.is_empty() || name == "thousand" {
        large::show_thousand_sets(alloc, &mut out)?;
        large::show_thousand(alloc, &mut out)?;
    }
    if name.is_empty() || name == "chains" {
        large::show_chains(alloc, &mut out)?;
    }
    if name.is_empty() || name == "values" {
        values::show_values(alloc, expressions::ALL.as_slice(), &mut out)?;
        infix::show_infix(alloc, &mut out)?;
        cells::show_nodes(alloc, &mut out)?;
        cells::show_doubled(alloc, &mut out)?;
        cells::show_map(alloc, &mut out)?;
    }
    if name.is_empty() || name == "trees" {
        kinds::show_types(alloc, &mut out)?;
        trees::show_small(alloc, &mut out)?;
    }
    if name.is_empty() || name == "combs" {
        trees::show_chain(alloc, &mut out)?;
        trees::show_comb(alloc, &mut out)?;
    }
    Ok(out)
}

/// The parts on small grammars: sets, LL tables and parses by them, cores and lookaheads.
fn show_grammars(alloc: Global, out: &mut String) -> Result<(), NoMemory> {
    for written in grammars::ALL {
        sets::show_sets(alloc, &written, out)?;
    }
    ll::show_ll(alloc, &grammars::SUMS, "i i+i*i (i)*i - i+ i)i i+?", out)?;
    ll::show_ll(alloc, &grammars::LEFT_SUMS, "i", out)?;
    ll::show_ll(alloc, &grammars::DANGLING, "a", out)?;
    ll::show_ll(alloc, &grammars::FOLLOWED, "a", out)?;
    ll::show_ll(alloc, &grammars::WORDLESS, "a", out)?;
    lalr::show_cores(alloc, &grammars::POINTERS, "- S L R * i L= *R *L L=R", out)?;
    lalr::show_cores(alloc, &grammars::CROSSED, "ac bc", out)?;
    lalr::show_cores(alloc, &grammars::LEFT_SUMS, "E E+T", out)?;
    lalr::show_cores(alloc, &grammars::DANGLING, "iS", out)?;
    lalr::show_cores(alloc, &grammars::TAIL, "a A", out)
}
