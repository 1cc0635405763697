// FIRST of each nonterminal, by edges from a left side to what stands first.
ghost use Rattle.std.specs.Prelude.{◌≡◌, ◌↔◌, ◌<◌, ◌≤◌, ◌+◌, ◌⊎◌, true, false, ℕ, IfOk, IsTrue, All, length, ◌∷◌, []};
ghost use Rattle.ck_base.specs.BitSet.{Has};
ghost use Rattle.cfg_model.specs.declared.symbol.Sym.TheVariants.{T, N};
ghost use Rattle.cfg_model.specs.Cfg.{IsGrammar};
ghost use Rattle.cfg_model.specs.Sets.{First, AllProductive};
ghost use Rattle.cfg_model.specs.Promise.{AreFirsts};
ghost use Rattle.cfg_model.specs.Rows.{In, AreRows};
ghost use Rattle.cfg_model.specs.within.Spreading.{IsInside, IsEdge};
ghost use Rattle.cfg_model.specs.within.Parts.{At, AreInRange, IsAddedAt, AreFirstBase, AreFirstEdges};

use crate::closing::nullable;
use crate::grammar::Grammar;
use crate::parts::{Part, left_parts};
use crate::rows::{Edge, spread};
use crate::symbol::Sym;
use ck_base::{Bits, NoMemory};
use std::alloc::Global;

/// FIRST of each nonterminal.
pub fn first(alloc: Global, g: &Grammar) -> Result<Vec<Bits>, NoMemory>
    requires grammar { IsGrammar g.now }
    requires productive { AllProductive g.now }
    ensures { IfOk result (λ rows. AreFirsts g.now rows.items) }
{
    let null = nullable(alloc, g)?;
    let parts = left_parts(alloc, g, &null)?;
    let nonterminals = g.nonterminals;
    let width = g.terminals + 1;
    let edges = first_edges(alloc, &parts, nonterminals)?;
    let mut rows = first_base(alloc, &parts, nonterminals, width)?;
    spread(alloc, &mut rows, &edges, nonterminals, width)?;
    Ok(rows)
}

/// The terminals among the parts, in the rows of their left sides.
fn first_base(alloc: Global, parts: &[Part], count: u32, width: u32) -> Result<Vec<Bits>, NoMemory>
    requires { AreInRange count width parts.now }
    ensures { IfOk result (λ rows. AreFirstBase count width parts.now rows.items) }
{
    let mut rows = empty_rows(alloc, count, width)?;
    for part in parts {
        if let Sym::T(t) = part.symbol {
            add_at(&mut rows, part.left, t, count, width);
        }
    }
    Ok(rows)
}

/// An edge from each nonterminal among the parts to its left side.
pub(crate) fn first_edges(alloc: Global, parts: &[Part], count: u32) -> Result<Vec<Edge>, NoMemory>
    requires { (width : ℕ) × AreInRange count width parts.now }
    ensures { IfOk result (λ edges. AreFirstEdges count parts.now edges.items) }
{
    let mut edges = Vec::new(alloc);
    let mut i = parts.len();
    while i > 0 {
        i -= 1;
        let part = parts[i];
        if let Sym::N(n) = part.symbol {
            edges.push(Edge {
                from: n,
                to: part.left,
            })?;
        }
    }
    Ok(edges)
}

/// Adds the number to the row.
pub(crate) fn add_at(rows: &mut Vec<Bits>, n: u32, t: u32, count: u32, width: u32)
    requires rows { AreRows count width rows.old.items }
    requires row { n < count }
    requires number { t < width }
    ensures rows { AreRows count width rows.new.items }
    ensures added { IsAddedAt rows.old.items n t rows.new.items }
{
    rows[n as usize].add(t);
}

/// So many empty rows.
pub(crate) fn empty_rows(alloc: Global, count: u32, width: u32) -> Result<Vec<Bits>, NoMemory>
    ensures rows { IfOk result (λ rows. AreRows count width rows.items) }
    ensures empty { IfOk result (λ rows. (n t : ℕ) → In rows.items n t → ⊥) }
{
    let mut rows = Vec::new(alloc);
    for _ in 0..count {
        rows.push(Bits::new(alloc, width)?)?;
    }
    Ok(rows)
}
