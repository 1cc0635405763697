// FOLLOW of each nonterminal, END among it for the start symbol.
ghost use Rattle.std.specs.Prelude.{◌≡◌, ◌↔◌, ◌<◌, ◌+◌, false, ℕ, IfOk, IsTrue, All};
ghost use Rattle.ck_base.specs.BitSet.{Has};
ghost use Rattle.cfg_model.specs.declared.symbol.Sym.TheVariants.{N};
ghost use Rattle.cfg_model.specs.Cfg.{IsGrammar};
ghost use Rattle.cfg_model.specs.within.Closing.{Passes};
ghost use Rattle.cfg_model.specs.Sets.{Follow, AllProductive};
ghost use Rattle.cfg_model.specs.Promise.{AreFollows};
ghost use Rattle.cfg_model.specs.Rows.{AreRows};
ghost use Rattle.cfg_model.specs.within.Parts.{IsBelow};
ghost use Rattle.cfg_model.specs.within.Gather.{Gathers};
ghost use Rattle.cfg_model.specs.within.Trailers.{JoinsRows, Fronted, IsAhead, BeginsBehind, VanishBehind, AreBehind};

use crate::closing::nullable;
use crate::first_sets::{add_at, empty_rows, first};
use crate::grammar::{Grammar, GrammarRule};
use crate::reach::reachable;
use crate::rows::{Edge, join_row, spread};
use crate::symbol::Sym;
use ck_base::{Bits, NoMemory};
use std::alloc::Global;

/// FOLLOW of each nonterminal.
pub fn follow(alloc: Global, g: &Grammar) -> Result<Vec<Bits>, NoMemory>
    requires grammar { IsGrammar g.now }
    requires productive { AllProductive g.now }
    ensures { IfOk result (λ rows. AreFollows g.now rows.items) }
{
    let null = nullable(alloc, g)?;
    let firsts = first(alloc, g)?;
    let reach = reachable(alloc, g)?;
    let count = g.nonterminals;
    let width = g.terminals + 1;
    let mut rows = empty_rows(alloc, count, width)?;
    add_at(&mut rows, g.start, g.terminals, count, width);
    let edges = add_rules(alloc, g, &firsts, &null, &reach, &mut rows)?;
    spread(alloc, &mut rows, &edges, count, width)?;
    Ok(rows)
}

/// Adds what stands behind nonterminals in the rules of reachable ones to their rows; the answer has
/// an edge from a left side to each nonterminal behind which all vanishes.
fn add_rules(
    alloc: Global,
    g: &Grammar,
    firsts: &[Bits],
    null: &Bits,
    reach: &Bits,
    rows: &mut Vec<Bits>,
) -> Result<Vec<Edge>, NoMemory>
    requires grammar { IsGrammar g.now }
    requires firsts { AreRows g.now.nonterminals (g.now.terminals + 1) firsts.now }
    requires rows { AreRows g.now.nonterminals (g.now.terminals + 1) rows.old.items }
    ensures rows { AreRows g.now.nonterminals (g.now.terminals + 1) rows.new.items }
    ensures behind { IfOk result
        (λ edges. AreBehind g.now firsts.now null.now reach.now rows.old.items rows.new.items
        edges.items) }
{
    let count = g.nonterminals;
    let width = g.terminals + 1;
    let mut edges = Vec::new(alloc);
    let mut trailer = Bits::new(alloc, width)?;
    for (i, rule) in g.rules.iter().enumerate() {
        if reach.has(rule.left) {
            add_behind(
                rule,
                firsts,
                null,
                &mut trailer,
                rows,
                &mut edges,
                count,
                width,
            )?;
        }
    }
    Ok(edges)
}

/// Adds what stands behind the nonterminals of the rule to their rows.
fn add_behind(
    rule: &GrammarRule,
    firsts: &[Bits],
    null: &Bits,
    trailer: &mut Bits,
    rows: &mut Vec<Bits>,
    edges: &mut Vec<Edge>,
    count: u32,
    width: u32,
) -> Result<(), NoMemory>
    requires right { All (IsBelow count width) rule.now.right }
    requires firsts { AreRows count width firsts.now }
    requires rows { AreRows count width rows.old.items }
    requires trailer { trailer.old.size ≡ width }
    ensures rows { AreRows count width rows.new.items }
    ensures trailer { trailer.new.size ≡ width }
    ensures begins { IfOk result (λ _. JoinsRows rows.old.items rows.new.items
        (BeginsBehind firsts.now null.now rule.now.right)) }
    ensures edges { IfOk result (λ _. Gathers edges.old.items edges.new.items
        (VanishBehind null.now rule.now.left rule.now.right)) }
{
    trailer.clear();
    let left = rule.left;
    let right = rule.right.as_slice();
    let mut vanish = true;
    let mut i = right.len();
    while i > 0 {
        i -= 1;
        let symbol = right[i];
        put_edge(symbol, left, vanish, edges)?;
        put_behind(symbol, trailer, rows, count, width);
        vanish = put_before(symbol, firsts, null, vanish, trailer, count, width);
    }
    Ok(())
}

/// Adds the edge to a nonterminal where all behind it vanishes.
pub(crate) fn put_edge(
    symbol: Sym,
    left: u32,
    vanish: bool,
    edges: &mut Vec<Edge>,
) -> Result<(), NoMemory>
    ensures { IfOk result (λ _. Gathers edges.old.items edges.new.items (λ e. (e.from ≡ left)
        × (symbol ≡ N e.to) × IsTrue vanish)) }
{
    if let Sym::N(n) = symbol {
        if vanish {
            edges.push(Edge { from: left, to: n })?;
        }
    }
    Ok(())
}

/// Adds what stands behind it to a nonterminal's row.
fn put_behind(symbol: Sym, trailer: &Bits, rows: &mut Vec<Bits>, count: u32, width: u32)
    requires symbol { IsBelow count width symbol }
    requires rows { AreRows count width rows.old.items }
    requires trailer { trailer.now.size ≡ width }
    ensures rows { AreRows count width rows.new.items }
    ensures joined { JoinsRows rows.old.items rows.new.items
        (λ m t. (symbol ≡ N m) × Has trailer.now t) }
{
    if let Sym::N(n) = symbol {
        join_row(rows, n, trailer);
    }
}

/// Puts a symbol before what stands behind; says whether all vanishes then.
fn put_before(
    symbol: Sym,
    firsts: &[Bits],
    null: &Bits,
    vanish: bool,
    trailer: &mut Bits,
    count: u32,
    width: u32,
) -> bool
    requires symbol { IsBelow count width symbol }
    requires firsts { AreRows count width firsts.now }
    requires trailer { trailer.old.size ≡ width }
    ensures trailer { trailer.new.size ≡ width }
    ensures begins { (t : ℕ) → Has trailer.new t
        ↔ Fronted firsts.now null.now symbol (Has trailer.old) t }
    ensures vanish { IsTrue result ↔ (Passes false (Has null.now) symbol × IsTrue vanish) }
{
    match symbol {
        Sym::T(t) => {
            trailer.clear();
            trailer.add(t);
            false
        }
        Sym::N(n) => {
            let passes = null.has(n);
            if !passes {
                trailer.clear();
            }
            trailer.join(&firsts[n as usize]);
            passes && vanish
        }
    }
}
