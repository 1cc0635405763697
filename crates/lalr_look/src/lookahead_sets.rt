// Lookaheads of all items: what is met behind a call, and what flows in from callers.
ghost use Rattle.std.specs.Prelude.{◌≡◌, ℕ, List, ◌+◌, ◌<◌, ◌≤◌, ◌^◌, ◌↔◌, length, All, IfOk, OnOk, IsTrue, Contains, slice_get, Some};
ghost use Rattle.ck_base.specs.BitSet.{BitSet, Has};
ghost use Rattle.cfg_model.specs.declared.symbol.Sym.{Sym};
ghost use Rattle.cfg_model.specs.Cfg.{IsGrammar, IsSymbol};
ghost use Rattle.cfg_model.specs.Sets.{First, Nullable, AllProductive};
ghost use Rattle.cfg_model.specs.Cores.{IsCores, items_at};
ghost use Rattle.lalr_look.specs.within.Flow.{Edge, set_at};
ghost use Rattle.lalr_look.specs.within.Rows.{rows_of};
ghost use Rattle.lalr_look.specs.within.Kernel.{AreShort, place_of};
ghost use Rattle.lalr_look.specs.within.Graph.{InSet, Grows, IsSized, SetsGrow, OfFirst};
ghost use Rattle.lalr_look.specs.within.Rests.{AreRests, rest_of};
ghost use Rattle.lalr_look.specs.within.LookGraph.{slot_of, OwnBy, LeadsBy, OwnIn, LeadsIn, Own, Leads, AreNodes, AreTargets, IsNodeSet, AreNodeSets};
ghost use Rattle.lalr_look.specs.Promise.{AreLookaheads, sets_of};

use crate::core_list::Cores;
use crate::flow::spread;
use crate::graph::Graph;
use crate::making::{is_short, order_of};
use crate::nodes::Nodes;
use crate::rests::Rests;
use cfg_model::{Grammar, Sym};
use ck_base::{Bits, NoMemory};
use std::alloc::Global;

/// The slot of an item in its core.
fn slot_at(g: &Grammar, rule: u32, dot: u32) -> u32
    requires grammar { IsGrammar g.now }
    requires rule { rule ≤ length g.now.rules }
    requires dot { dot ≤ 1048576 }
    ensures { result ≡ slot_of g.now rule dot }
{
    if dot > 0 {
        return dot * 2048 + rule;
    }
    if rule > 0 {
        return g.rule(rule - 1).left + 1;
    }
    0
}

/// Numbers the nodes of a core's items.
fn add_nodes(
    g: &Grammar,
    core: u32,
    items: &[(u32, u32)],
    nodes: &mut Nodes,
) -> Result<(), NoMemory>
    requires grammar { IsGrammar g.now }
    requires rules { All (λ item. item.0 ≤ length g.now.rules) items.now }
    requires dots { All (λ item. item.1 ≤ 1048576) items.now }
    ensures kept { OnOk result
        ((node : ℕ × ℕ) → Contains nodes.old node → Contains nodes.new node) }
    ensures all { OnOk result ((r d : ℕ) → Contains items.now (r, d)
        → Contains nodes.new (core, slot_of g.now r d)) }
{
    for item in items {
        let (rule, dot) = *item;
        nodes.number_of((core, slot_at(g, rule, dot)))?;
    }
    Ok(())
}

/// The nodes of all items.
fn nodes_of(alloc: Global, g: &Grammar, cores: &Cores) -> Result<Nodes, NoMemory>
    requires grammar { IsGrammar g.now }
    requires productive { AllProductive g.now }
    requires short { AreShort g.now }
    requires cores { IsCores g.now cores.now }
    requires few { length cores.now.items ≤ 4096 }
    ensures { IfOk result (AreNodes g.now cores.now) }
{
    let mut nodes = Nodes::new(alloc);
    for core in 0..cores.len() {
        add_nodes(g, core, cores.items(core), &mut nodes)?;
    }
    Ok(nodes)
}

/// The cores that moves lead to, by the symbols' places in the order.
fn targets_of(alloc: Global, g: &Grammar, moves: &[(Sym, u32)]) -> Result<Vec<u32>, NoMemory>
    requires grammar { IsGrammar g.now }
    requires symbols { All (λ m. IsSymbol g.now m.0) moves.now }
    requires one { (x : Sym) (o m : ℕ) → Contains moves.now (x, o) → Contains moves.now (x, m)
        → o ≡ m }
    ensures long { IfOk result
        (λ targets. length targets.items ≡ g.now.terminals + g.now.nonterminals) }
    ensures targets { IfOk result (λ targets. (x : Sym) (o : ℕ) → Contains moves.now (x, o)
        → slice_get targets.items (place_of g.now x) ≡ Some o) }
{
    let mut targets = vec![in alloc; 0u32; (g.terminals + g.nonterminals) as usize]?;
    for found in moves {
        let (symbol, core) = *found;
        targets[order_of(g, symbol) as usize] = core;
    }
    Ok(targets)
}

/// Puts what the rule's symbols from a place on begin with into a node's set, and says whether they can
/// vanish.
fn add_rest(
    g: &Grammar,
    rests: &Rests,
    sets: &mut Vec<Bits>,
    node: u32,
    rule: u32,
    from: u32,
) -> bool
    requires grammar { IsGrammar g.now }
    requires productive { AllProductive g.now }
    requires short { AreShort g.now }
    requires rests { AreRests g.now rests.now }
    requires rule { rule ≤ length g.now.rules }
    requires node { node < length sets.old.items }
    requires sizes { All (λ set. set.size ≡ g.now.terminals + 1) sets.old.items }
    ensures sets { SetsGrow sets.old.items sets.new.items (λ k a. (k ≡ node) × First g.now
        (rest_of g.now rule from) a) }
    ensures vanish { IsTrue result ↔ Nullable g.now (rest_of g.now rule from) }
{
    let set = &mut sets[node as usize];
    rests.add(g, rule, from, set)
}

/// Goes on from an item, at node `from`, to what it calls, at node `to`.
fn add_called(
    g: &Grammar,
    rests: &Rests,
    graph: &mut Graph,
    item: (u32, u32),
    from: u32,
    to: u32,
) -> Result<(), NoMemory>
    requires grammar { IsGrammar g.now }
    requires productive { AllProductive g.now }
    requires short { AreShort g.now }
    requires rests { AreRests g.now rests.now }
    requires rule { item.0 ≤ length g.now.rules }
    requires dot { item.1 ≤ 1048576 }
    requires nodes { (from < length graph.old.edges.items) × (to < length graph.old.sets.items) }
    requires sizes { All (λ set. set.size ≡ g.now.terminals + 1) graph.old.sets.items }
    ensures { OnOk result (Grows graph.old graph.new
        (λ k j. (k ≡ from) × (j ≡ to) × Nullable g.now (rest_of g.now item.0 (item.1 + 1)))
        (λ k a. (k ≡ to) × First g.now (rest_of g.now item.0 (item.1 + 1)) a)) }
{
    let (rule, dot) = item;
    if !add_rest(g, rests, &mut graph.sets, to, rule, dot + 1) {
        return Ok(());
    }
    graph.lead(from, to)?;
    Ok(())
}

/// Puts in what an item of a core demands: edges from its node, and numbers of what it calls.
fn add_item(
    g: &Grammar,
    rests: &Rests,
    cores: &Cores,
    nodes: &Nodes,
    targets: &[u32],
    graph: &mut Graph,
    core: u32,
    item: (u32, u32),
) -> Result<(), NoMemory>
    requires grammar { IsGrammar g.now }
    requires productive { AllProductive g.now }
    requires short { AreShort g.now }
    requires cores { IsCores g.now cores.now }
    requires rests { AreRests g.now rests.now }
    requires nodes { AreNodes g.now cores.now nodes.now }
    requires long { length targets.now ≡ g.now.terminals + g.now.nonterminals }
    requires targets { AreTargets g.now cores.now core targets.now }
    requires graph { IsSized (length nodes.now) (g.now.terminals + 1) graph.old }
    requires item { Contains (items_at cores.now core) item }
    ensures { OnOk result (Grows graph.old graph.new
        (LeadsBy g.now cores.now nodes.now core item.0 item.1)
        (OwnBy g.now nodes.now core item.0 item.1)) }
{
    let (rule, dot) = item;
    let Some(symbol) = g.behind(rule, dot) else {
        return Ok(());
    };
    let from = nodes.find((core, slot_at(g, rule, dot)));
    let target = targets[order_of(g, symbol) as usize];
    let next = nodes.find((target, slot_at(g, rule, dot + 1)));
    graph.lead(from, next)?;
    let Sym::N(called) = symbol else {
        return Ok(());
    };
    let to = nodes.find((core, called + 1));
    add_called(g, rests, graph, item, from, to)?;
    Ok(())
}

/// Puts in what the items of a core demand.
fn add_items(
    alloc: Global,
    g: &Grammar,
    rests: &Rests,
    cores: &Cores,
    nodes: &Nodes,
    graph: &mut Graph,
    core: u32,
) -> Result<(), NoMemory>
    requires grammar { IsGrammar g.now }
    requires productive { AllProductive g.now }
    requires short { AreShort g.now }
    requires cores { IsCores g.now cores.now }
    requires rests { AreRests g.now rests.now }
    requires nodes { AreNodes g.now cores.now nodes.now }
    requires core { core < length cores.now.items }
    requires graph { IsSized (length nodes.now) (g.now.terminals + 1) graph.old }
    ensures { OnOk result (Grows graph.old graph.new (LeadsIn g.now cores.now nodes.now core)
        (OwnIn g.now cores.now nodes.now core)) }
{
    let targets = targets_of(alloc, g, cores.moves(core))?;
    let items = cores.items(core);
    for item in items {
        add_item(g, rests, cores, nodes, &targets, graph, core, *item)?;
    }
    Ok(())
}

/// The graph along which lookaheads flow.
fn graph_of(
    alloc: Global,
    g: &Grammar,
    rests: &Rests,
    cores: &Cores,
    nodes: &Nodes,
) -> Result<Graph, NoMemory>
    requires grammar { IsGrammar g.now }
    requires productive { AllProductive g.now }
    requires short { AreShort g.now }
    requires cores { IsCores g.now cores.now }
    requires few { length cores.now.items ≤ 4096 }
    requires rests { AreRests g.now rests.now }
    requires nodes { AreNodes g.now cores.now nodes.now }
    ensures sized { IfOk result (IsSized (length nodes.now) (g.now.terminals + 1)) }
    ensures edges { IfOk result (λ graph. (k j : ℕ) → Edge (rows_of graph.edges.items) k j
        ↔ Leads g.now cores.now nodes.now k j) }
    ensures own { IfOk result (λ graph. (k a : ℕ) → InSet graph.sets.items k a
        ↔ Own g.now cores.now nodes.now k a) }
{
    let mut graph = Graph::new(alloc, nodes.len(), g.terminals + 1)?;
    let start = nodes.find((0, 0));
    graph.add(start, g.terminals);
    for core in 0..cores.len() {
        add_items(alloc, g, rests, cores, nodes, &mut graph, core)?;
    }
    Ok(graph)
}

/// A set with the same numbers.
fn copy_of(alloc: Global, set: &Bits) -> Result<Bits, NoMemory>
    ensures size { IfOk result (λ copy. copy.size ≡ set.now.size) }
    ensures has { IfOk result (λ copy. (a : ℕ) → Has copy a ↔ Has set.now a) }
{
    let mut copy = Bits::new(alloc, set.size())?;
    copy.join(set);
    Ok(copy)
}

/// The sets of a core's items, in the places of the items.
fn looks_of(
    alloc: Global,
    g: &Grammar,
    nodes: &Nodes,
    sets: &[Bits],
    core: u32,
    items: &[(u32, u32)],
) -> Result<Vec<Bits>, NoMemory>
    requires grammar { IsGrammar g.now }
    requires rules { All (λ item. item.0 ≤ length g.now.rules) items.now }
    requires dots { All (λ item. item.1 ≤ 1048576) items.now }
    requires nodes { (r d : ℕ) → Contains items.now (r, d)
        → Contains nodes.now (core, slot_of g.now r d) }
    requires sets { length sets.now ≡ length nodes.now }
    ensures long { IfOk result (λ looks. length looks.items ≡ length items.now) }
    ensures sets { IfOk result
        (λ looks. (i r d : ℕ) (set : BitSet) → slice_get items.now i ≡ Some (r, d)
        → slice_get looks.items i ≡ Some set → IsNodeSet g.now nodes.now sets.now core r d set) }
{
    let mut looks = Vec::new(alloc);
    for item in items {
        let (rule, dot) = *item;
        let node = nodes.find((core, slot_at(g, rule, dot)));
        let look = copy_of(alloc, &sets[node as usize])?;
        looks.push(look)?;
    }
    Ok(looks)
}

/// The sets of all items.
fn all_looks(
    alloc: Global,
    g: &Grammar,
    cores: &Cores,
    nodes: &Nodes,
    sets: &[Bits],
) -> Result<Vec<Vec<Bits>>, NoMemory>
    requires grammar { IsGrammar g.now }
    requires productive { AllProductive g.now }
    requires short { AreShort g.now }
    requires cores { IsCores g.now cores.now }
    requires few { length cores.now.items ≤ 4096 }
    requires nodes { AreNodes g.now cores.now nodes.now }
    requires sets { length sets.now ≡ length nodes.now }
    ensures { IfOk result (λ looks. AreNodeSets g.now cores.now nodes.now sets.now
        (sets_of looks.items)) }
{
    let mut looks = Vec::new(alloc);
    for core in 0..cores.len() {
        let row = looks_of(alloc, g, nodes, sets, core, cores.items(core))?;
        looks.push(row)?;
    }
    Ok(looks)
}

/// The united lookaheads of each core and item, as sets of terminals and END, in the places of the items.
/// A right side of 1,048,576 symbols or more counts as want of memory.
pub fn lookaheads(alloc: Global, g: &Grammar, cores: &Cores) -> Result<Vec<Vec<Bits>>, NoMemory>
    requires grammar { IsGrammar g.now }
    requires productive { AllProductive g.now }
    requires cores { IsCores g.now cores.now }
    requires few { length cores.now.items ≤ 4096 }
    ensures { IfOk result (λ looks. AreLookaheads g.now cores.now (sets_of looks.items)) }
{
    if !is_short(g) {
        return Err(NoMemory);
    }
    let rests = Rests::of(alloc, g)?;
    let nodes = nodes_of(alloc, g, cores)?;
    let mut graph = graph_of(alloc, g, &rests, cores, &nodes)?;
    spread(alloc, &graph.edges, &mut graph.sets)?;
    let looks = all_looks(alloc, g, cores, &nodes, &graph.sets)?;
    Ok(looks)
}
