// Rows of positions for all rules, and with which positions each start state begins.
ghost use Rattle.std.specs.Prelude.{◌≡◌, ℕ, ◌+◌, ◌<◌, ◌≤◌, ◌^◌, ◌↔◌, IfOk, IsTrue, map, length};
ghost use Rattle.ck_base.specs.BitSet.{Has, Adds};
ghost use Rattle.rex_model.specs.Positions.{position_count, Takes, First, Follow};
ghost use Rattle.rex_model.specs.RuleMeaning.{context_of, rule_of};
ghost use Rattle.rex_model.specs.Rules.{trailing};
ghost use Rattle.rex_model.specs.Sets.{marked, marked_rules, body_and_context, FirstOfActive};
ghost use Rattle.rex_dfa.specs.within.Rows.{AreRows};
ghost use Rattle.rex_dfa.specs.within.Walked.{row, Fills, HasRoom, IsWalked, IsPassed, IsPut};

use crate::rule_positions::positions_of_rule;
use crate::walk::{Rows, blank, blanks, walk_part};
use ck_base::{Bits, NoMemory};
use rex_model::{Regex, ScanRule};
use std::alloc::Global;

/// The rows of the positions of all rules, and for each start state the first positions of its active
/// rules.
#[derive(Drop)]
pub(crate) struct RuleRows {
    pub(crate) rows: Rows,
    pub(crate) firsts: Vec<Bits>,
}

/// For each byte the positions of the rules that take it, for each position those that come directly
/// after it, and for each start state those with which it begins.
pub(crate) fn rows_of(
    alloc: Global,
    rules: &[ScanRule],
    states: u32,
    size: u32,
) -> Result<RuleRows, NoMemory>
    requires { position_count (marked_rules (map rule_of rules.now)) ≡ size }
    ensures takers { IfOk result (λ all.
        AreRows size 256 (λ byte p. Takes (marked_rules (map rule_of rules.now)) 0 p byte)
        all.rows.takers.items) }
    ensures follows { IfOk result (λ all.
        AreRows size size (Follow (marked_rules (map rule_of rules.now)) 0)
        all.rows.follows.items) }
    ensures firsts { IfOk result (λ all.
        AreRows size states (λ state. FirstOfActive (map rule_of rules.now) state 0)
        all.firsts.items) }
{
    let mut rows = blank(alloc, size)?;
    let mut firsts = blanks(alloc, states, size)?;
    let mut at = 0;
    for rule in rules {
        let first = walk_rule(alloc, rule, at, size, &mut rows)?;
        begin_each(&rule.states, &first, &mut firsts);
        at += positions_of_rule(rule);
    }
    Ok(RuleRows { rows, firsts })
}

/// Puts the positions of a rule into the rows, numbered from `at` on. The answer has its first ones.
fn walk_rule(
    alloc: Global,
    rule: &ScanRule,
    at: u32,
    size: u32,
    rows: &mut Rows,
) -> Result<Bits, NoMemory>
    requires inside { at + position_count (marked (body_and_context (rule_of rule.now))) ≤ size }
    requires room { HasRoom size rows.old }
    ensures put { IfOk result (λ first.
        IsPut (marked (body_and_context (rule_of rule.now))) at rows.old rows.new) }
    ensures size { IfOk result (λ first. first.size ≡ size) }
    ensures first { IfOk result (λ first. (q : ℕ) →
        Has first q ↔ First (marked (body_and_context (rule_of rule.now))) at q) }
{
    let mark = at + positions_of_rule(rule) - 1;
    let mut next = Bits::new(alloc, size)?;
    next.add(mark);
    let middle = walk_context(alloc, rule.context, mark, &mut next, rows)?;
    walk_part(alloc, rule.body, middle, &mut next, rows)?;
    Ok(next)
}

/// Puts the positions of a context into the rows, where there is one.
fn walk_context(
    alloc: Global,
    context: Option<&Regex>,
    end: u32,
    next: &mut Bits,
    rows: &mut Rows,
) -> Result<u32, NoMemory>
    requires fits { position_count (trailing (context_of context)) ≤ end }
    requires inside { end ≤ next.old.size }
    requires small { next.old.size < 2 ^ 32 }
    requires room { HasRoom next.old.size rows.old }
    ensures walked { IfOk result
        (IsWalked (trailing (context_of context.entry)) end (Has next.old) rows.old rows.new) }
    ensures passed { IfOk result (λ k. IsPassed (trailing (context_of context.entry)) k
        (Has next.old) next.old.size next.new) }
{
    match context {
        Some(context) => walk_part(alloc, context, end, next, rows),
        None => Ok(end),
    }
}

/// Puts the first positions of a rule into the sets of the start states in which it is active.
fn begin_each(states: &Bits, first: &Bits, firsts: &mut Vec<Bits>)
    requires small { length firsts.old.items < 2 ^ 32 }
    requires sizes { (i : ℕ) → i < length firsts.old.items
        → (row firsts.old.items i).size ≡ first.now.size }
    ensures { Fills firsts.old.items firsts.new.items
        (λ state q. Has states.now state × Has first.now q) }
{
    for state in 0..firsts.len() {
        begin(states, state as u32, first, &mut firsts[state]);
    }
}

/// Puts them into the set of this start state where it is one of these.
fn begin(states: &Bits, state: u32, first: &Bits, to: &mut Bits)
    requires { to.old.size ≡ first.now.size }
    ensures { Adds to.old to.new (λ q. Has states.now state × Has first.now q) }
{
    if states.has(state) {
        to.join(first);
    }
}
