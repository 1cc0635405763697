// The winning rule at a place, straight from its definition: the model of each faster scanner.
ghost use Rattle.std.specs.Prelude.{◌≡◌, ◌+◌, ◌^◌, ◌<◌, ◌≤◌, length, map, IfOk, IsSome, None};
ghost use Rattle.rex_model.specs.Positions.{HasRoomFor};
ghost use Rattle.rex_model.specs.RuleMeaning.{rule_of, rules_of};
ghost use Rattle.rex_model.specs.Run.{Scans};
ghost use Rattle.rex_model.specs.Winner.{next_state};
ghost use Rattle.rex_model.specs.within.Best.{IsBest, longer_of};

use crate::pairs::{Pair, pair_of_rule};
use crate::position_sets::PositionSets;
use crate::rules::{ScanRule, ScanRules};
use crate::scan::Scan;
use ck_base::NoMemory;
use std::alloc::Global;

/// A rule, numbered from 0, and its best pair.
#[derive(Clone, Copy)]
struct Best {
    rule: u32,
    pair: Pair,
}

/// What a scan of the text finds at the place `at` in the state, by sets of positions. At the text's
/// end and past it this is `End`. No set is made for a body or a context with 4,294,967,295 positions
/// or more: the answer is `NoMemory`.
pub fn scan_sets(
    alloc: Global,
    rules: &ScanRules,
    text: &[u8],
    state: u32,
    at: usize,
) -> Result<Scan, NoMemory>
    requires few { length rules.now.rules.items < 2 ^ 32 }
    ensures { IfOk result (λ scan. Scans (rules_of rules.now).list text.now state at scan) }
{
    let mut sets = PositionSets::new(alloc, rules)?;
    Ok(scan_with(&mut sets, rules, text, state, at))
}

/// What a scan from the place on gives, as `scan_sets` says, with sets that were made before: it
/// takes no memory.
pub fn scan_with(
    sets: &mut PositionSets,
    rules: &ScanRules,
    text: &[u8],
    state: u32,
    at: usize,
) -> Scan
    requires few { length rules.now.rules.items < 2 ^ 32 }
    requires room { HasRoomFor sets.old (rules_of rules.now).list }
    ensures scan { Scans (rules_of rules.now).list text.now state at result }
    ensures same { sets.new ≡ sets.old }
{
    if at >= text.len() {
        return Scan::End;
    }
    match winner(sets, &rules.rules, state, &text[at..]) {
        Some(best) => scan_of(
            &rules.rules[best.rule as usize],
            best.rule,
            at + best.pair.len,
            state,
        ),
        None => Scan::BadToken(at),
    }
}

/// The winner at the beginning of `rest`; `None` where no rule has a candidate.
fn winner(sets: &mut PositionSets, rules: &[ScanRule], state: u32, rest: &[u8]) -> Option<Best>
    requires few { length rules.now < 2 ^ 32 }
    requires room { HasRoomFor sets.old (map rule_of rules.now) }
    ensures best { IsBest (map rule_of rules.now) state rest.now result }
    ensures same { sets.new ≡ sets.old }
{
    let mut best = None;
    for (i, rule) in rules.iter().enumerate() {
        let found = pair_of_rule(sets, rule, state, rest);
        best = longer(best, i as u32, found);
    }
    best
}

/// The best rule so far, or the next rule where its pair ends later; of equals the first.
fn longer(best: Option<Best>, rule: u32, found: Option<Pair>) -> Option<Best>
    ensures { result ≡ longer_of best rule found }
{
    match (best, found) {
        (best, None) => best,
        (Some(best), Some(pair)) if pair.whole <= best.pair.whole => Some(best),
        (_, Some(pair)) => Some(Best { rule, pair }),
    }
}

/// What a scan answers where this rule wins in the state, and `to` is the place after its text.
fn scan_of(rule: &ScanRule, number: u32, to: usize, state: u32) -> Scan
    ensures token { IsSome rule.now.token
        → result ≡ Scan.Token number to (next_state (rule_of rule.now) state) }
    ensures skip { rule.now.token ≡ None
        → result ≡ Scan.Skip number to (next_state (rule_of rule.now) state) }
{
    let state = rule.next.unwrap_or(state);
    match rule.token {
        Some(_) => Scan::Token {
            rule: number,
            to,
            state,
        },
        None => Scan::Skip {
            rule: number,
            to,
            state,
        },
    }
}
