// The LALR(1) table of a grammar, or its first refusal.
ghost use Rattle.std.specs.Prelude.{◌≡◌, ◌≤◌, ◌<◌, ◌^◌, ℕ, List, None, length, All, IfOk, IfErr, IsTrue};
ghost use Rattle.ck_base.specs.BitSet.{BitSet};
ghost use Rattle.cfg_model.specs.Cfg.{IsGrammar};
ghost use Rattle.cfg_model.specs.Cores.{IsCores};
ghost use Rattle.cfg_model.specs.LrTables.{IsLr};
ghost use Rattle.lalr_look.specs.Promise.{AreLookaheads};
ghost use Rattle.lalr_tables.specs.Promise.{IsTableOf, HasTable, IsRefused};
ghost use Rattle.lalr_tables.specs.within.Rows.{AreActions};

use crate::fill::{all_actions, all_gotos};
use crate::plain::PlainLr;
use cfg_model::{Grammar, LalrError, copy_grammar, cyclic, hidden_left, unproductive};
use ck_base::NoMemory;
use lalr_look::{Cores, cores, lookaheads};
use std::alloc::Global;

/// The LALR(1) table of the grammar, or the first reason in order why there is none. A right side
/// of 1,048,576 symbols or more counts as want of memory.
pub fn build(alloc: Global, g: &Grammar) -> Result<PlainLr, LalrError>
    requires { IsGrammar g.now }
    ensures table { IfOk result (IsTableOf g.now) }
    ensures accepted { IfOk result (λ _. HasTable g.now) }
    ensures refused { IfErr result (IsRefused g.now) }
{
    if let Some(n) = unproductive(alloc, g)? {
        return Err(LalrError::Unproductive(n));
    }
    if let Some(n) = cyclic(alloc, g)? {
        return Err(LalrError::Cyclic(n));
    }
    if let Some(n) = hidden_left(alloc, g)? {
        return Err(LalrError::HiddenLeft(n));
    }
    let cores = cores(alloc, g)?;
    let looks = lookaheads(alloc, g, &cores)?;
    let made = all_actions(alloc, g, &cores, &looks)?;
    if let Some(clash) = made.found {
        return Err(LalrError::LalrConflict {
            terminal: clash.terminal,
            rule: clash.rule,
            other: clash.other,
        });
    }
    let table = finish(alloc, g, &cores, made.cells)?;
    Ok(table)
}

/// The table of the cores' actions.
fn finish(alloc: Global, g: &Grammar, cores: &Cores, actions: Vec<u16>) -> Result<PlainLr, NoMemory>
    requires accepted { IsLr g.now }
    requires cores { IsCores g.now cores.now }
    requires few { length cores.now.items ≤ 4096 }
    requires actions { (looks : List (List BitSet)) × AreLookaheads g.now cores.now looks
        × AreActions g.now cores.now looks (length cores.now.items) actions.items None }
    ensures { IfOk result (IsTableOf g.now) }
{
    if !is_short(g) {
        return Err(NoMemory);
    }
    let gotos = all_gotos(alloc, g, cores)?;
    let grammar = copy_grammar(alloc, g)?;
    Ok(PlainLr {
        grammar,
        states: cores.len(),
        actions,
        gotos,
    })
}

/// Whether the lengths of all right sides are numbers of 32 bits.
fn is_short(g: &Grammar) -> bool
    requires { IsGrammar g.now }
    ensures { IsTrue result → All (λ rule. length rule.right < 2 ^ 32) g.now.rules }
{
    for i in 0..g.size() {
        let rule = g.rule(i);
        if rule.symbol(4294967295).is_some() {
            return false;
        }
    }
    true
}
