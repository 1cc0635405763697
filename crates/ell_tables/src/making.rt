// The LL(1) table of a grammar, or its first refusal.
ghost use Rattle.std.specs.Prelude.{◌≡◌, ◌<◌, ◌≤◌, ◌+◌, ◌*◌, ℕ, [], ◌∷◌, length, IfOk, IfErr, All};
ghost use Rattle.cfg_model.specs.Cfg.{IsGrammar, IsSymbol};
ghost use Rattle.cfg_model.specs.LlTables.{IsLl, IsPrediction};
ghost use Rattle.cfg_model.specs.Promise.{AreNullable, AreReachable, AreFirsts, AreFollows};
ghost use Rattle.cfg_model.specs.Sets.{AllProductive, Nullable, Reachable, First, Follow};
ghost use Rattle.cfg_model.specs.declared.symbol.Sym.TheVariants.{N};
ghost use Rattle.ell_tables.specs.Promise.{IsTableOf, IsRefused};
ghost use Rattle.ell_tables.specs.Table.{cell, as_rule};
ghost use Rattle.ell_tables.specs.within.RuleSets.{IsRuleSet, AreRuleSets};

use crate::fill::fill;
use crate::plain::PlainLl;
use crate::refusal::EllError;
use cfg_model::{
    Grammar, GrammarRule, add_first, copy_grammar, first, follow, left_recursive, nullable,
    reachable, unproductive,
};
use ck_base::{Bits, NoMemory};
use std::alloc::Global;

/// The LL(1) table of the grammar, or the first reason in order why there is none.
pub fn build(alloc: Global, g: &Grammar) -> Result<PlainLl, EllError>
    requires { IsGrammar g.now }
    ensures table { IfOk result (IsTableOf g.now) }
    ensures refused { IfErr result (IsRefused g.now) }
{
    if let Some(n) = unproductive(alloc, g)? {
        return Err(EllError::Unproductive(n));
    }
    if let Some(n) = left_recursive(alloc, g)? {
        return Err(EllError::LeftRecursive(n));
    }
    let sets = rule_sets(alloc, g)?;
    let made = fill(alloc, &g.rules, &sets, g.nonterminals, g.terminals + 1)?;
    if let Some(clash) = made.found {
        return Err(EllError::LlConflict {
            nonterminal: clash.nonterminal,
            rule: clash.rule,
            other: clash.other,
            terminal: clash.terminal,
        });
    }
    let table = finish(alloc, g, made.cells)?;
    Ok(table)
}

/// The table of the cells.
fn finish(alloc: Global, g: &Grammar, cells: Vec<u16>) -> Result<PlainLl, NoMemory>
    requires accepted { IsLl g.now }
    requires cells { length cells.items ≡ g.now.nonterminals * (g.now.terminals + 1) }
    requires predicts { (n t : ℕ) → Reachable g.now n → t ≤ g.now.terminals
        → IsPrediction g.now n t (as_rule (cell g.now cells.items n t)) }
    ensures { IfOk result (IsTableOf g.now) }
{
    let grammar = copy_grammar(alloc, g)?;
    Ok(PlainLl { grammar, cells })
}

/// For each rule the terminals that it is for; none where its left side can't be reached.
fn rule_sets(alloc: Global, g: &Grammar) -> Result<Vec<Bits>, NoMemory>
    requires grammar { IsGrammar g.now }
    requires productive { AllProductive g.now }
    ensures { IfOk result (λ sets. AreRuleSets g.now sets.items) }
{
    let null = nullable(alloc, g)?;
    let reach = reachable(alloc, g)?;
    let firsts = first(alloc, g)?;
    let follows = follow(alloc, g)?;
    let mut sets = Vec::new(alloc);
    for (i, rule) in g.rules.iter().enumerate() {
        let set = rule_set(alloc, g, rule, &null, &reach, &firsts, &follows)?;
        sets.push(set)?;
    }
    Ok(sets)
}

/// The terminals that the rule is for; none where its left side can't be reached.
fn rule_set(
    alloc: Global,
    g: &Grammar,
    rule: &GrammarRule,
    null: &Bits,
    reach: &Bits,
    firsts: &[Bits],
    follows: &[Bits],
) -> Result<Bits, NoMemory>
    requires grammar { IsGrammar g.now }
    requires productive { AllProductive g.now }
    requires left { rule.now.left < g.now.nonterminals }
    requires right { All (IsSymbol g.now) rule.now.right }
    requires null { AreNullable g.now null.now }
    requires reach { AreReachable g.now reach.now }
    requires firsts { AreFirsts g.now firsts.now }
    requires follows { AreFollows g.now follows.now }
    ensures size { IfOk result (λ set. set.size ≡ g.now.terminals + 1) }
    ensures has { IfOk result (IsRuleSet g.now rule.now) }
{
    let mut set = Bits::new(alloc, g.terminals + 1)?;
    if reach.has(rule.left) {
        if add_first(g, &rule.right, firsts, null, &mut set) {
            set.join(&follows[rule.left as usize]);
        }
    }
    Ok(set)
}
