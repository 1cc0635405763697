// The first BUILD line that uses a value twice.
ghost use Rattle.std.specs.Prelude.{◌≡◌, ◌+◌, ◌↔◌, ℕ, length, map, IsTrue, IfOk, MatchOption};
ghost use Rattle.cfg_model.specs.Cfg.{Rule};
ghost use Rattle.section_frame.specs.Declares.{Grow};
ghost use Rattle.node_spec.specs.AstFaults.{IsRuleOf};
ghost use Rattle.node_spec.specs.within.AstSeen.{declared_by, saying_seen};
ghost use Rattle.node_spec.specs.within.AstSteps.{FirstWith};
ghost use Rattle.node_spec.specs.within.AstTwice.{IsValue, UsedTwice, Uses, UsesTwice};

use crate::ast_line::Saying;
use cfg_model::{GrammarRule, NamedGrammar, Sym};
use ck_base::NoMemory;
use expr_read::dollars_in;
use section_frame::Numbered;
use std::alloc::Global;

/// The first BUILD line that uses a nonterminal's value twice.
pub(crate) fn first_used_twice(
    alloc: Global,
    g: &NamedGrammar,
    list: &[Numbered<Saying<'_>>],
) -> Result<Option<u32>, NoMemory>
    requires { Grow (map declared_by list.now) }
    ensures { IfOk result (FirstWith (map declared_by list.now) (UsesTwice g.now)) }
{
    for line in list {
        if uses_twice(alloc, g, &line.says)? {
            return Ok(Some(line.number));
        }
    }
    Ok(None)
}

/// Whether the line uses the value of a nonterminal of its rule twice.
fn uses_twice(alloc: Global, g: &NamedGrammar, says: &Saying<'_>) -> Result<bool, NoMemory>
    ensures { IfOk result (λ found. (i : ℕ)
        → IsTrue found ↔ UsesTwice g.now i (saying_seen says.now)) }
{
    let Saying::Build(label, e) = *says else {
        return Ok(false);
    };
    let Some(rule) = rule_of(g, label) else {
        return Ok(false);
    };
    let numbers = dollars_in(alloc, &e)?;
    let found = has_value_twice(alloc, rule.right.as_slice(), numbers.as_slice())?;
    Ok(found)
}

/// The rule of the label.
fn rule_of<'g>(g: &'g NamedGrammar, label: &[u8]) -> Option<&'g GrammarRule>
    ensures { MatchOption result ((rule : Rule) → IsRuleOf g.now label.now rule → ⊥)
        (λ rule. IsRuleOf g.now label.now rule.now) }
{
    let number = g.labels.find(label)?;
    let rule = g.grammar.rules.get(number as usize)?;
    Some(rule)
}

/// Whether the numbers, which count from 1, have the place of a nonterminal twice.
fn has_value_twice(alloc: Global, right: &[Sym], numbers: &[u64]) -> Result<bool, NoMemory>
    ensures { IfOk result (λ found. IsTrue found ↔ UsedTwice right.now numbers.now) }
{
    let mut flags = vec![in alloc; false; right.len()]?;
    let used = flags.as_mut_slice();
    for number in numbers {
        if is_used(used, right, *number) {
            return Ok(true);
        }
    }
    Ok(false)
}

/// Whether the number is the place of a nonterminal that is marked already; else it is marked now.
fn is_used(used: &mut [bool], right: &[Sym], number: u64) -> bool
    requires { length used.old ≡ length right.now }
    ensures { Uses right.now number used.old used.new result }
{
    let Some(place) = value_of(right, number) else {
        return false;
    };
    if used[place] {
        return true;
    }
    used[place] = true;
    false
}

/// The place of the nonterminal of this number, which counts from 1.
fn value_of(right: &[Sym], number: u64) -> Option<usize>
    ensures { MatchOption result ((place : ℕ) → IsValue right.now number place → ⊥)
        (IsValue right.now number) }
{
    if number == 0 {
        return None;
    }
    let place = (number - 1) as usize;
    match right.get(place) {
        Some(Sym::N(_)) => Some(place),
        _ => None,
    }
}
