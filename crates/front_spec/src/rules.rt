// Declared rules as scanner rules over numbered tokens and states.
ghost use Rattle.std.specs.Prelude.{◌≡◌, ℕ, ◌+◌, ◌^◌, ◌<◌, List, [], ◌∷◌, ◌++◌, Some, length, map, IfOk};
ghost use Rattle.rex_model.specs.RuleMeaning.{contains, context_of, rule_of};
ghost use Rattle.section_frame.specs.Passes.{judged_by};
ghost use Rattle.spec_text.specs.Seen.{bytes_of, name_in};
ghost use Rattle.front_spec.specs.RexRules.{active_in, add_rule, number_in, rule_by, rules_in};
ghost use Rattle.front_spec.specs.Seen.{names_in, regex_in, said_rule, saying};
ghost use Rattle.front_spec.specs.Steps.{AddsActive};

use crate::declaration::Says;
use crate::rule::DeclaredRule;
use bumpalo::Bump;
use ck_base::{Bits, Names, NoMemory};
use rex_model::{Regex, ScanRule};
use section_frame::Numbered;
use std::alloc::Global;

/// The scan rules that the lines declare.
pub(crate) fn scan_rules<'a>(
    alloc: Global,
    arena: &'a Bump<Global>,
    states: &Names,
    tokens: &Names,
    list: &[Numbered<Says<'a, '_>>],
) -> Result<Vec<ScanRule<'a>>, NoMemory>
    requires { 0 < length states.now }
    ensures { IfOk result (λ rules. map rule_of rules.items
        ≡ map (rule_by states.now tokens.now) (rules_in (map (judged_by saying) list.now))) }
{
    let mut rules = Vec::new(alloc);
    for item in list {
        add_rule(alloc, arena, &mut rules, states, tokens, &item.says)?;
    }
    Ok(rules)
}

/// Puts the scan rule of the line behind the others, where it declares one.
fn add_rule<'a>(
    alloc: Global,
    arena: &'a Bump<Global>,
    rules: &mut Vec<ScanRule<'a>>,
    states: &Names,
    tokens: &Names,
    says: &Says<'a, '_>,
) -> Result<(), NoMemory>
    requires { 0 < length states.now }
    ensures { IfOk result (λ done. map rule_of rules.new.items ≡ map rule_of rules.old.items
        ++ map (rule_by states.now tokens.now) (add_rule (saying says.now) [])) }
{
    match says {
        Says::State(_) => Ok(()),
        Says::Rule(rule) => {
            rules.push(scan_rule(alloc, arena, states, tokens, rule)?)?;
            Ok(())
        }
    }
}

/// The scan rule of a declared rule.
fn scan_rule<'a>(
    alloc: Global,
    arena: &'a Bump<Global>,
    states: &Names,
    tokens: &Names,
    rule: &DeclaredRule<'a, '_>,
) -> Result<ScanRule<'a>, NoMemory>
    requires { 0 < length states.now }
    ensures { IfOk result (λ made.
        rule_of made ≡ rule_by states.now tokens.now (said_rule rule.now)) }
{
    let active = active_states(alloc, states, &rule.states)?;
    let body: &Regex<'a> = arena.try_alloc(rule.body)?;
    let context = placed(arena, rule.context)?;
    Ok(ScanRule {
        states: active,
        body,
        context,
        token: number_of(tokens, rule.token),
        next: number_of(states, rule.next),
    })
}

/// The context in the arena, where there is one.
fn placed<'a>(
    arena: &'a Bump<Global>,
    context: Option<Regex<'a>>,
) -> Result<Option<&'a Regex<'a>>, NoMemory>
    ensures { IfOk result (λ placed. context_of placed ≡ regex_in context.entry) }
{
    let Some(context) = context else {
        return Ok(None);
    };
    let kept: &Regex<'a> = arena.try_alloc(context)?;
    Ok(Some(kept))
}

/// The number of the name, where there is one.
fn number_of(names: &Names, name: Option<&[u8]>) -> Option<u32>
    ensures { result ≡ number_in names.now (name_in name.entry) }
{
    let name = name?;
    names.find(name)
}

/// The states where a rule is active that names these: STD alone where it names none.
fn active_states(
    alloc: Global,
    states: &Names,
    names: &Option<Vec<&[u8]>>,
) -> Result<Bits, NoMemory>
    requires { 0 < length states.now }
    ensures { IfOk result (λ active. contains active ≡ active_in states.now (names_in names.now)) }
{
    let mut active = Bits::new(alloc, states.len())?;
    fill(&mut active, states, names);
    Ok(active)
}

/// Puts in the states where a rule is active that names these.
fn fill(active: &mut Bits, states: &Names, names: &Option<Vec<&[u8]>>)
    requires size { active.old.size ≡ length states.now }
    requires some { 0 < length states.now }
    ensures { AddsActive active.old active.new states.now (names_in names.now) }
{
    match names {
        Some(names) => add_all(active, states, names.as_slice()),
        None => active.add(0),
    }
}

/// Puts the numbers of the names in.
fn add_all(active: &mut Bits, states: &Names, names: &[&[u8]])
    requires { active.old.size ≡ length states.now }
    ensures { AddsActive active.old active.new states.now (Some (map bytes_of names.now)) }
{
    for name in names {
        add_one(active, states, name);
    }
}

/// Puts the number of the name in, where it has one.
fn add_one(active: &mut Bits, states: &Names, name: &[u8])
    requires { active.old.size ≡ length states.now }
    ensures { AddsActive active.old active.new states.now (Some (name.now ∷ [])) }
{
    if let Some(n) = states.find(name) {
        active.add(n);
    }
}
