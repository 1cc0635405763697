// A fault at the head's line: a nonterminal without a family, a rule that builds nothing.
ghost use Rattle.std.specs.Prelude.{◌≡◌, ◌+◌, ◌<◌, ◌^◌, ◌↔◌, length, map, not, is_none, slice_index_or, false, IfOk, IsTrue};
ghost use Rattle.ck_base.specs.declared.fault.Kind.TheVariants.{Unknown as unknown};
ghost use Rattle.node_spec.specs.AstBuilds.{only_nonterminal};
ghost use Rattle.node_spec.specs.AstFaults.{AstHeadFault};
ghost use Rattle.node_spec.specs.within.AstSeen.{declared_by};
ghost use Rattle.node_spec.specs.within.AstSteps.{AreFamilies};
ghost use Rattle.node_spec.specs.within.AstUnknown.{HasNoOnly, IsSource, LacksBuild, LacksFamily, OneLacksBuild, OneLacksFamily};

use crate::ast_line::Saying;
use crate::families::Families;
use crate::names_of_lines::{labels_named, nodes_named};
use crate::only_nonterminal::only_place;
use crate::unknown_lines::is_missing;
use cfg_model::{Grammar, GrammarRule, NamedGrammar};
use ck_base::{Names, NoMemory};
use section_frame::Numbered;
use std::alloc::Global;

/// Whether a nonterminal has no family, or a rule builds nothing.
pub(crate) fn is_head_unknown(
    alloc: Global,
    g: &NamedGrammar,
    families: &Families,
    list: &[Numbered<Saying<'_>>],
) -> Result<bool, NoMemory>
    requires few { length list.now + 1 < 2 ^ 32 }
    requires families { AreFamilies (map declared_by list.now) families.now }
    ensures { IfOk result (λ is.
        IsTrue is ↔ AstHeadFault g.now (map declared_by list.now) unknown) }
{
    let nodes = nodes_named(alloc, list)?;
    let builds = labels_named(alloc, list)?;
    if one_lacks_family(&g.nonterminals, &nodes, families) {
        return Ok(true);
    }
    let lacks = one_lacks_build(g, &builds);
    Ok(lacks)
}

/// Whether one of the nonterminals has none of these NODE lines, and its own name is no family of
/// the source side.
fn one_lacks_family(nonterminals: &Names, lines: &Names, families: &Families) -> bool
    requires { length families.now.names ≡ length families.now.targets.items }
    ensures { IsTrue result ↔ OneLacksFamily nonterminals.now lines.now families.now.names
        families.now.targets.items }
{
    for n in 0..nonterminals.len() {
        if lacks_family(lines, families, nonterminals.text_of(n)) {
            return true;
        }
    }
    false
}

/// Whether the nonterminal has none of these NODE lines, and its own name is no family of the
/// source side.
fn lacks_family(lines: &Names, families: &Families, nonterminal: &[u8]) -> bool
    requires { length families.now.names ≡ length families.now.targets.items }
    ensures { IsTrue result ↔ LacksFamily lines.now families.now.names
        families.now.targets.items nonterminal.now }
{
    if !is_missing(lines, nonterminal) {
        return false;
    }
    if is_source(families, nonterminal) {
        return false;
    }
    true
}

/// Whether a family of the source side is called so.
fn is_source(families: &Families, name: &[u8]) -> bool
    requires { length families.now.names ≡ length families.now.targets.items }
    ensures { IsTrue result ↔ IsSource families.now.names families.now.targets.items name.now }
{
    match families.names.find(name) {
        Some(n) => is_source_at(families, n),
        None => false,
    }
}

/// Whether the family of this number is of the source side.
fn is_source_at(families: &Families, n: u32) -> bool
    requires { n < length families.now.targets.items }
    ensures { result ≡ not (slice_index_or families.now.targets.items n false) }
{
    !families.targets[n as usize]
}

/// Whether a rule has none of these BUILD lines, and not exactly one nonterminal.
fn one_lacks_build(g: &NamedGrammar, lines: &Names) -> bool
    ensures { IsTrue result ↔ OneLacksBuild g.now.labels g.now.grammar.rules lines.now }
{
    for n in 0..g.labels.len() {
        if lacks_build(g, lines, g.labels.text_of(n)) {
            return true;
        }
    }
    false
}

/// Whether the rule of the label has none of these BUILD lines, and not exactly one nonterminal.
fn lacks_build(g: &NamedGrammar, lines: &Names, label: &[u8]) -> bool
    ensures { IsTrue result ↔ LacksBuild g.now.labels g.now.grammar.rules lines.now label.now }
{
    let Some(n) = g.labels.find(label) else {
        return false;
    };
    if !is_missing(lines, label) {
        return false;
    }
    has_no_only(&g.grammar, n)
}

/// Whether the rule at this place, counted from 0, has not exactly one nonterminal.
fn has_no_only(g: &Grammar, n: u32) -> bool
    ensures { IsTrue result ↔ HasNoOnly g.now.rules n }
{
    if n as usize >= g.rules.len() {
        return false;
    }
    builds_nothing(g.rule(n))
}

/// Whether the rule has not exactly one nonterminal.
fn builds_nothing(rule: &GrammarRule) -> bool
    ensures { result ≡ is_none (only_nonterminal rule.now.right) }
{
    only_place(rule.right.as_slice()).is_none()
}
