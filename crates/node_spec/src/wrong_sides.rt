// The first line that mixes source and target families.
ghost use Rattle.std.specs.Prelude.{◌≡◌, ◌+◌, ◌<◌, ◌^◌, ℕ, List, [], length, map, None, Some, slice_get, slice_index, IfOk, OnOk, IsTrue, ◌↔◌};
ghost use Rattle.cfg_model.specs.Cfg.{IsGrammar};
ghost use Rattle.ck_base.specs.declared.fault.Kind.TheVariants.{Typing as typing};
ghost use Rattle.ck_base.specs.Numbered.{met, number_of};
ghost use Rattle.section_frame.specs.Declares.{Declared, Grow};
ghost use Rattle.node_spec.specs.AstFaults.{AstHeadFault, is_target, label_then, labels_in};
ghost use Rattle.node_spec.specs.AstShapes.{AstSaying};
ghost use Rattle.node_spec.specs.AstTables.{families_by, rows_in};
ghost use Rattle.node_spec.specs.within.AstSeen.{declared_by, item_seen, row_seen, saying_seen};
ghost use Rattle.node_spec.specs.within.AstSteps.{AreFamilies, FirstWith, IsOfWrongSide};
ghost use Rattle.node_spec.specs.within.AstWalks.{HasWrongItem, IsOfOther, IsWrongItem, IsWrongLine, JoinsAt, SomeJoins, row_number, target_of};

use crate::ast_line::{ItemText, Saying};
use crate::families::Families;
use crate::limits::{is_item_word, types_of_line};
use crate::only_nonterminal::only_place;
use crate::rows::TypeRow;
use cfg_model::{Grammar, GrammarRule, NamedGrammar, Sym};
use ck_base::{Names, NoMemory};
use section_frame::Numbered;
use std::alloc::Global;

/// The first line with an item that is a map or of the other side, or with a nonterminal of a
/// target family.
pub(crate) fn first_of_wrong_side(
    list: &[Numbered<Saying<'_>>],
    families: &Families,
    rows: &[TypeRow<'_>],
) -> Option<u32>
    requires few { length list.now + 1 < 2 ^ 32 }
    requires grow { Grow (map declared_by list.now) }
    requires rows { map row_seen rows.now ≡ rows_in (map declared_by list.now) }
    requires families { AreFamilies (map declared_by list.now) families.now }
    ensures { FirstWith (map declared_by list.now) (IsOfWrongSide (map declared_by list.now))
        result }
{
    let mut types = 0;
    for line in list {
        if is_of_wrong_side(line, families, rows, types) {
            return Some(line.number);
        }
        types += types_of_line(line);
    }
    None
}

/// Whether the line, behind so many types, has an item or a nonterminal of the wrong side.
fn is_of_wrong_side(
    line: &Numbered<Saying<'_>>,
    families: &Families,
    rows: &[TypeRow<'_>],
    types: u32,
) -> bool
    ensures { IsTrue result ↔ IsWrongLine families.now
        (row_number (map row_seen rows.now) types) (saying_seen line.now.says) }
{
    match line.says {
        Saying::Family(_) => false,
        Saying::Target(_) => false,
        Saying::NodeType(_, _, items) => {
            has_wrong_item(
                families,
                is_target_family(families, family_of_row(rows, types)),
                items,
            )
        }
        Saying::Node(_, name) => is_target_family(families, name),
        Saying::Build(_, _) => false,
    }
}

/// The family of the type of this number; the empty name where there is no such type.
fn family_of_row<'s>(rows: &[TypeRow<'s>], number: u32) -> &'s [u8]
    ensures { result.now ≡ (row_number (map row_seen rows.now) number).family }
{
    match rows.get(number as usize) {
        Some(row) => row.family,
        None => &[],
    }
}

/// Whether one of the items is a map, or of a family that isn't of this side.
fn has_wrong_item(families: &Families, side: bool, items: &[ItemText<'_>]) -> bool
    ensures { IsTrue result ↔ HasWrongItem families.now side (map item_seen items.now) }
{
    for item in items {
        if is_wrong_item(families, side, item) {
            return true;
        }
    }
    false
}

/// Whether the item is a map, or of a family that isn't of this side.
fn is_wrong_item(families: &Families, side: bool, item: &ItemText<'_>) -> bool
    ensures { IsTrue result ↔ IsWrongItem families.now side (item_seen item.now) }
{
    if item.of == b"map".as_slice() {
        return true;
    }
    if is_item_word(item.of) {
        return false;
    }
    is_target_family(families, item.of) != side
}

/// Whether the family is of the target side; what isn't there counts as the first family.
pub(crate) fn is_target_family(families: &Families, name: &[u8]) -> bool
    ensures is { result ≡ target_of families.now name.now }
    ensures among { (ds : List (Declared AstSaying)) → AreFamilies ds families.now
        → result ≡ is_target ds name.now }
{
    match families.targets.get(families.number_of(name) as usize) {
        Some(target) => *target,
        None => false,
    }
}

/// Whether a rule without a BUILD line has its one nonterminal of another family than its left
/// side.
pub(crate) fn joins_families(
    alloc: Global,
    g: &NamedGrammar,
    list: &[Numbered<Saying<'_>>],
    node_families: &[u32],
) -> Result<bool, NoMemory>
    requires few { length list.now + 1 < 2 ^ 32 }
    requires grammar { IsGrammar g.now.grammar }
    requires labels { length g.now.labels ≡ length g.now.grammar.rules }
    requires nonterminals { length g.now.nonterminals ≡ g.now.grammar.nonterminals }
    requires families { node_families.now ≡ families_by (map declared_by list.now) g.now.nonterminals }
    ensures { IfOk result (λ found.
        IsTrue found ↔ AstHeadFault g.now (map declared_by list.now) typing) }
{
    let built = built_labels(alloc, list)?;
    let found = some_joins(&g.labels, &g.grammar, &built, node_families);
    Ok(found)
}

/// Whether one of the rules has no BUILD line, and its one nonterminal is of another family than
/// its left side.
fn some_joins(labels: &Names, g: &Grammar, built: &Names, families: &[u32]) -> bool
    requires { length labels.now ≡ length g.now.rules }
    ensures { SomeJoins labels.now built.now g.now.rules families.now result }
{
    for r in 0..labels.len() {
        if joins_at(labels, g, built, families, r) {
            return true;
        }
    }
    false
}

/// The labels of the rules that have a BUILD line.
fn built_labels(alloc: Global, list: &[Numbered<Saying<'_>>]) -> Result<Names, NoMemory>
    requires { length list.now + 1 < 2 ^ 32 }
    ensures { IfOk result (λ names. names ≡ met [] (labels_in (map declared_by list.now))) }
{
    let mut names = Names::new(alloc);
    for line in list {
        add_label(&mut names, line)?;
    }
    Ok(names)
}

/// Adds the label of a BUILD line.
fn add_label(names: &mut Names, line: &Numbered<Saying<'_>>) -> Result<(), NoMemory>
    requires { length names.old + 1 < 2 ^ 32 }
    ensures { OnOk result (names.new ≡ met names.old (label_then (saying_seen line.now.says) [])) }
{
    match line.says {
        Saying::Family(_) => Ok(()),
        Saying::Target(_) => Ok(()),
        Saying::NodeType(_, _, _) => Ok(()),
        Saying::Node(_, _) => Ok(()),
        Saying::Build(label, _) => {
            names.intern(label)?;
            Ok(())
        }
    }
}

/// Whether the rule at this place has no BUILD line, and its one nonterminal is of another family
/// than its left side.
fn joins_at(labels: &Names, g: &Grammar, built: &Names, families: &[u32], r: u32) -> bool
    requires within { r < length labels.now }
    requires labels { length labels.now ≡ length g.now.rules }
    ensures { IsTrue result ↔ JoinsAt labels.now built.now g.now.rules families.now r }
{
    let label = label_at(labels, r);
    if !is_absent(built, label) {
        return false;
    }
    let rule = rule_at(g, r);
    is_of_other(families, rule)
}

/// The rule at this place.
fn rule_at(g: &Grammar, r: u32) -> &GrammarRule
    requires { r < length g.now.rules }
    ensures { slice_get g.now.rules r ≡ Some result.now }
{
    &g.rules[r as usize]
}

/// The label of this number.
fn label_at(labels: &Names, r: u32) -> &[u8]
    requires { r < length labels.now }
    ensures { number_of labels.now result.now ≡ Some r }
{
    let label = labels.text_of(r);
    // That it is found says that its number is its place.
    let _number = labels.find(label);
    label
}

/// Whether the name isn't there.
fn is_absent(names: &Names, name: &[u8]) -> bool
    ensures { IsTrue result ↔ (number_of names.now name.now ≡ None) }
{
    names.find(name).is_none()
}

/// Whether the rule has one nonterminal, and it is of another family than the left side.
fn is_of_other(families: &[u32], rule: &GrammarRule) -> bool
    ensures { IsTrue result ↔ IsOfOther families.now rule.now }
{
    let Some(place) = only_place(rule.right.as_slice()) else {
        return false;
    };
    match symbol_at(rule, place) {
        Some(Sym::N(n)) => family_of(families, n) != family_of(families, rule.left),
        _ => false,
    }
}

/// The symbol at a place of the right side.
fn symbol_at(rule: &GrammarRule, place: usize) -> Option<Sym>
    ensures { result ≡ slice_get rule.now.right place }
{
    rule.right.get(place).copied()
}

/// The family of the nonterminal; 0 where there is none of the number.
fn family_of(families: &[u32], n: u32) -> u32
    ensures { result ≡ slice_index families.now n }
{
    match families.get(n as usize) {
        Some(family) => *family,
        None => 0,
    }
}
