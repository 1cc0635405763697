// Matching a rule at a node, without memory.
ghost use Rattle.std.specs.Prelude.{◌≡◌, ℕ, ◌+◌, ◌^◌, ◌<◌, ◌≤◌, ◌↔◌, IsTrue, List, [], length, map};
ghost use Rattle.value_store.specs.Cells.{Cell};
ghost use Rattle.value_store.specs.Texts.{text_of};
ghost use Rattle.value_store.specs.declared.value.ValType.TheVariants as ty;
ghost use Rattle.ast_types.specs.TypeTable.{IsA, IsSound, TypeTable};
ghost use Rattle.tree_store.specs.Conforms.{Conforms};
ghost use Rattle.tree_store.specs.Forest.{Node, node_at, children_at};
ghost use Rattle.expr_lang.specs.Meaning.{meant};
ghost use Rattle.expr_lang.specs.Plain.{Plain};
ghost use Rattle.expr_lang.specs.PureOf.{pure_of};
ghost use Rattle.expr_lang.specs.PureValues.{bool_in};
ghost use Rattle.expr_lang.specs.PureValues as pure;
ghost use Rattle.expr_lang.specs.ValueOf.{no_tokens, value_of};
ghost use Rattle.beg_model.specs.Accepted.{IsRule, bound_in, bound_in_all};
ghost use Rattle.beg_model.specs.Applies.{cost_at as cost_there};
ghost use Rattle.beg_model.specs.Fitting.{target, child, field, field_value, item_types, parts_by, MayFit};
ghost use Rattle.beg_model.specs.Matching.{FitsOrNot, FitAllOrNot, RuleFitsOrNot, leaf_count, leaf_count_all};
ghost use Rattle.beg_model.specs.RuleMeaning.{pattern_of, patterns_of, rule_of};
ghost use Rattle.beg_model.specs.Costing.{CostMayBeAsked};
ghost use Rattle.beg_model.specs.within.Parts.{part_at, IsThere, child_after, field_after};

use crate::matched::{Matched, Subgoal};
use crate::rules::{CoverPattern, CoverRule};
use ast_types::Types;
use expr_lang::{Expr, plain};
use tree_store::Tree;
use value_store::{Text, Texts, ValType, Value};

/// Whether the rule applies at the node: its pattern fits there and its condition is true. Then
/// `found` has its operands and the values of its variables, and nothing else.
pub fn applies_at(
    rule: &CoverRule,
    types: &Types,
    tree: &Tree,
    texts: &Texts,
    node: u32,
    found: &mut Matched,
) -> bool
    requires sound { IsSound types.now }
    requires conforms { Conforms types.now tree.now }
    requires rule { (nonterminals : ℕ) × IsRule types.now nonterminals
        (rule_of texts.now.source.now texts.now.literals.now rule.now) }
    requires node { node < length tree.now }
    ensures { RuleFitsOrNot (target texts.now types.now tree.now)
        (rule_of texts.now.source.now texts.now.literals.now rule.now) node found.new result }
{
    found.clear();
    let fits = fits_child(&rule.pattern, types, tree, texts, node, found);
    if !fits {
        return false;
    }
    match rule.test {
        Some(e) => is_true(e, found.values(), texts),
        None => true,
    }
}

/// Whether the rule may apply at nodes of this type: at the others its pattern doesn't fit.
pub fn may_apply(rule: &CoverRule, types: &Types, ty: u32) -> bool
    requires { ty < length types.now.types }
    ensures { (source literals : List ℕ) → IsTrue result
        ↔ MayFit types.now.types (pattern_of source literals rule.now.pattern) ty }
{
    match rule.pattern {
        CoverPattern::Leaf(_) => true,
        CoverPattern::Tree(t, _) => types.is_a(ty, t),
        CoverPattern::Any => false,
        CoverPattern::Bind(_) => false,
        CoverPattern::Int(_) => false,
        CoverPattern::Bool(_) => false,
        CoverPattern::Text(_) => false,
    }
}

/// The cost of the rule at a node that it applies at, where `found` is what was found there.
pub fn cost_at(rule: &CoverRule, _found: &Matched, texts: &Texts) -> u32
    requires { CostMayBeAsked texts.now (rule_of texts.now.source.now texts.now.literals.now rule.now)
        _found.now }
    ensures is { (table : TypeTable) (nodes : List Node) → result
        ≡ cost_there (rule_of texts.now.source.now texts.now.literals.now rule.now)
        (map (field_value (target texts.now table nodes)) _found.now.values) }
    ensures few { result ≤ 10000 }
{
    rule.cost
}

/// Whether the condition is true, where the variables have these values.
fn is_true(e: &Expr, values: &[Value], texts: &Texts) -> bool
    requires { Plain values.now (meant texts.now e.now) }
    ensures { (table : TypeTable) (nodes : List Node) → result ≡ bool_in (value_of no_tokens
        (map (field_value (target texts.now table nodes)) values.now) (meant texts.now e.now)) }
{
    truth_of(plain(e, values, texts))
}

/// The bool; false for another value.
fn truth_of(value: Value) -> bool
    ensures { (source literals : List ℕ) (cells : List Cell)
        → result ≡ bool_in (pure_of source literals cells value) }
{
    match value {
        Value::Bool(b) => b,
        _ => false,
    }
}

/// Whether the pattern fits the node; its operands and variables come behind those found before.
#[cycle(fit)]
fn fits_child(
    p: &CoverPattern,
    types: &Types,
    tree: &Tree,
    texts: &Texts,
    node: u32,
    found: &mut Matched,
) -> bool
    requires sound { IsSound types.now }
    requires conforms { Conforms types.now tree.now }
    requires node { node < length tree.now }
    requires operands { length found.old.operands
        + leaf_count (pattern_of texts.now.source.now texts.now.literals.now p.now) ≤ 128 }
    requires values { length found.old.values
        + length (bound_in (pattern_of texts.now.source.now texts.now.literals.now p.now)) ≤ 128 }
    ensures { FitsOrNot (target texts.now types.now tree.now)
        (pattern_of texts.now.source.now texts.now.literals.now p.now) (child node)
        found.old found.new result }
{
    match *p {
        CoverPattern::Leaf(x) => {
            found.add_operand(Subgoal {
                node,
                nonterminal: x,
            });
            true
        }
        CoverPattern::Tree(t, parts) => {
            let is = types.is_a(tree.type_of(node), t);
            if !is {
                return false;
            }
            fit_all(parts, types, tree, texts, node, t, found)
        }
        CoverPattern::Any => false,
        CoverPattern::Bind(_) => false,
        CoverPattern::Int(_) => false,
        CoverPattern::Bool(_) => false,
        CoverPattern::Text(_) => false,
    }
}

/// Whether the patterns fit the parts that the node has by the items of the type `t`.
#[cycle(fit)]
fn fit_all(
    ps: &[CoverPattern],
    types: &Types,
    tree: &Tree,
    texts: &Texts,
    node: u32,
    t: u32,
    found: &mut Matched,
) -> bool
    requires sound { IsSound types.now }
    requires conforms { Conforms types.now tree.now }
    requires node { node < length tree.now }
    requires is_a { IsA types.now.types (node_at tree.now node).ty t }
    requires operands { length found.old.operands + leaf_count_all (patterns_of
        (map (pattern_of texts.now.source.now texts.now.literals.now) ps.now)) ≤ 128 }
    requires values { length found.old.values + length (bound_in_all (patterns_of
        (map (pattern_of texts.now.source.now texts.now.literals.now) ps.now))) ≤ 128 }
    ensures { let on = target texts.now types.now tree.now in
        FitAllOrNot on
        (patterns_of (map (pattern_of texts.now.source.now texts.now.literals.now) ps.now))
        (parts_by (item_types types.now t) (children_at tree.now node)
        (map (field_value on) (node_at tree.now node).fields)) found.old found.new result }
{
    let items = types.items(t);
    if ps.len() != items.len() {
        return false;
    }
    let ty = tree.type_of(node);
    let _most_children = types.child_count(ty);
    let _most_fields = types.field_count(ty);
    let mut children = 0;
    let mut fields = 0;
    for i in 0..ps.len() {
        let p = &ps[i];
        let of = items[i].of;
        let fits = fits_item(p, types, tree, texts, node, of, children, fields, found);
        if !fits {
            return false;
        }
        children = after_child(of, children);
        fields = after_field(of, fields);
    }
    true
}

/// Whether the pattern fits what the node has at an item of this type, where so many children and
/// fields stand before it.
#[cycle(fit)]
fn fits_item(
    p: &CoverPattern,
    types: &Types,
    tree: &Tree,
    texts: &Texts,
    node: u32,
    of: ValType,
    children: u32,
    fields: u32,
    found: &mut Matched,
) -> bool
    requires sound { IsSound types.now }
    requires conforms { Conforms types.now tree.now }
    requires node { node < length tree.now }
    requires there { IsThere of (children_at tree.now node) (length (node_at tree.now node).fields)
        children fields }
    requires operands { length found.old.operands
        + leaf_count (pattern_of texts.now.source.now texts.now.literals.now p.now) ≤ 128 }
    requires values { length found.old.values
        + length (bound_in (pattern_of texts.now.source.now texts.now.literals.now p.now)) ≤ 128 }
    ensures { let on = target texts.now types.now tree.now in
        FitsOrNot on (pattern_of texts.now.source.now texts.now.literals.now p.now)
        (part_at of (children_at tree.now node)
        (map (field_value on) (node_at tree.now node).fields) children fields)
        found.old found.new result }
{
    match of {
        ValType::Node(_) => {
            let at = tree.child(node, children);
            fits_child(p, types, tree, texts, at, found)
        }
        ValType::Int => fits_field(p, texts, tree.field(node, fields), found),
        ValType::Bool => fits_field(p, texts, tree.field(node, fields), found),
        ValType::Text => fits_field(p, texts, tree.field(node, fields), found),
        ValType::Map => fits_field(p, texts, tree.field(node, fields), found),
        ValType::Token => fits_field(p, texts, tree.field(node, fields), found),
    }
}

/// Whether the pattern fits the field; its variable comes behind those found before.
fn fits_field(p: &CoverPattern, texts: &Texts, value: Value, found: &mut Matched) -> bool
    requires values { length found.old.values
        + length (bound_in (pattern_of texts.now.source.now texts.now.literals.now p.now)) ≤ 128 }
    ensures { (table : TypeTable) (nodes : List Node)
        → FitsOrNot (target texts.now table nodes)
        (pattern_of texts.now.source.now texts.now.literals.now p.now)
        (field (field_value (target texts.now table nodes) value)) found.old found.new result }
{
    match p {
        CoverPattern::Any => true,
        CoverPattern::Bind(_) => {
            found.add_value(value);
            true
        }
        CoverPattern::Int(z) => is_int(value, z),
        CoverPattern::Bool(b) => is_bool(value, *b),
        CoverPattern::Text(t) => is_text(value, *t, texts),
        CoverPattern::Leaf(_) => false,
        CoverPattern::Tree(_, _) => false,
    }
}

/// Whether the value is this int.
fn is_int(value: Value, z: &i64) -> bool
    ensures { (source literals : List ℕ)
        → IsTrue result ↔ (pure_of source literals [] value ≡ pure.int z.now) }
{
    match value {
        Value::Int(n) => n == *z,
        _ => false,
    }
}

/// Whether the value is this bool.
fn is_bool(value: Value, b: bool) -> bool
    ensures { (source literals : List ℕ)
        → IsTrue result ↔ (pure_of source literals [] value ≡ pure.bool b) }
{
    match value {
        Value::Bool(c) => c == b,
        _ => false,
    }
}

/// Whether the value is a text with the bytes of this one.
fn is_text(value: Value, t: Text, texts: &Texts) -> bool
    ensures { let source = texts.now.source.now in let literals = texts.now.literals.now in
        IsTrue result
        ↔ (pure_of source literals [] value ≡ pure.text (text_of source literals t)) }
{
    match value {
        Value::Text(other) => texts.bytes(other) == texts.bytes(t),
        _ => false,
    }
}

/// How many children stand before the next item.
fn after_child(of: ValType, children: u32) -> u32
    requires { child_after of children < 2 ^ 32 }
    ensures { result ≡ child_after of children }
{
    match of {
        ValType::Node(_) => children + 1,
        _ => children,
    }
}

/// How many fields stand before the next item.
fn after_field(of: ValType, fields: u32) -> u32
    requires { field_after of fields < 2 ^ 32 }
    ensures { result ≡ field_after of fields }
{
    match of {
        ValType::Node(_) => fields,
        _ => fields + 1,
    }
}
