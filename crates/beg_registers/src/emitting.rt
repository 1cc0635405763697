// The text of a list of instances.
ghost use Rattle.std.specs.Prelude.{◌≡◌, ℕ, ◌<◌, ◌++◌, List, [], ◌∷◌, length, map, reverse, IfOk, OnOk, Some, slice_get};
ghost use Rattle.ast_types.specs.TypeTable.{TypeTable};
ghost use Rattle.beg_model.specs.Items.{IsKnown, item_of};
ghost use Rattle.beg_model.specs.RuleMeaning.{rules_in, rules_of, emitted_of};
ghost use Rattle.beg_model.specs.declared.rules.CoverRule.{CoverRule};
ghost use Rattle.beg_registers.specs.within.Shown.{FitsNode};
ghost use Rattle.beg_registers.specs.Assigned.{AreRegisters};
ghost use Rattle.beg_registers.specs.Chosen.{IsChosenList};
ghost use Rattle.beg_registers.specs.Code.{listed, code, text_at, placed_text, held_at, register_name, field_bytes, emitted_by, rule_for, bound_by, is_text};
ghost use Rattle.beg_registers.specs.Code.{operand_of as operand_numbered, value_bytes};
ghost use Rattle.beg_registers.specs.within.Begun.{IsReadable, AreBegun, left_of, PieceSaid};
ghost use Rattle.expr_lang.specs.PureOf.{pure_of};
ghost use Rattle.beg_model.specs.Rules.{operand};

use crate::items::{holding, operands_of};
use crate::variables::collect_bound;
use beg_model::{CoverRules, Holding, Instance, Piece};
use quoting::push_int;
use std::alloc::Global;
use tree_store::Tree;
use value_store::{NoMemory, Texts, Value};

/// The text of an instance, of which the pieces from this one on aren't written yet.
#[derive(Clone, Copy)]
pub struct Begun {
    pub instance: u32,
    pub piece: usize,
}

/// The text of the list: what its instances emit, one after the other, but for those that hold a
/// text, which stands where their users write it.
pub fn emit(
    alloc: Global,
    rules: &CoverRules,
    tree: &Tree,
    texts: &Texts,
    list: &[Instance],
    registers: &[Option<u32>],
) -> Result<Vec<u8>, NoMemory>
    requires chosen { (table : TypeTable) × IsChosenList texts.now rules.now table tree.now list.now }
    requires registers { AreRegisters rules.now list.now registers.now }
    ensures { IfOk result (λ out. out.items
        ≡ code (listed texts.now rules.now tree.now list.now registers.now)) }
{
    let mut begun = Vec::new(alloc);
    let mut fields = Vec::new(alloc);
    let mut out = Vec::new(alloc);
    for p in 0..list.len() {
        push_placed(
            rules,
            tree,
            texts,
            list,
            registers,
            p as u32,
            &mut begun,
            &mut fields,
            &mut out,
        )?;
    }
    Ok(out)
}

/// Appends the text of the instance, unless that stands where its user writes it.
fn push_placed(
    rules: &CoverRules,
    tree: &Tree,
    texts: &Texts,
    list: &[Instance],
    registers: &[Option<u32>],
    p: u32,
    begun: &mut Vec<Begun>,
    fields: &mut Vec<Value>,
    out: &mut Vec<u8>,
) -> Result<(), NoMemory>
    requires readable { IsReadable (listed texts.now rules.now tree.now list.now registers.now) }
    requires there { p < length list.now }
    requires begun { begun.old.items ≡ [] }
    ensures begun { OnOk result (begun.new.items ≡ []) }
    ensures text { let of = listed texts.now rules.now tree.now list.now registers.now in
        OnOk result (out.new.items ≡ out.old.items ++ placed_text (held_at of p) (text_at of p)) }
{
    if holds_text(rules, &list[p as usize]) {
        return Ok(());
    }
    push_text(rules, tree, texts, list, registers, p, begun, fields, out)
}

/// Appends the text of the instance. Texts that stand in it are begun where they stand, and what
/// they stand in goes on behind them.
fn push_text(
    rules: &CoverRules,
    tree: &Tree,
    texts: &Texts,
    list: &[Instance],
    registers: &[Option<u32>],
    p: u32,
    begun: &mut Vec<Begun>,
    fields: &mut Vec<Value>,
    out: &mut Vec<u8>,
) -> Result<(), NoMemory>
    requires readable { IsReadable (listed texts.now rules.now tree.now list.now registers.now) }
    requires there { p < length list.now }
    requires begun { begun.old.items ≡ [] }
    ensures begun { OnOk result (begun.new.items ≡ []) }
    ensures text { OnOk result (out.new.items ≡ out.old.items
        ++ text_at (listed texts.now rules.now tree.now list.now registers.now) p) }
{
    push_begun(p, begun)?;
    for _turn in 0..u64::MAX {
        let Some(last) = begun.pop() else {
            return Ok(());
        };
        push_next(
            rules, tree, texts, list, registers, last, begun, fields, out,
        )?;
    }
    Err(NoMemory)
}

/// Appends the next piece of the text; or begins the text that it stands for.
fn push_next(
    rules: &CoverRules,
    tree: &Tree,
    texts: &Texts,
    list: &[Instance],
    registers: &[Option<u32>],
    last: Begun,
    begun: &mut Vec<Begun>,
    fields: &mut Vec<Value>,
    out: &mut Vec<u8>,
) -> Result<(), NoMemory>
    requires readable { IsReadable (listed texts.now rules.now tree.now list.now registers.now) }
    requires there { last.instance < length list.now }
    requires begun { AreBegun (listed texts.now rules.now tree.now list.now registers.now)
        (reverse begun.old.items) }
    ensures begun { OnOk result (AreBegun (listed texts.now rules.now tree.now list.now registers.now)
        (reverse begun.new.items)) }
    ensures left { let of = listed texts.now rules.now tree.now list.now registers.now in
        OnOk result (out.new.items ++ left_of of (reverse begun.new.items)
        ≡ out.old.items ++ left_of of (last ∷ reverse begun.old.items)) }
{
    let pieces = pieces_of(rules, &list[last.instance as usize]);
    if last.piece >= pieces.len() {
        return Ok(());
    }
    begun.push(Begun {
        instance: last.instance,
        piece: last.piece + 1,
    })?;
    let piece = piece_at(pieces, last.piece);
    let text = push_piece(
        rules,
        tree,
        texts,
        list,
        registers,
        last.instance,
        piece,
        fields,
        out,
    )?;
    match text {
        None => Ok(()),
        Some(o) => {
            push_begun(o, begun)?;
            Ok(())
        }
    }
}

/// The text of the instance is begun.
fn push_begun(p: u32, begun: &mut Vec<Begun>) -> Result<(), NoMemory>
    ensures { OnOk result (begun.new.items ≡ begun.old.items ++ record { instance = p; piece = 0 } ∷ []) }
{
    begun.push(Begun {
        instance: p,
        piece: 0,
    })?;
    Ok(())
}

/// The piece at a number that there is.
fn piece_at(pieces: &[Piece], at: usize) -> Piece
    requires { at < length pieces.now }
    ensures { slice_get pieces.now at ≡ Some result }
{
    pieces[at]
}

/// The pieces of the instance's rule.
fn pieces_of<'r>(rules: &CoverRules<'r>, i: &Instance) -> &'r [Piece]
    requires { IsKnown rules.now i.now }
    ensures { (source literals : List ℕ) → map (emitted_of source literals) result.now
        ≡ emitted_by (slice_get (rules_of source literals rules.now).list i.now.rule) }
{
    rules.rules[i.rule as usize].emit
}

/// Appends the piece in the text of instance p; but where it stands for the text of an operand,
/// gives that one's number.
fn push_piece(
    rules: &CoverRules,
    tree: &Tree,
    texts: &Texts,
    list: &[Instance],
    registers: &[Option<u32>],
    p: u32,
    piece: Piece,
    fields: &mut Vec<Value>,
    out: &mut Vec<u8>,
) -> Result<Option<u32>, NoMemory>
    requires readable { IsReadable (listed texts.now rules.now tree.now list.now registers.now) }
    requires there { p < length list.now }
    ensures { IfOk result (λ text. PieceSaid
        (listed texts.now rules.now tree.now list.now registers.now) p
        (emitted_of texts.now.source.now texts.now.literals.now piece) text out.old.items
        out.new.items) }
{
    match piece {
        Piece::Bytes(t) => {
            push_bytes(texts.bytes(t), out)?;
            Ok(None)
        }
        Piece::Result => {
            push_register(rules, tree, texts, list, registers, p, out)?;
            Ok(None)
        }
        Piece::Operand(n) => push_operand(rules, tree, texts, list, registers, p, n, out),
        Piece::Field(k) => {
            push_variable(rules, tree, texts, &list[p as usize], k, fields, out)?;
            Ok(None)
        }
    }
}

/// Appends the name of the register of this operand, counted from 1, of instance p; but where the
/// operand holds a text, gives its number.
fn push_operand(
    rules: &CoverRules,
    tree: &Tree,
    texts: &Texts,
    list: &[Instance],
    registers: &[Option<u32>],
    p: u32,
    n: u32,
    out: &mut Vec<u8>,
) -> Result<Option<u32>, NoMemory>
    requires readable { IsReadable (listed texts.now rules.now tree.now list.now registers.now) }
    requires there { p < length list.now }
    ensures { IfOk result (λ text. PieceSaid
        (listed texts.now rules.now tree.now list.now registers.now) p (operand n) text
        out.old.items out.new.items) }
{
    let Some(o) = operand_of(&list[p as usize], n) else {
        return Ok(None);
    };
    if holds_text(rules, &list[o as usize]) {
        return Ok(Some(o));
    }
    push_register(rules, tree, texts, list, registers, o, out)?;
    Ok(None)
}

/// The number of the instance's operand, counted from 1; none where there is no such one.
fn operand_of(i: &Instance, n: u32) -> Option<u32>
    ensures { result ≡ operand_numbered (Some i.now) n }
{
    if n == 0 {
        return None;
    }
    operands_of(i).get(n as usize - 1).copied()
}

/// Appends the name of the register of instance p, if it has one.
fn push_register(
    rules: &CoverRules,
    tree: &Tree,
    texts: &Texts,
    list: &[Instance],
    registers: &[Option<u32>],
    p: u32,
    out: &mut Vec<u8>,
) -> Result<(), NoMemory>
    requires readable { IsReadable (listed texts.now rules.now tree.now list.now registers.now) }
    requires there { p < length list.now }
    ensures { OnOk result (out.new.items ≡ out.old.items
        ++ register_name (listed texts.now rules.now tree.now list.now registers.now) p) }
{
    match holding(rules, &list[p as usize]) {
        Holding::Class(class) => match registers[p as usize] {
            Some(k) => {
                push_bytes(rules.classes[class as usize][k as usize].bytes(), out)?;
                Ok(())
            }
            None => Ok(()),
        },
        Holding::Operand => Ok(()),
        Holding::Nothing => Ok(()),
    }
}

/// Appends the field that the instance's rule binds as this variable.
fn push_variable(
    rules: &CoverRules,
    tree: &Tree,
    texts: &Texts,
    i: &Instance,
    k: u32,
    fields: &mut Vec<Value>,
    out: &mut Vec<u8>,
) -> Result<(), NoMemory>
    requires known { IsKnown rules.now i.now }
    requires fits { (rule : CoverRule) → slice_get rules.now.rules.items i.now.rule ≡ Some rule
        → FitsNode tree.now rule.pattern i.now.node }
    ensures { OnOk result (out.new.items ≡ out.old.items ++ field_bytes texts.now
        (slice_get (bound_by tree.now
        (rule_for (rules_in texts.now rules.now).list (Some i.now)) (Some i.now)) k)) }
{
    fields.clear();
    collect_bound(&rules.rules[i.rule as usize].pattern, tree, i.node, fields)?;
    let bound = fields.as_slice();
    if k as usize >= bound.len() {
        return Ok(());
    }
    push_value(bound[k as usize], texts, out)?;
    Ok(())
}

/// Appends the value as it stands in emitted text.
fn push_value(value: Value, texts: &Texts, out: &mut Vec<u8>) -> Result<(), NoMemory>
    ensures { OnOk result (out.new.items ≡ out.old.items
        ++ value_bytes (pure_of texts.now.source.now texts.now.literals.now [] value)) }
{
    match value {
        Value::Int(n) => push_int(out, n),
        Value::Bool(true) => push_bytes(b"true", out),
        Value::Bool(false) => push_bytes(b"false", out),
        Value::Text(text) => push_bytes(texts.bytes(text), out),
        Value::Map(_) => Ok(()),
        Value::Token(_) => Ok(()),
        Value::Src(_) => Ok(()),
        Value::Made(_) => Ok(()),
    }
}

/// Appends the bytes.
fn push_bytes(bytes: &[u8], out: &mut Vec<u8>) -> Result<(), NoMemory>
    ensures { OnOk result (out.new.items ≡ out.old.items ++ bytes.now) }
{
    out.extend_from_slice(bytes)?;
    Ok(())
}

/// Whether the instance holds a text.
fn holds_text(rules: &CoverRules, i: &Instance) -> bool
    requires { IsKnown rules.now i.now }
    ensures { result ≡ is_text (item_of rules.now i.now).holds }
{
    match holding(rules, i) {
        Holding::Operand => true,
        Holding::Class(_) => false,
        Holding::Nothing => false,
    }
}
