// Functions and makers applied to values in a store.
ghost use Rattle.std.specs.Prelude.{◌≡◌, ℕ, ◌+◌, ◌≤◌, ◌<◌, map, List, [], IfOk, OnOk, IsOk, length, slice_get, slice_index_or, take, pos, unwrap_or, Bool, true, ◌%◌, ◌^◌};
ghost use Rattle.value_store.specs.Cells.{cells_of};
ghost use Rattle.value_store.specs.Texts.{text_of};
ghost use Rattle.value_store.specs.declared.value.Value.TheVariants as value;
ghost use Rattle.expr_lang.specs.Typing.{takes};
ghost use Rattle.expr_lang.specs.Units.{own_units};
ghost use Rattle.expr_lang.specs.ValueOf.{all_digits, decimal, is_digit, number_in};
ghost use Rattle.expr_lang.specs.Evaluated.{Applies, Parts, MadeOf, KeepsCells, cells_among, is_made_cell, others_among};
ghost use Rattle.expr_lang.specs.OfType.{AreOf};
ghost use Rattle.expr_lang.specs.ValueParts.{map_part, text_part, token_part};

use crate::expr::Function;
use crate::operators::int_of;
use value_store::{Cells, NoMemory, Text, TextOf, Texts, Value};

/// What a function makes of its arguments.
pub fn apply(
    function: Function,
    values: &[Value],
    texts: &Texts,
    cells: &mut Cells,
    spans: &[Text],
    places: &[(u32, u32)],
) -> Result<Value, NoMemory>
    requires { (k : ℕ → ℕ → Bool) × AreOf k (cells_of cells.old.units) values.now (takes function) }
    ensures ok { IfOk result (Applies texts.now spans.now places.now cells.old cells.new
        function values.now) }
    ensures kept { KeepsCells cells.old cells.new }
    ensures spare { OnOk result (cells.old.spare ≤ cells.new.spare + own_units function) }
    ensures room { own_units function ≤ cells.old.spare → IsOk result }
{
    let first = nth(values, 0);
    let second = nth(values, 1);
    let third = nth(values, 2);
    match function {
        Function::Text => Ok(Value::Text(span_at(spans, token_in(first)))),
        Function::Line => Ok(int_from(place_at(places, token_in(first)).0)),
        Function::Col => Ok(int_from(place_at(places, token_in(first)).1)),
        Function::Int => Ok(Value::Int(number_of(texts.bytes(text_in(first))))),
        Function::Empty => Ok(Value::Map(cells.empty_map())),
        Function::Put => Ok(Value::Map(cells.put_entry(
            map_in(first),
            text_in(second),
            int_of(third),
        )?)),
        Function::Get => Ok(Value::Int(cells.get_entry(
            texts,
            map_in(first),
            text_in(second),
            int_of(third),
        ))),
        Function::Has => Ok(Value::Bool(cells.has(texts, map_in(first), text_in(second)))),
        Function::Size => Ok(Value::Int(cells.size(map_in(first)) as i64)),
    }
}

/// A node of the type: its children are the cells among the values, its fields the others.
pub fn make(ty: u32, values: &[Value], cells: &mut Cells) -> Result<Value, NoMemory>
    requires { Parts (cells_of cells.old.units) values.now }
    ensures ok { IfOk result
        (MadeOf (cells_of cells.old.units) (cells_of cells.new.units) ty values.now) }
    ensures kept { KeepsCells cells.old cells.new }
    ensures spare { OnOk result (cells.old.spare ≤ cells.new.spare + (1 + length values.now)) }
    ensures room { length values.now < cells.old.spare → IsOk result }
{
    let mut children = [0; 8];
    let mut fields = [Value::Int(0); 8];
    let child_count = pick_children(values, &mut children);
    let field_count = pick_fields(values, &mut fields);
    Ok(Value::Made(cells.make_node(ty, &children[..child_count], &fields[..field_count])?))
}

/// The cells among the values.
fn pick_children(values: &[Value], into: &mut [u64; 8]) -> usize
    requires { length (cells_among values.now) ≤ 8 }
    ensures count { result ≡ length (cells_among values.now) }
    ensures are { take result into.new ≡ cells_among values.now }
{
    let mut count = 0;
    for v in values {
        if let Value::Made(c) = v {
            into[count] = *c;
            count += 1;
        }
    }
    count
}

/// The values that aren't cells.
fn pick_fields(values: &[Value], into: &mut [Value; 8]) -> usize
    requires { length (others_among values.now) ≤ 8 }
    ensures count { result ≡ length (others_among values.now) }
    ensures are { take result into.new ≡ others_among values.now }
{
    let mut count = 0;
    for v in values {
        if !is_cell(*v) {
            into[count] = *v;
            count += 1;
        }
    }
    count
}

/// Whether the value is a made node.
fn is_cell(v: Value) -> bool
    ensures { result ≡ is_made_cell v }
{
    match v {
        Value::Made(_) => true,
        _ => false,
    }
}

/// The value at a place; 0 where there is none.
fn nth(values: &[Value], i: usize) -> Value
    ensures { result ≡ slice_index_or values.now i (value.Int (pos 0)) }
{
    if i < values.len() {
        values[i]
    } else {
        Value::Int(0)
    }
}

/// The text of a token; one without bytes where there is none.
fn span_at(spans: &[Text], k: u32) -> Text
    ensures { (s l : List ℕ)
        → text_of s l result ≡ unwrap_or (slice_get (map (text_of s l) spans.now) k) [] }
{
    match spans.get(k as usize) {
        Some(t) => *t,
        None => Text {
            of: TextOf::Source,
            from: 0,
            to: 0,
        },
    }
}

/// The line and column of a token; (0, 0) where there is none.
fn place_at(places: &[(u32, u32)], k: u32) -> (u32, u32)
    ensures { result ≡ unwrap_or (slice_get places.now k) (0, 0) }
{
    match places.get(k as usize) {
        Some(p) => *p,
        None => (0, 0),
    }
}

/// The number as a value.
fn int_from(n: u32) -> Value
    ensures { result ≡ value.Int (pos n) }
{
    Value::Int(n as i64)
}

/// The number that one or more digits alone write, modulo 2^64, as an int; else 0.
pub fn number_of(bytes: &[u8]) -> i64
    ensures { result ≡ number_in bytes.now }
{
    if bytes.is_empty() || !are_digits(bytes) {
        return 0;
    }
    decimal_of(bytes).cast_signed()
}

/// Whether all the bytes are digits.
fn are_digits(bytes: &[u8]) -> bool
    ensures { result ≡ all_digits bytes.now }
{
    for b in bytes {
        if !digit(*b) {
            return false;
        }
    }
    true
}

/// Whether the byte is a digit.
fn digit(b: u8) -> bool
    ensures { result ≡ is_digit b }
{
    b.is_ascii_digit()
}

/// The number that the digits write, modulo 2^64.
fn decimal_of(bytes: &[u8]) -> u64
    requires { all_digits bytes.now ≡ true }
    ensures { result ≡ decimal 0 bytes.now % 2 ^ 64 }
{
    let mut n: u64 = 0;
    for b in bytes {
        n = n.wrapping_mul(10).wrapping_add(b.wrapping_sub(48) as u64);
    }
    n
}

/// The cell of a map; 0 for another value.
fn map_in(v: Value) -> u64
    ensures { result ≡ map_part v }
{
    match v {
        Value::Map(m) => m,
        _ => 0,
    }
}

/// The text; one without bytes for another value.
pub fn text_in(v: Value) -> Text
    ensures { result ≡ text_part v }
{
    match v {
        Value::Text(t) => t,
        _ => Text {
            of: TextOf::Source,
            from: 0,
            to: 0,
        },
    }
}

/// The number of a token; 0 for another value.
fn token_in(v: Value) -> u32
    ensures { result ≡ token_part v }
{
    match v {
        Value::Token(k) => k,
        _ => 0,
    }
}
