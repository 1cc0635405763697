// Operators on values.
ghost use Rattle.std.specs.Prelude.{◌≡◌, not, [], false};
ghost use Rattle.std.specs.Int.{int_wrapping_neg, w64};
ghost use Rattle.value_store.specs.declared.value.Value.TheVariants as value;
ghost use Rattle.expr_lang.specs.ValueOf.{quotient, remainder};
ghost use Rattle.expr_lang.specs.ValueParts.{int_part, bool_part, join_of, same_of};

use crate::expr::Op;
use value_store::{Texts, Value};

/// What an operator makes of the values of its operands.
pub fn join(op: Op, a: Value, b: Value, texts: &Texts) -> Value
    ensures { result ≡ join_of texts.now.source.now texts.now.literals.now op a b }
{
    match op {
        Op::Or => Value::Bool(bool_of(a) || bool_of(b)),
        Op::And => Value::Bool(bool_of(a) && bool_of(b)),
        Op::Equal => Value::Bool(same(a, b, texts)),
        Op::Differ => Value::Bool(!same(a, b, texts)),
        Op::Less => Value::Bool(int_of(a) < int_of(b)),
        Op::AtMost => Value::Bool(int_of(a) <= int_of(b)),
        Op::Greater => Value::Bool(int_of(a) > int_of(b)),
        Op::AtLeast => Value::Bool(int_of(a) >= int_of(b)),
        Op::Plus => Value::Int(int_of(a).wrapping_add(int_of(b))),
        Op::Minus => Value::Int(int_of(a).wrapping_sub(int_of(b))),
        Op::Times => Value::Int(int_of(a).wrapping_mul(int_of(b))),
        Op::Quotient => Value::Int(divide(int_of(a), int_of(b))),
        Op::Remainder => Value::Int(rest(int_of(a), int_of(b))),
    }
}

/// Whether two ints, bools or texts are the same.
fn same(a: Value, b: Value, texts: &Texts) -> bool
    ensures { result ≡ same_of texts.now.source.now texts.now.literals.now a b }
{
    match a {
        Value::Int(m) => match b {
            Value::Int(n) => m == n,
            _ => false,
        },
        Value::Bool(true) => bool_like(b),
        Value::Bool(false) => bool_unlike(b),
        Value::Text(t) => match b {
            Value::Text(u) => texts.bytes(t) == texts.bytes(u),
            _ => false,
        },
        _ => false,
    }
}

/// Whether the value is `true`.
fn bool_like(b: Value) -> bool
    ensures { result ≡ bool_part b }
{
    bool_of(b)
}

/// Whether the value is `false`.
fn bool_unlike(b: Value) -> bool
    ensures { result ≡ same_of [] [] (value.Bool false) b }
{
    match b {
        Value::Bool(n) => !n,
        _ => false,
    }
}

/// The quotient towards zero; 0 where the divisor is.
fn divide(a: i64, b: i64) -> i64
    ensures { result ≡ quotient a b }
{
    if b == 0 { 0 } else { a.wrapping_div(b) }
}

/// The remainder with the dividend's sign; 0 where the divisor is.
fn rest(a: i64, b: i64) -> i64
    ensures { result ≡ remainder a b }
{
    if b == 0 { 0 } else { a.wrapping_rem(b) }
}

/// The int with the other sign; it wraps.
pub fn negate(v: Value) -> Value
    ensures { result ≡ value.Int (int_wrapping_neg w64 (int_part v)) }
{
    Value::Int(int_of(v).wrapping_neg())
}

/// The other bool.
pub fn negated(v: Value) -> Value
    ensures { result ≡ value.Bool (not (bool_part v)) }
{
    Value::Bool(!bool_of(v))
}

/// The int; 0 for another value.
pub fn int_of(v: Value) -> i64
    ensures { result ≡ int_part v }
{
    match v {
        Value::Int(n) => n,
        _ => 0,
    }
}

/// The bool; false for another value.
pub fn bool_of(v: Value) -> bool
    ensures { result ≡ bool_part v }
{
    match v {
        Value::Bool(b) => b,
        _ => false,
    }
}
