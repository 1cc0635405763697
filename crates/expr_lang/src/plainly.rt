// The value of a plain expression, without a store.
ghost use Rattle.std.specs.Prelude.{◌≡◌, ◌≤◌, ◌<◌, List, length, slice_get, Some};
ghost use Rattle.value_store.specs.Cells.{Cell};
ghost use Rattle.value_store.specs.Maps.{first_with};
ghost use Rattle.value_store.specs.declared.value.ValType.TheVariants as ty;
ghost use Rattle.expr_lang.specs.ValueOf.{Tokens, value_of};
ghost use Rattle.expr_lang.specs.PureValues.{map_in};
ghost use Rattle.expr_lang.specs.Units.{units_of};
ghost use Rattle.expr_lang.specs.Meaning.{meant};
ghost use Rattle.expr_lang.specs.PureOf.{pure_of, pure_env};
ghost use Rattle.expr_lang.specs.Plain.{Plain, PlainReady};

use crate::application::{number_of, text_in};
use crate::evaluation::{int_value, value_at};
use crate::expr::{Expr, Function};
use crate::operators::{bool_of, int_of, join, negate, negated};
use value_store::{Texts, Value};

/// The value of an expression that is an int, a bool or a text, and whose variables are such too,
/// from the syntax alone: a map is looked up along its `put`s, without a store and without memory.
#[cycle(plain)]
pub fn plain(e: &Expr, env: &[Value], texts: &Texts) -> Value
    requires { Plain env.now (meant texts.now e.now) }
    ensures { (tokens : Tokens) (cells : List Cell)
        → pure_of texts.now.source.now texts.now.literals.now cells result
        ≡ value_of tokens (pure_env texts.now cells env.now) (meant texts.now e.now) }
{
    match e {
        Expr::Int(n) => int_value(n),
        Expr::Bool(b) => Value::Bool(*b),
        Expr::Text(t) => Value::Text(*t),
        Expr::Var(i) => value_at(env, *i as usize),
        Expr::Neg(a) => negate(plain(a, env, texts)),
        Expr::Not(a) => negated(plain(a, env, texts)),
        Expr::Binary(op, a, b) => {
            let left = plain(a, env, texts);
            let right = plain(b, env, texts);
            join(*op, left, right, texts)
        }
        Expr::If(c, a, b) => {
            if bool_of(plain(c, env, texts)) {
                plain(a, env, texts)
            } else {
                plain(b, env, texts)
            }
        }
        Expr::Call(function, args) => match function {
            Function::Int => {
                let text = text_in(plain(arg_at(args, 0), env, texts));
                Value::Int(number_of(texts.bytes(text)))
            }
            Function::Get => {
                let text = text_in(plain(arg_at(args, 1), env, texts));
                let number = int_of(plain(arg_at(args, 2), env, texts));
                Value::Int(plain_find(arg_at(args, 0), env, texts, texts.bytes(text)).unwrap_or(
                    number,
                ))
            }
            Function::Has => {
                let text = text_in(plain(arg_at(args, 1), env, texts));
                Value::Bool(plain_find(arg_at(args, 0), env, texts, texts.bytes(text)).is_some())
            }
            Function::Size => Value::Int(plain_size(arg_at(args, 0), env, texts) as i64),
            Function::Text => Value::Int(0),
            Function::Line => Value::Int(0),
            Function::Col => Value::Int(0),
            Function::Empty => Value::Int(0),
            Function::Put => Value::Int(0),
        },
        Expr::Make(_, _) => Value::Int(0),
    }
}

/// The number of the first pair of the map with this text, by its `put`s.
#[cycle(plain)]
fn plain_find(e: &Expr, env: &[Value], texts: &Texts, key: &[u8]) -> Option<i64>
    requires { PlainReady env.now ty.Map (meant texts.now e.now) }
    ensures { (tokens : Tokens) (cells : List Cell) → result ≡ first_with key.now (map_in
        (value_of tokens (pure_env texts.now cells env.now) (meant texts.now e.now))) }
{
    match e {
        Expr::If(c, a, b) => {
            if bool_of(plain(c, env, texts)) {
                plain_find(a, env, texts, key)
            } else {
                plain_find(b, env, texts, key)
            }
        }
        Expr::Call(function, args) => match function {
            Function::Put => {
                let text = text_in(plain(arg_at(args, 1), env, texts));
                if texts.bytes(text) == key {
                    return Some(int_of(plain(arg_at(args, 2), env, texts)));
                }
                plain_find(arg_at(args, 0), env, texts, key)
            }
            _ => None,
        },
        Expr::Int(_) => None,
        Expr::Bool(_) => None,
        Expr::Text(_) => None,
        Expr::Var(_) => None,
        Expr::Neg(_) => None,
        Expr::Not(_) => None,
        Expr::Binary(_, _, _) => None,
        Expr::Make(_, _) => None,
    }
}

/// How many pairs the map has, by its `put`s.
#[cycle(plain)]
fn plain_size(e: &Expr, env: &[Value], texts: &Texts) -> u64
    requires { PlainReady env.now ty.Map (meant texts.now e.now) }
    ensures is { (tokens : Tokens) (cells : List Cell) → result ≡ length (map_in
        (value_of tokens (pure_env texts.now cells env.now) (meant texts.now e.now))) }
    ensures few { result ≤ units_of (meant texts.now e.now) }
{
    match e {
        Expr::If(c, a, b) => {
            if bool_of(plain(c, env, texts)) {
                plain_size(a, env, texts)
            } else {
                plain_size(b, env, texts)
            }
        }
        Expr::Call(function, args) => match function {
            Function::Put => plain_size(arg_at(args, 0), env, texts) + 1,
            _ => 0,
        },
        Expr::Int(_) => 0,
        Expr::Bool(_) => 0,
        Expr::Text(_) => 0,
        Expr::Var(_) => 0,
        Expr::Neg(_) => 0,
        Expr::Not(_) => 0,
        Expr::Binary(_, _, _) => 0,
        Expr::Make(_, _) => 0,
    }
}

/// The argument at a place that there is.
fn arg_at<'e, 'a>(args: &'e [Expr<'a>], i: usize) -> &'e Expr<'a>
    requires { i < length args.now }
    ensures { slice_get args.now i ≡ Some result.now }
{
    &args[i]
}
