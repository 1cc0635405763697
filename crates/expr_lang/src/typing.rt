// The type of an expression in a scope.
ghost use Rattle.std.specs.Prelude.{◌≡◌, ℕ, map, List, Bool, length, take, MatchOption, ◌↔◌, ◌≤◌, ◌<◌, IsTrue, slice_get, Some, None};
ghost use Rattle.expr_lang.specs.Typing.{HasType, HaveTypes, Takes, takes, gives, maker_of};
ghost use Rattle.expr_lang.specs.Meaning.{IsTypeOf, meaning, expressions_of, context_of};
ghost use Rattle.value_store.specs.declared.value.ValType.{ValType};
ghost use Rattle.value_store.specs.declared.value.ValType.TheVariants as ty;

use crate::expr::{Expr, Function, Maker, Op, Scope};
use value_store::ValType;

/// The type of the expression in the scope; None exactly where it has none. Whatever texts its
/// strings lie in and whatever the source tree is, the answer is the same.
#[cycle(typed)]
pub fn typed(e: &Expr, scope: &Scope) -> Option<ValType>
    ensures { IsTypeOf scope.now e.now result }
{
    match e {
        Expr::Int(_) => Some(ValType::Int),
        Expr::Bool(_) => Some(ValType::Bool),
        Expr::Text(_) => Some(ValType::Text),
        Expr::Var(i) => type_at(scope.vars, *i as usize),
        Expr::Neg(a) => {
            if is_typed(a, scope, ValType::Int) {
                Some(ValType::Int)
            } else {
                None
            }
        }
        Expr::Not(a) => {
            if is_typed(a, scope, ValType::Bool) {
                Some(ValType::Bool)
            } else {
                None
            }
        }
        Expr::Binary(op, a, b) => match typed(a, scope) {
            Some(t) => {
                if is_typed(b, scope, t) {
                    gives_with(*op, t)
                } else {
                    None
                }
            }
            None => None,
        },
        Expr::If(c, a, b) => {
            if !is_typed(c, scope, ValType::Bool) {
                return None;
            }
            match typed(a, scope) {
                Some(t) => { if is_typed(b, scope, t) { Some(t) } else { None } }
                None => None,
            }
        }
        Expr::Call(function, args) => {
            let (wanted, count) = taken(*function);
            if are_typed(args, scope, &wanted[..count]) {
                Some(gives_of(*function))
            } else {
                None
            }
        }
        Expr::Make(ty, args) => match maker_for(scope.makers, *ty) {
            Some(maker) => {
                if are_typed(args, scope, maker.items.as_slice()) {
                    Some(ValType::Node(maker.family))
                } else {
                    None
                }
            }
            None => None,
        },
    }
}

/// Whether the expression has the type.
#[cycle(typed)]
fn is_typed(e: &Expr, scope: &Scope, wanted: ValType) -> bool
    ensures { (source literals : List ℕ) (sources : ℕ → ℕ → Bool) → IsTrue result
        ↔ HasType (context_of scope.now sources) (meaning source literals e.now) wanted }
{
    match typed(e, scope) {
        Some(t) => t == wanted,
        None => false,
    }
}

/// Whether the arguments have the types.
#[cycle(typed)]
fn are_typed(args: &[Expr], scope: &Scope, wanted: &[ValType]) -> bool
    ensures { (source literals : List ℕ) (sources : ℕ → ℕ → Bool) → IsTrue result
        ↔ HaveTypes (context_of scope.now sources)
        (expressions_of (map (meaning source literals) args.now)) wanted.now }
{
    if args.len() != wanted.len() {
        return false;
    }
    for i in 0..args.len() {
        let arg = &args[i];
        if !is_typed(arg, scope, wanted_at(wanted, i)) {
            return false;
        }
    }
    true
}

/// The type that is wanted of an argument.
fn wanted_at(wanted: &[ValType], i: usize) -> ValType
    requires { i < length wanted.now }
    ensures { slice_get wanted.now i ≡ Some result }
{
    wanted[i]
}

/// The first maker of the type.
fn maker_for<'s>(makers: &'s [Maker], ty: u32) -> Option<&'s Maker>
    ensures { MatchOption result (maker_of makers.now ty ≡ None)
        (λ m. maker_of makers.now ty ≡ Some m.now) }
{
    for m in makers {
        if m.ty == ty {
            return Some(m);
        }
    }
    None
}

/// The types that a function takes, at the front of three, and how many they are.
fn taken(function: Function) -> ([ValType; 3], usize)
    ensures few { result.1 ≤ 3 }
    ensures are { take result.1 result.0 ≡ takes function }
{
    match function {
        Function::Text => ([ValType::Token, ValType::Int, ValType::Int], 1),
        Function::Line => ([ValType::Token, ValType::Int, ValType::Int], 1),
        Function::Col => ([ValType::Token, ValType::Int, ValType::Int], 1),
        Function::Int => ([ValType::Text, ValType::Int, ValType::Int], 1),
        Function::Empty => ([ValType::Int, ValType::Int, ValType::Int], 0),
        Function::Put => ([ValType::Map, ValType::Text, ValType::Int], 3),
        Function::Get => ([ValType::Map, ValType::Text, ValType::Int], 3),
        Function::Has => ([ValType::Map, ValType::Text, ValType::Int], 2),
        Function::Size => ([ValType::Map, ValType::Int, ValType::Int], 1),
    }
}

/// What an operator gives for two operands of a type.
fn gives_with(op: Op, t: ValType) -> Option<ValType>
    ensures { MatchOption result ((u : ValType) → Takes op t u → ⊥) (Takes op t) }
{
    match t {
        ValType::Int => int_gives(op),
        ValType::Bool => bool_gives(op),
        ValType::Text => text_gives(op),
        ValType::Map => None,
        ValType::Token => None,
        ValType::Node(_) => None,
    }
}

/// What an operator gives for two ints.
fn int_gives(op: Op) -> Option<ValType>
    ensures { MatchOption result ((u : ValType) → Takes op ty.Int u → ⊥) (Takes op ty.Int) }
{
    match op {
        Op::Equal => Some(ValType::Bool),
        Op::Differ => Some(ValType::Bool),
        Op::Less => Some(ValType::Bool),
        Op::AtMost => Some(ValType::Bool),
        Op::Greater => Some(ValType::Bool),
        Op::AtLeast => Some(ValType::Bool),
        Op::Plus => Some(ValType::Int),
        Op::Minus => Some(ValType::Int),
        Op::Times => Some(ValType::Int),
        Op::Quotient => Some(ValType::Int),
        Op::Remainder => Some(ValType::Int),
        Op::Or => None,
        Op::And => None,
    }
}

/// What an operator gives for two bools.
fn bool_gives(op: Op) -> Option<ValType>
    ensures { MatchOption result ((u : ValType) → Takes op ty.Bool u → ⊥) (Takes op ty.Bool) }
{
    match op {
        Op::Or => Some(ValType::Bool),
        Op::And => Some(ValType::Bool),
        Op::Equal => Some(ValType::Bool),
        Op::Differ => Some(ValType::Bool),
        _ => None,
    }
}

/// What an operator gives for two texts.
fn text_gives(op: Op) -> Option<ValType>
    ensures { MatchOption result ((u : ValType) → Takes op ty.Text u → ⊥) (Takes op ty.Text) }
{
    match op {
        Op::Equal => Some(ValType::Bool),
        Op::Differ => Some(ValType::Bool),
        _ => None,
    }
}

/// What a function gives.
fn gives_of(function: Function) -> ValType
    ensures { result ≡ gives function }
{
    match function {
        Function::Text => ValType::Text,
        Function::Line | Function::Col | Function::Int | Function::Get | Function::Size =>
            ValType::Int,
        Function::Empty | Function::Put => ValType::Map,
        Function::Has => ValType::Bool,
    }
}

/// The type of a variable.
fn type_at(vars: &[ValType], i: usize) -> Option<ValType>
    ensures { result ≡ slice_get vars.now i }
{
    vars.get(i).copied()
}
