// Expressions made of parts that were resolved.
ghost use Rattle.std.specs.Prelude.{◌≡◌, ◌+◌, ◌≤◌, ◌<◌, ◌^◌, ◌++◌, ℕ, pos, Some, List, length, option_map, IfOk, IfSome};
ghost use Rattle.expr_lang.specs.Expression as ex;
ghost use Rattle.value_store.specs.Texts.{Grew};
ghost use Rattle.expr_read.specs.Resolving.{applied_to, of_one, of_three, of_two, var_of};
ghost use Rattle.expr_read.specs.within.Meant.{AlwaysMeans, meaning_in, meanings_in};

use crate::vocabulary::Vocabulary;
use bumpalo::Bump;
use ck_base::NoMemory;
use expr_lang::{Expr, Function, Op};
use std::alloc::Global;
use value_store::Literals;

/// The number, as an expression. No token has one that is past the greatest i64: want of memory is
/// answered there.
pub(crate) fn number_expr<'a>(n: u64) -> Result<Option<Expr<'a>>, NoMemory>
    ensures { (source literals : List ℕ) → IfOk result (λ made.
        meaning_in source literals made ≡ Some (ex.number (pos n))) }
{
    if n > 9_223_372_036_854_775_807 {
        return Err(NoMemory);
    }
    Ok(Some(Expr::Int(n as i64)))
}

/// The string, as an expression. Its bytes are put behind the literals; where these have no room
/// below 2^32, want of memory is answered.
pub(crate) fn string_expr<'a>(
    bytes: &[u8],
    literals: &mut Literals,
) -> Result<Option<Expr<'a>>, NoMemory>
    ensures is { IfOk result (λ made.
        AlwaysMeans literals.new made (Some (ex.string bytes.now))) }
    ensures grew { Grew literals.old literals.new }
    ensures few { length literals.new ≤ length literals.old + length bytes.now }
{
    if literals.bytes().len() + bytes.len() >= 4_294_967_296 {
        return Err(NoMemory);
    }
    let text = literals.add(bytes)?;
    Ok(Some(Expr::Text(text)))
}

/// The variable at the place, as an expression.
pub(crate) fn var_expr<'a>(place: Option<usize>) -> Option<Expr<'a>>
    requires { IfSome place (λ i. i < 2 ^ 32) }
    ensures { (source literals : List ℕ) → meaning_in source literals result ≡ var_of place }
{
    match place {
        Some(i) => Some(Expr::Var(i as u32)),
        None => None,
    }
}

/// The negative of the expression, where there is one.
pub(crate) fn negative_expr<'a>(
    arena: &'a Bump<Global>,
    part: Option<Expr<'a>>,
) -> Result<Option<Expr<'a>>, NoMemory>
    ensures { (source literals : List ℕ) → IfOk result (λ made. meaning_in source literals made
        ≡ of_one ex.negative (meaning_in source literals part.entry)) }
{
    let Some(a) = part else {
        return Ok(None);
    };
    Ok(Some(Expr::Neg(arena.try_alloc(a)?)))
}

/// The negation of the expression, where there is one.
pub(crate) fn negated_expr<'a>(
    arena: &'a Bump<Global>,
    part: Option<Expr<'a>>,
) -> Result<Option<Expr<'a>>, NoMemory>
    ensures { (source literals : List ℕ) → IfOk result (λ made. meaning_in source literals made
        ≡ of_one ex.negated (meaning_in source literals part.entry)) }
{
    let Some(a) = part else {
        return Ok(None);
    };
    Ok(Some(Expr::Not(arena.try_alloc(a)?)))
}

/// The operator over two expressions, where both are there.
pub(crate) fn binary_expr<'a>(
    arena: &'a Bump<Global>,
    op: Op,
    left: Option<Expr<'a>>,
    right: Option<Expr<'a>>,
) -> Result<Option<Expr<'a>>, NoMemory>
    ensures { (source literals : List ℕ) → IfOk result (λ made. meaning_in source literals made
        ≡ of_two (ex.binary op) (meaning_in source literals left.entry)
        (meaning_in source literals right.entry)) }
{
    let Some(a) = left else {
        return Ok(None);
    };
    let Some(b) = right else {
        return Ok(None);
    };
    Ok(Some(Expr::Binary(op, arena.try_alloc(a)?, arena.try_alloc(b)?)))
}

/// The choice between two expressions, where all three are there.
pub(crate) fn if_expr<'a>(
    arena: &'a Bump<Global>,
    condition: Option<Expr<'a>>,
    left: Option<Expr<'a>>,
    right: Option<Expr<'a>>,
) -> Result<Option<Expr<'a>>, NoMemory>
    ensures { (source literals : List ℕ) → IfOk result (λ made. meaning_in source literals made
        ≡ of_three ex.if_then (meaning_in source literals condition.entry)
        (meaning_in source literals left.entry) (meaning_in source literals right.entry)) }
{
    let Some(c) = condition else {
        return Ok(None);
    };
    let Some(a) = left else {
        return Ok(None);
    };
    let Some(b) = right else {
        return Ok(None);
    };
    Ok(Some(Expr::If(
        arena.try_alloc(c)?,
        arena.try_alloc(a)?,
        arena.try_alloc(b)?,
    )))
}

/// The call of the function, or the node of the type at the place, where the arguments are there.
pub(crate) fn applied_expr<'a>(
    words: &Vocabulary<'_>,
    function: Option<Function>,
    maker: Option<usize>,
    args: Option<&'a [Expr<'a>]>,
) -> Option<Expr<'a>>
    requires { IfSome maker (λ k. k < length words.now.types) }
    ensures { (source literals : List ℕ) → meaning_in source literals result
        ≡ applied_to words.now function maker (meanings_in source literals args.entry) }
{
    let args = args?;
    if let Some(f) = function {
        return Some(Expr::Call(f, args));
    }
    let k = maker?;
    let types = words.types;
    Some(Expr::Make(types[k], args))
}
