// Expressions written in postfix notation.
use bumpalo::Bump;
use bumpalo::collections::into_bump_slice;
use expr_lang::{Expr, Function, Op};
use std::alloc::Global;
use value_store::{Literals, NoMemory};

/// Strings of an expression have fewer bytes than this.
const LONGEST: usize = 1_000;

/// The expression of these words, each of which stands behind those of its parts; none where they
/// write none. A string stands between `'`, variable n is `$n`.
pub(crate) fn expression<'a>(
    arena: &'a Bump<Global>,
    words: &str,
    literals: &mut Literals,
) -> Result<Option<Expr<'a>>, NoMemory> {
    let mut stack = Vec::new(arena);
    for word in words.split_whitespace() {
        let Some(e) = expression_at(arena, word, &mut stack, literals)? else {
            return Ok(None);
        };
        stack.push(e)?;
    }
    Ok(stack.pop())
}

/// The expression that ends with the word, whose parts come from the stack.
fn expression_at<'a>(
    arena: &'a Bump<Global>,
    word: &str,
    stack: &mut Vec<Expr<'a>, &'a Bump<Global>>,
    literals: &mut Literals,
) -> Result<Option<Expr<'a>>, NoMemory> {
    if let Some(op) = op_of(word) {
        let (Some(b), Some(a)) = (stack.pop(), stack.pop()) else {
            return Ok(None);
        };
        return Ok(Some(Expr::Binary(op, arena.try_alloc(a)?, arena.try_alloc(b)?)));
    }
    if let Some((function, count)) = function_of(word) {
        let args = arguments(arena, stack, count)?;
        return Ok(Some(Expr::Call(function, args)));
    }
    if word == "if" {
        return choice_of(arena, stack);
    }
    if word == "leaf" {
        return Ok(Some(Expr::Make(1, arguments(arena, stack, 1)?)));
    }
    if word == "pair" {
        return Ok(Some(Expr::Make(2, arguments(arena, stack, 2)?)));
    }
    if word == "neg" || word == "!" {
        let Some(a) = stack.pop() else {
            return Ok(None);
        };
        let a: &Expr<'a> = arena.try_alloc(a)?;
        return Ok(Some(if word == "!" {
            Expr::Not(a)
        } else {
            Expr::Neg(a)
        }));
    }
    leaf_of(word, literals)
}

/// The choice between the last two expressions of the stack, by the one before them.
fn choice_of<'a>(
    arena: &'a Bump<Global>,
    stack: &mut Vec<Expr<'a>, &'a Bump<Global>>,
) -> Result<Option<Expr<'a>>, NoMemory> {
    let (Some(b), Some(a), Some(c)) = (stack.pop(), stack.pop(), stack.pop()) else {
        return Ok(None);
    };
    let c: &Expr<'a> = arena.try_alloc(c)?;
    let a: &Expr<'a> = arena.try_alloc(a)?;
    let b: &Expr<'a> = arena.try_alloc(b)?;
    Ok(Some(Expr::If(c, a, b)))
}

/// The last expressions of the stack, which are taken off.
fn arguments<'a>(
    arena: &'a Bump<Global>,
    stack: &mut Vec<Expr<'a>, &'a Bump<Global>>,
    count: usize,
) -> Result<&'a [Expr<'a>], NoMemory> {
    let kept = stack.len().saturating_sub(count);
    let mut args = Vec::new(arena);
    for e in &stack[kept..] {
        args.push(*e)?;
    }
    stack.truncate(kept);
    Ok(into_bump_slice(args))
}

/// The bool, the variable, the string or the int of the word.
fn leaf_of<'a>(word: &str, literals: &mut Literals) -> Result<Option<Expr<'a>>, NoMemory> {
    if word == "true" || word == "false" {
        return Ok(Some(Expr::Bool(word == "true")));
    }
    if let Some(number) = word.strip_prefix("$") {
        return Ok(match number.parse::<u32>() {
            Ok(i) => Some(Expr::Var(i)),
            Err(_) => None,
        });
    }
    if let Some(string) = word.strip_prefix("'") {
        let bytes = string.strip_suffix("'").unwrap_or(string).as_bytes();
        if bytes.len() >= LONGEST || literals.bytes().len() >= 1_000_000 {
            return Ok(None);
        }
        return Ok(Some(Expr::Text(literals.add(bytes)?)));
    }
    Ok(match word.parse::<i64>() {
        Ok(n) => Some(Expr::Int(n)),
        Err(_) => None,
    })
}

/// The operator that the word is.
fn op_of(word: &str) -> Option<Op> {
    match word {
        "||" => Some(Op::Or),
        "&&" => Some(Op::And),
        "==" => Some(Op::Equal),
        "!=" => Some(Op::Differ),
        "<" => Some(Op::Less),
        "<=" => Some(Op::AtMost),
        ">" => Some(Op::Greater),
        ">=" => Some(Op::AtLeast),
        "+" => Some(Op::Plus),
        "-" => Some(Op::Minus),
        "*" => Some(Op::Times),
        "/" => Some(Op::Quotient),
        "%" => Some(Op::Remainder),
        _ => None,
    }
}

/// The function that the word is, and how many arguments it takes.
fn function_of(word: &str) -> Option<(Function, usize)> {
    match word {
        "text" => Some((Function::Text, 1)),
        "line" => Some((Function::Line, 1)),
        "col" => Some((Function::Col, 1)),
        "int" => Some((Function::Int, 1)),
        "empty" => Some((Function::Empty, 0)),
        "put" => Some((Function::Put, 3)),
        "get" => Some((Function::Get, 3)),
        "has" => Some((Function::Has, 2)),
        "size" => Some((Function::Size, 1)),
        _ => None,
    }
}
