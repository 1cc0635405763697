// A written expression given its meaning in a scope.
ghost use Rattle.std.specs.Prelude.{◌≡◌, ◌+◌, ◌≤◌, ◌<◌, ◌^◌, ◌++◌, ℕ, Bool, List, length, map, IfOk, MatchOption};
ghost use Rattle.expr_lang.specs.Meaning.{context_of, meaning};
ghost use Rattle.value_store.specs.Texts.{Grew};
ghost use Rattle.expr_read.specs.Resolving.{Means, MeansNothing, resolved, resolved_all};
ghost use Rattle.expr_read.specs.Spoken as spoken;
ghost use Rattle.expr_read.specs.Strings.{listed_bytes, string_bytes};
ghost use Rattle.expr_read.specs.within.Meant.{AlwaysMeanAll, AlwaysMeans, meaning_in};
ghost use Rattle.expr_read.specs.Writing.{spoken_list, spoken_of};

use crate::lookup::{dollar_place, function_named, place_in, variable_of};
use crate::made::{
    applied_expr, binary_expr, if_expr, negated_expr, negative_expr, number_expr, string_expr,
    var_expr,
};
use crate::vocabulary::Vocabulary;
use crate::written::Written;
use bumpalo::Bump;
use bumpalo::collections::into_bump_slice;
use ck_base::NoMemory;
use expr_lang::{Expr, Scope, typed};
use std::alloc::Global;
use value_store::{Literals, ValType};

/// What the expression means in the scope, and its type; `None` where a name stands for nothing or
/// there is no type. Its strings are put into the literals, and it means the same whatever is put
/// behind them.
pub fn meant_in<'a>(
    arena: &'a Bump<Global>,
    e: &Written<'_>,
    words: &Vocabulary<'_>,
    scope: &Scope<'_>,
    literals: &mut Literals,
) -> Result<Option<(Expr<'a>, ValType)>, NoMemory>
    requires types { length words.now.makers ≡ length words.now.types }
    requires few { length words.now.variables < 2 ^ 32 }
    ensures means { IfOk result (λ found. (source more : List ℕ) (sources : ℕ → ℕ → Bool)
        → MatchOption found (MeansNothing words.now (context_of scope.now sources) (spoken_of e.now))
        (λ pair. Means words.now (context_of scope.now sources) (spoken_of e.now)
        (meaning source (literals.new ++ more) pair.0) pair.1)) }
    ensures grew { Grew literals.old literals.new }
    ensures few { length literals.new ≤ length literals.old
        + string_bytes (spoken_of e.now) }
{
    let Some(meant) = resolved_expr(arena, e, words, literals)? else {
        return Ok(None);
    };
    let Some(ty) = typed(&meant, scope) else {
        return Ok(None);
    };
    Ok(Some((meant, ty)))
}

/// The expression with each name what it stands for; `None` where one stands for nothing. Its
/// strings are put into the literals.
#[cycle(resolved)]
pub(crate) fn resolved_expr<'a>(
    arena: &'a Bump<Global>,
    e: &Written<'_>,
    words: &Vocabulary<'_>,
    literals: &mut Literals,
) -> Result<Option<Expr<'a>>, NoMemory>
    requires types { length words.now.makers ≡ length words.now.types }
    requires few { length words.now.variables < 2 ^ 32 }
    ensures is { IfOk result (λ found.
        AlwaysMeans literals.new found (resolved words.now (spoken_of e.now))) }
    ensures grew { Grew literals.old literals.new }
    ensures few { length literals.new ≤ length literals.old
        + string_bytes (spoken_of e.now) }
{
    match e {
        Written::Number(n) => number_expr(*n),
        Written::Truth(b) => Ok(Some(Expr::Bool(*b))),
        Written::Text(bytes) => string_expr(bytes, literals),
        Written::Name(name) => Ok(var_expr(place_in(words.variables, name))),
        Written::Dollar(n) => Ok(var_expr(dollar_place(words.variables, *n))),
        Written::Pair(before, after) => Ok(dotted_expr(words, before, after)),
        Written::Negative(a) => negative_expr(arena, resolved_expr(arena, a, words, literals)?),
        Written::Negated(a) => negated_expr(arena, resolved_expr(arena, a, words, literals)?),
        Written::Binary(op, a, b) => {
            let left = resolved_expr(arena, a, words, literals)?;
            let right = resolved_expr(arena, b, words, literals)?;
            binary_expr(arena, *op, left, right)
        }
        Written::If(c, a, b) => {
            let condition = resolved_expr(arena, c, words, literals)?;
            let left = resolved_expr(arena, a, words, literals)?;
            let right = resolved_expr(arena, b, words, literals)?;
            if_expr(arena, condition, left, right)
        }
        Written::Applied(name, args) => resolved_applied(arena, name, args, words, literals),
        Written::Grouped(a) => resolved_expr(arena, a, words, literals),
    }
}

/// What the name before the arguments makes of them: a function before a maker of its name.
#[cycle(resolved)]
fn resolved_applied<'a>(
    arena: &'a Bump<Global>,
    name: &[u8],
    args: &[Written<'_>],
    words: &Vocabulary<'_>,
    literals: &mut Literals,
) -> Result<Option<Expr<'a>>, NoMemory>
    requires types { length words.now.makers ≡ length words.now.types }
    requires few { length words.now.variables < 2 ^ 32 }
    ensures is { IfOk result (λ found. AlwaysMeans literals.new found (resolved words.now
        (spoken.applied name.now (spoken_list (map spoken_of args.now))))) }
    ensures grew { Grew literals.old literals.new }
    ensures few { length literals.new ≤ length literals.old
        + listed_bytes (spoken_list (map spoken_of args.now)) }
{
    let parts = resolved_list(arena, args, words, literals)?;
    let maker = place_in(words.makers, name);
    Ok(applied_expr(words, function_named(name), maker, parts))
}

/// The expressions with their names what they stand for; `None` where a name stands for nothing.
#[cycle(resolved)]
fn resolved_list<'a>(
    arena: &'a Bump<Global>,
    list: &[Written<'_>],
    words: &Vocabulary<'_>,
    literals: &mut Literals,
) -> Result<Option<&'a [Expr<'a>]>, NoMemory>
    requires types { length words.now.makers ≡ length words.now.types }
    requires few { length words.now.variables < 2 ^ 32 }
    ensures are { IfOk result (λ found. AlwaysMeanAll literals.new found
        (resolved_all words.now (spoken_list (map spoken_of list.now)))) }
    ensures grew { Grew literals.old literals.new }
    ensures few { length literals.new ≤ length literals.old
        + listed_bytes (spoken_list (map spoken_of list.now)) }
{
    let mut parts = Vec::new(arena);
    for part in list {
        let Some(meant) = resolved_expr(arena, part, words, literals)? else {
            return Ok(None);
        };
        parts.push(meant)?;
    }
    Ok(Some(into_bump_slice(parts)))
}

/// The variable of two words, as an expression.
fn dotted_expr<'a>(words: &Vocabulary<'_>, before: &[u8], after: &[u8]) -> Option<Expr<'a>>
    ensures { (source literals : List ℕ) → meaning_in source literals result
        ≡ resolved words.now (spoken.pair before.now after.now) }
{
    match variable_of(words.dotted, before, after) {
        Some(i) => Some(Expr::Var(i)),
        None => None,
    }
}
