// An expression of a line read whole: its shape, its names, its type.
ghost use Rattle.std.specs.Prelude.{◌≡◌, ◌+◌, ◌-◌, ◌<◌, ◌≤◌, ◌^◌, ◌++◌, ℕ, Bool, List, length, map, drop, take, IfOk, IfErr};
ghost use Rattle.expr_lang.specs.Meaning.{context_of, meaning};
ghost use Rattle.expr_lang.specs.Units.{units_of};
ghost use Rattle.spec_text.specs.Reading.{Placed};
ghost use Rattle.spec_text.specs.Sizes.{token_bytes};
ghost use Rattle.value_store.specs.Texts.{Grew};
ghost use Rattle.expr_read.specs.Written.{AreTokensOf, IsExprFault, IsFound, bytes_between, bytes_told, said_in, vocabulary_of};

use crate::at_place::written_at;
use crate::fault::ExprFault;
use crate::resolving::meant_in;
use crate::scope::NameScope;
use crate::unknown_names::has_unknown;
use crate::vocabulary::Vocabulary;
use bumpalo::Bump;
use ck_base::{Kind, NoMemory};
use expr_lang::{Expr, Maker};
use spec_text::SpecToken;
use std::alloc::Global;
use value_store::{Literals, ValType};

/// The expression that stands among the tokens at the place `at`, its type, and the number of the
/// token behind it. It is the run of tokens from there on that is an expression, of nesting 64 at
/// most, and is followed by their end, by `)`, `,` or `=>`, or by one of the words IF, LET, WHEN,
/// COST, EARLY, EMIT; there is one such run at most. Its strings are put into the literals, and it
/// means the same whatever is put behind them.
///
/// `Bad` has kind `Syntax` where no such expression stands there, and `next` is `at`. Else it has kind
/// `Unknown` where a name before parentheses is neither a function's nor a maker's, and kind `Typing`
/// where there is no such name, but another name isn't there or the expression has no type; then
/// `next` is the number of the token behind it. `NoMemory` comes where memory is wanting. Texts may
/// have been put into the literals before a refusal. In any case no more bytes are put there than
/// the tokens from `at` on have, and no more than those from `at` up to `next` have, where that is told:
/// none, where no expression stands there. A few tokens behind it are looked at, and not all of them.
pub fn read_expr<'a>(
    alloc: Global,
    arena: &'a Bump<Global>,
    spec: &[u8],
    tokens: &[SpecToken],
    at: usize,
    scope: &NameScope<'_>,
    literals: &mut Literals,
) -> Result<(&'a Expr<'a>, ValType, usize), ExprFault>
    requires within { at ≤ length tokens.now }
    requires spelled { (said : List Placed) × AreTokensOf spec.now tokens.now said }
    requires names { length scope.now.names.now
        ≡ length scope.now.scope.vars.now + length scope.now.scope.makers.now }
    requires few { length scope.now.scope.vars.now < 2 ^ 32 }
    ensures found { IfOk result (λ found. (said : List Placed) (source more : List ℕ)
        (sources : ℕ → ℕ → Bool) → AreTokensOf spec.now tokens.now said
        → IsFound (vocabulary_of scope.now) (context_of scope.now.scope sources) (said_in said) at
        (meaning source (literals.new ++ more) found.0.now) found.1 found.2) }
    ensures fault { IfErr result (λ fault. (said : List Placed) (sources : ℕ → ℕ → Bool)
        → AreTokensOf spec.now tokens.now said → IsExprFault (vocabulary_of scope.now)
        (context_of scope.now.scope sources) (said_in said) at fault) }
    ensures grew { Grew literals.old literals.new }
    ensures few { (said : List Placed) → AreTokensOf spec.now tokens.now said
        → length literals.new ≤ length literals.old + token_bytes (drop at said) }
    ensures few_read { IfOk result (λ found. (said : List Placed)
        → AreTokensOf spec.now tokens.now said
        → length literals.new ≤ length literals.old + bytes_between said at found.2) }
    ensures few_told { IfErr result (λ fault. (said : List Placed)
        → AreTokensOf spec.now tokens.now said
        → length literals.new ≤ length literals.old + bytes_told said at fault) }
    ensures further { IfOk result (λ found. at < found.2) }
    ensures units { IfOk result (λ found. (source more : List ℕ)
        → units_of (meaning source (literals.new ++ more) found.0.now) ≤ found.2 - at) }
{
    let texts = Bump::new(alloc);
    let Some((written, next)) = written_at(alloc, &texts, spec, tokens, at)? else {
        return Err(ExprFault::Bad {
            kind: Kind::Syntax,
            next: at,
        });
    };
    let types = types_of(alloc, scope.scope.makers)?;
    let words = words_of(scope, types.as_slice());
    if has_unknown(&written, &words) {
        return Err(ExprFault::Bad {
            kind: Kind::Unknown,
            next,
        });
    }
    let Some((e, ty)) = meant_in(arena, &written, &words, &scope.scope, literals)? else {
        return Err(ExprFault::Bad {
            kind: Kind::Typing,
            next,
        });
    };
    Ok((kept_in(arena, e)?, ty, next))
}

/// The type of each maker.
fn types_of(alloc: Global, makers: &[Maker]) -> Result<Vec<u32>, NoMemory>
    ensures { IfOk result (λ types. types.items ≡ map (λ m. m.ty) makers.now) }
{
    let mut types = Vec::new(alloc);
    for maker in makers {
        types.push(maker.ty)?;
    }
    Ok(types)
}

/// What an expression may name in the scope.
fn words_of<'s>(scope: &NameScope<'s>, types: &'s [u32]) -> Vocabulary<'s>
    requires names { length scope.now.names.now
        ≡ length scope.now.scope.vars.now + length scope.now.scope.makers.now }
    requires types { types.now ≡ map (λ m. m.ty) scope.now.scope.makers.now }
    ensures { result ≡ vocabulary_of scope.now }
{
    let names = scope.names;
    let count = scope.scope.vars.len();
    Vocabulary {
        variables: &names[..count],
        makers: &names[count..],
        types,
        dotted: scope.dotted,
    }
}

/// The expression in the arena.
fn kept_in<'a>(arena: &'a Bump<Global>, e: Expr<'a>) -> Result<&'a Expr<'a>, NoMemory>
    ensures { IfOk result (λ kept. kept.now ≡ e.entry) }
{
    let kept: &Expr<'a> = arena.try_alloc(e)?;
    Ok(kept)
}
