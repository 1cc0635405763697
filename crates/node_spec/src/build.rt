// A BUILD line's expression given its meaning and type.
ghost use Rattle.std.specs.Prelude.{◌≡◌, ◌+◌, ◌≤◌, ◌++◌, ◌↔◌, ℕ, IsTrue, List, length, map, IfOk, MatchOption, slice_index};
ghost use Rattle.expr_lang.specs.Expression.{Expression};
ghost use Rattle.expr_lang.specs.Meaning.{meaning};
ghost use Rattle.node_spec.specs.AstBuilds.{build_words};
ghost use Rattle.value_store.specs.Texts.{Grew};
ghost use Rattle.node_model.specs.Nodes.{build_context, symbol_type as type_of_symbol};
ghost use Rattle.expr_read.specs.Resolving.{Means, MeansNothing};
ghost use Rattle.expr_read.specs.Strings.{string_bytes};
ghost use Rattle.node_spec.specs.within.AstBuildSteps.{AreBuildWords, IsBuilt};
ghost use Rattle.expr_read.specs.Writing.{spoken_of};
ghost use Rattle.value_store.specs.declared.value.ValType.TheVariants as ty;

use ast_types::Types;
use bumpalo::Bump;
use cfg_model::{GrammarRule, Sym};
use ck_base::NoMemory;
use expr_lang::{Expr, Scope};
use expr_read::{Vocabulary, Written, meant_in};
use node_model::TypeMakers;
use std::alloc::Global;
use value_store::{Literals, Name, ValType};

/// What the expressions of BUILD lines may name, and the family of each nonterminal.
#[derive(Clone, Copy)]
pub(crate) struct BuildWords<'w> {
    pub types: &'w Types,
    pub families: &'w [u32],
    /// The names `$1`, `$2`, .., as many as the longest right side has symbols, or more.
    pub dollars: &'w [Name],
    pub sources: &'w TypeMakers,
}

/// What the expression builds of the symbols of the rule; `None` where that is no node of the
/// family of its left side.
pub(crate) fn built<'a>(
    alloc: Global,
    arena: &'a Bump<Global>,
    rule: &GrammarRule,
    words: &BuildWords<'_>,
    e: &Written<'_>,
    literals: &mut Literals,
) -> Result<Option<&'a Expr<'a>>, NoMemory>
    requires words { AreBuildWords words.now }
    requires fits { length rule.now.right ≤ length words.now.dollars.now }
    ensures built { IfOk result (λ found. (source more : List ℕ) → MatchOption found
        ((x : Expression) → IsBuilt words.now.types.now words.now.families.now rule.now
        (spoken_of e.now) x → ⊥)
        (λ x. IsBuilt words.now.types.now words.now.families.now rule.now (spoken_of e.now)
        (meaning source (literals.new ++ more) x.now))) }
    ensures grew { Grew literals.old literals.new }
    ensures few { length literals.new ≤ length literals.old
        + string_bytes (spoken_of e.now) }
{
    let right = rule.right.as_slice();
    let Some((x, of)) = meant_over(alloc, arena, right, words, e, literals)? else {
        return Ok(None);
    };
    if !is_node_of(of, family_at(words.families, rule.left)) {
        return Ok(None);
    }
    let kept: &Expr<'a> = arena.try_alloc(x)?;
    Ok(Some(kept))
}

/// Whether the type is that of the family's nodes.
fn is_node_of(of: ValType, family: u32) -> bool
    ensures { IsTrue result ↔ (of ≡ ty.Node family) }
{
    match of {
        ValType::Node(f) => f == family,
        _ => false,
    }
}

/// What the expression means over the symbols, and its type.
fn meant_over<'a>(
    alloc: Global,
    arena: &'a Bump<Global>,
    right: &[Sym],
    words: &BuildWords<'_>,
    e: &Written<'_>,
    literals: &mut Literals,
) -> Result<Option<(Expr<'a>, ValType)>, NoMemory>
    requires words { AreBuildWords words.now }
    requires fits { length right.now ≤ length words.now.dollars.now }
    ensures means { IfOk result (λ found. (source more : List ℕ) → MatchOption found
        (MeansNothing (build_words words.now.types.now (length right.now))
        (build_context words.now.families.now words.now.sources.now.makers.items right.now)
        (spoken_of e.now))
        (λ pair. Means (build_words words.now.types.now (length right.now))
        (build_context words.now.families.now words.now.sources.now.makers.items right.now)
        (spoken_of e.now) (meaning source (literals.new ++ more) pair.0) pair.1)) }
    ensures grew { Grew literals.old literals.new }
    ensures few { length literals.new ≤ length literals.old
        + string_bytes (spoken_of e.now) }
{
    let sources = words.sources;
    let vars = symbol_types(alloc, words.families, right)?;
    let dollars = &words.dollars[..right.len()];
    let vocabulary = Vocabulary {
        variables: dollars,
        makers: sources.names.as_slice(),
        types: sources.types.as_slice(),
        dotted: &[],
    };
    let scope = Scope {
        vars: vars.as_slice(),
        makers: sources.makers.as_slice(),
    };
    meant_in(arena, e, &vocabulary, &scope, literals)
}

/// What the symbols are: tokens, or nodes of their families.
fn symbol_types(alloc: Global, families: &[u32], right: &[Sym]) -> Result<Vec<ValType>, NoMemory>
    ensures { IfOk result (λ types. types.items ≡ map (type_of_symbol families.now) right.now) }
{
    let mut types = Vec::new(alloc);
    for symbol in right {
        types.push(symbol_type(families, *symbol))?;
    }
    Ok(types)
}

/// What the symbol is: a token, or a node of its family.
fn symbol_type(families: &[u32], symbol: Sym) -> ValType
    ensures { result ≡ type_of_symbol families.now symbol }
{
    match symbol {
        Sym::T(_) => ValType::Token,
        Sym::N(n) => ValType::Node(family_at(families, n)),
    }
}

/// The family of the nonterminal; 0 where there is no such nonterminal.
fn family_at(families: &[u32], n: u32) -> u32
    ensures { result ≡ slice_index families.now n }
{
    families.get(n as usize).copied().unwrap_or(0)
}
