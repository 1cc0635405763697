// What each grammar rule builds, by its own line or by default.
ghost use Rattle.std.specs.Prelude.{◌≡◌, ◌+◌, ◌<◌, ◌≤◌, ◌^◌, ◌++◌, ℕ, List, All, length, map, set, unwrap_or, IfOk, Some, slice_get, slice_index};
ghost use Rattle.cfg_model.specs.Cfg.{IsGrammar, Rule};
ghost use Rattle.ck_base.specs.Numbered.{AreApart};
ghost use Rattle.ck_base.specs.declared.fault.Kind.TheVariants.{Typing as typing, Unknown as unknown};
ghost use Rattle.expr_lang.specs.Expression.{Expression, var};
ghost use Rattle.expr_lang.specs.Meaning.{meaning};
ghost use Rattle.section_frame.specs.Declares.{Grow};
ghost use Rattle.node_spec.specs.AstBuilds.{builds_from, default_build, nodes_by, only_nonterminal as the_only, rule_builds};
ghost use Rattle.node_spec.specs.AstFaults.{AstHeadFault, labels_in};
ghost use Rattle.value_store.specs.Texts.{Grew};
ghost use Rattle.node_spec.specs.AstTables.{families_by, table_by};
ghost use Rattle.node_spec.specs.Strings.{declared_bytes, saying_bytes};
ghost use Rattle.node_spec.specs.within.AstBuildSteps.{AreBuildWords, Puts};
ghost use Rattle.node_spec.specs.within.AstBuilt.{IsBuilds};
ghost use Rattle.node_spec.specs.within.AstSeen.{declared_by, saying_seen};

use crate::ast_line::Saying;
use crate::build::{BuildWords, built};
use crate::dollar_names::dollar_names;
use crate::only_nonterminal::only_nonterminal;
use ast_types::Types;
use bumpalo::Bump;
use cfg_model::{GrammarRule, NamedGrammar};
use ck_base::NoMemory;
use expr_lang::Expr;
use node_model::makers_of;
use section_frame::Numbered;
use std::alloc::Global;
use value_store::Literals;

/// What the rules build, or why they don't.
#[derive(Drop)]
pub(crate) enum Found<'a> {
    /// An expression for each rule.
    Builds(Vec<&'a Expr<'a>>),
    /// The first BUILD line whose expression builds no node of its left side's family.
    Wrong(u32),
}

/// What each rule of the grammar builds: what its BUILD line says, else the value of its one
/// nonterminal; or the first line whose expression builds no node of its left side's family.
pub(crate) fn builds_of<'a>(
    alloc: Global,
    arena: &'a Bump<Global>,
    g: &NamedGrammar,
    list: &[Numbered<Saying<'_>>],
    types: &Types,
    node_families: &[u32],
    literals: &mut Literals,
) -> Result<Found<'a>, NoMemory>
    requires few { length list.now + 1 < 2 ^ 32 }
    requires grow { Grow (map declared_by list.now) }
    requires grammar { IsGrammar g.now.grammar }
    requires labels { length g.now.labels ≡ length g.now.grammar.rules }
    requires nonterminals { length g.now.nonterminals ≡ g.now.grammar.nonterminals }
    requires apart { AreApart (labels_in (map declared_by list.now)) }
    requires types { types.now ≡ table_by (map declared_by list.now) }
    requires families { node_families.now
        ≡ families_by (map declared_by list.now) g.now.nonterminals }
    requires there { AstHeadFault g.now (map declared_by list.now) unknown → ⊥ }
    requires same { AstHeadFault g.now (map declared_by list.now) typing → ⊥ }
    ensures builds { IfOk result (λ found. (source more : List ℕ)
        → IsBuilds source (literals.new ++ more) g.now (map declared_by list.now) found) }
    ensures grew { Grew literals.old literals.new }
    ensures few { length literals.new ≤ length literals.old
        + declared_bytes (map declared_by list.now) }
{
    let sources = makers_of(alloc, types, false)?;
    let rules = g.grammar.rules.as_slice();
    let longest = longest_right(rules)?;
    let dollars = dollar_names(alloc, longest)?;
    let words = BuildWords {
        types,
        families: node_families,
        dollars: dollars.as_slice(),
        sources: &sources,
    };
    g.labels.are_apart();
    let mut builds = default_builds(alloc, arena, rules)?;
    for line in list {
        if !put_build(alloc, arena, g, &words, &line.says, &mut builds, literals)? {
            return Ok(Found::Wrong(line.number));
        }
    }
    Ok(Found::Builds(builds))
}

/// Puts what a BUILD line builds at the place of its rule; false where that is no node of the
/// family of the rule's left side.
fn put_build<'a>(
    alloc: Global,
    arena: &'a Bump<Global>,
    g: &NamedGrammar,
    words: &BuildWords<'_>,
    says: &Saying<'_>,
    builds: &mut Vec<&'a Expr<'a>>,
    literals: &mut Literals,
) -> Result<bool, NoMemory>
    requires words { AreBuildWords words.now }
    requires fits { All (λ rule. length rule.right ≤ length words.now.dollars.now)
        g.now.grammar.rules }
    requires labels { length g.now.labels ≡ length g.now.grammar.rules }
    requires each { length builds.old.items ≡ length g.now.grammar.rules }
    ensures puts { IfOk result (λ good. (source more : List ℕ)
        → Puts g.now words.now.types.now words.now.families.now (saying_seen says.now)
        (map (λ e. meaning source (literals.new ++ more) e.now) builds.old.items)
        (map (λ e. meaning source (literals.new ++ more) e.now) builds.new.items) good) }
    ensures grew { Grew literals.old literals.new }
    ensures few { length literals.new ≤ length literals.old
        + saying_bytes (saying_seen says.now) }
{
    let Saying::Build(label, e) = says else {
        return Ok(true);
    };
    let Some(n) = g.labels.find(label) else {
        return Ok(true);
    };
    let rule = &g.grammar.rules[n as usize];
    let Some(x) = built(alloc, arena, rule, words, e, literals)? else {
        return Ok(false);
    };
    put(builds, n as usize, x);
    Ok(true)
}

/// Puts the expression at the place.
fn put<'a>(builds: &mut Vec<&'a Expr<'a>>, n: usize, x: &'a Expr<'a>)
    requires { n < length builds.old.items }
    ensures { builds.new.items ≡ set builds.old.items n x.entry }
{
    builds[n] = x;
}

/// For each rule the value of its one nonterminal; where it has none, or more than one, that of its
/// first symbol, which stays in no section without a fault.
fn default_builds<'a>(
    alloc: Global,
    arena: &'a Bump<Global>,
    rules: &[GrammarRule],
) -> Result<Vec<&'a Expr<'a>>, NoMemory>
    requires { All (λ rule. length rule.right < 2 ^ 32) rules.now }
    ensures { IfOk result (λ builds. (source literals : List ℕ)
        → map (λ e. meaning source literals e.now) builds.items
        ≡ map (λ rule. unwrap_or (default_build (the_only rule.right)) (var 0)) rules.now) }
{
    let mut builds = Vec::new(alloc);
    for rule in rules {
        let i = only_nonterminal(rule.right.as_slice()).unwrap_or(0);
        let value: &Expr<'a> = arena.try_alloc(Expr::Var(i))?;
        builds.push(value)?;
    }
    Ok(builds)
}

/// How many symbols the longest right side has. Where they are too many to be numbered, want of
/// memory is answered.
fn longest_right(rules: &[GrammarRule]) -> Result<u32, NoMemory>
    ensures { IfOk result (λ n. All (λ rule. length rule.right ≤ n) rules.now) }
{
    let mut longest = 0;
    for rule in rules {
        longest = longest.max(rule.right.len());
    }
    if longest > 4_294_967_295 {
        return Err(NoMemory);
    }
    Ok(longest as u32)
}
