// The declarations of a section AST given their meaning.
ghost use Rattle.std.specs.Prelude.{◌≡◌, ◌≤◌, ◌+◌, ◌<◌, ◌^◌, ◌++◌, ℕ, List, length, map, IfOk, IfErr};
ghost use Rattle.cfg_model.specs.Cfg.{IsGrammar};
ghost use Rattle.ck_base.specs.Numbered.{AreApart};
ghost use Rattle.ck_base.specs.declared.fault.Kind.TheVariants.{Twice as twice, Typing as typing, Unknown as unknown};
ghost use Rattle.expr_lang.specs.Meaning.{meaning};
ghost use Rattle.section_frame.specs.Declares.{DeclareAll, Grow};
ghost use Rattle.section_frame.specs.FirstFault.{Accepts};
ghost use Rattle.spec_text.specs.Sections.{SectionLines};
ghost use Rattle.node_spec.specs.AstBuilds.{builds_from, nodes_by};
ghost use Rattle.node_spec.specs.AstFaults.{ast, labels_in};
ghost use Rattle.node_spec.specs.AstPromise.{judged_ast};
ghost use Rattle.value_store.specs.Texts.{Grew};
ghost use Rattle.node_spec.specs.AstTables.{families_by, rows_in, table_by};
ghost use Rattle.node_model.specs.Nodes.{nodes_of};
ghost use Rattle.node_spec.specs.Strings.{declared_bytes};
ghost use Rattle.node_spec.specs.within.AstBuilt.{AllBuild};
ghost use Rattle.node_spec.specs.within.AstSeen.{declared_by, row_seen};
ghost use Rattle.node_spec.specs.within.AstSteps.{AreFamilies, HasIn, HasNone, IsBefore, IsFirstOf};
ghost use Rattle.node_spec.specs.within.AstStages.{IsLeastTyping, earlier_or};

use crate::ast_line::Saying;
use crate::ast_names::AstNames;
use crate::builds::{Found, builds_of};
use crate::families::node_families;
use crate::limits::first_past_limit;
use crate::table::table_of;
use crate::wrong_sides::{first_of_wrong_side, joins_families};
use ast_types::Types;
use bumpalo::Bump;
use cfg_model::NamedGrammar;
use ck_base::{Kind, SpecFault};
use expr_lang::Expr;
use node_model::NodeSpec;
use section_frame::Numbered;
use std::alloc::Global;
use value_store::Literals;

/// What the lines declare for the grammar, where no name is twice or unknown; or the first fault
/// of kind type, else that of kind limit.
pub(crate) fn declared_nodes<'a>(
    alloc: Global,
    arena: &'a Bump<Global>,
    g: &NamedGrammar,
    head: u32,
    list: &[Numbered<Saying<'_>>],
    names: &AstNames<'_>,
    literals: &mut Literals,
) -> Result<NodeSpec<'a>, SpecFault>
    requires few { length list.now + 1 < 2 ^ 32 }
    requires grow { Grow (map declared_by list.now) }
    requires before { IsBefore head (map declared_by list.now) }
    requires grammar { IsGrammar g.now.grammar }
    requires labels { length g.now.labels ≡ length g.now.grammar.rules }
    requires nonterminals { length g.now.nonterminals ≡ g.now.grammar.nonterminals }
    requires rows { map row_seen names.now.rows.items ≡ rows_in (map declared_by list.now) }
    requires families { AreFamilies (map declared_by list.now) names.now.families }
    requires apart { AreApart (labels_in (map declared_by list.now)) }
    requires twice { HasNone g.now (map declared_by list.now) twice }
    requires unknown { (line : ℕ)
        → HasIn g.now head (map declared_by list.now) unknown line → ⊥ }
    ensures nodes { IfOk result (λ nodes. (source more : List ℕ)
        → nodes_of source (literals.new ++ more) nodes
        ≡ nodes_by g.now (map declared_by list.now)) }
    ensures all { IfOk result (λ nodes. AllBuild g.now (map declared_by list.now)) }
    ensures accepted { IfOk result (λ nodes. (these : SectionLines) → head ≡ these.head
        → DeclareAll (ast g.now).Shape these.inside (map declared_by list.now)
        → Accepts (judged_ast g.now these) (map declared_by list.now)) }
    ensures fault { IfErr result (λ fault. (these : SectionLines) → head ≡ these.head
        → DeclareAll (ast g.now).Shape these.inside (map declared_by list.now)
        → IsFirstOf g.now these fault) }
    ensures grew { Grew literals.old literals.new }
    ensures few { length literals.new ≤ length literals.old
        + declared_bytes (map declared_by list.now) }
{
    let rows = names.rows.as_slice();
    let types = table_of(alloc, list, &names.families, rows)?;
    let nodes = node_families(alloc, g, &names.families, list)?;
    let builds = typed_builds(
        alloc,
        arena,
        g,
        head,
        list,
        names,
        &types,
        nodes.as_slice(),
        literals,
    )?;
    if let Some(line) = first_past_limit(list, rows) {
        return Err(SpecFault::Bad {
            line,
            kind: Kind::Limit,
        });
    }
    Ok(NodeSpec {
        types,
        nodes,
        builds,
    })
}

/// What the rules build, or the first fault of kind type: at the head's line where a rule joins
/// two families, else the first line with a part of the wrong side or an expression that builds no
/// node of its rule's family.
fn typed_builds<'a>(
    alloc: Global,
    arena: &'a Bump<Global>,
    g: &NamedGrammar,
    head: u32,
    list: &[Numbered<Saying<'_>>],
    names: &AstNames<'_>,
    types: &Types,
    nodes: &[u32],
    literals: &mut Literals,
) -> Result<Vec<&'a Expr<'a>>, SpecFault>
    requires few { length list.now + 1 < 2 ^ 32 }
    requires grow { Grow (map declared_by list.now) }
    requires before { IsBefore head (map declared_by list.now) }
    requires grammar { IsGrammar g.now.grammar }
    requires labels { length g.now.labels ≡ length g.now.grammar.rules }
    requires nonterminals { length g.now.nonterminals ≡ g.now.grammar.nonterminals }
    requires rows { map row_seen names.now.rows.items ≡ rows_in (map declared_by list.now) }
    requires families { AreFamilies (map declared_by list.now) names.now.families }
    requires apart { AreApart (labels_in (map declared_by list.now)) }
    requires twice { HasNone g.now (map declared_by list.now) twice }
    requires unknown { (line : ℕ)
        → HasIn g.now head (map declared_by list.now) unknown line → ⊥ }
    requires types { types.now ≡ table_by (map declared_by list.now) }
    requires nodes { nodes.now ≡ families_by (map declared_by list.now) g.now.nonterminals }
    ensures builds { IfOk result (λ builds. (source more : List ℕ)
        → map (λ e. meaning source (literals.new ++ more) e.now) builds.items
        ≡ builds_from (map declared_by list.now) g.now.labels g.now.grammar.rules) }
    ensures all { IfOk result (λ builds. AllBuild g.now (map declared_by list.now)) }
    ensures none { IfOk result (λ builds. (line : ℕ)
        → HasIn g.now head (map declared_by list.now) typing line → ⊥) }
    ensures fault { IfErr result (IsLeastTyping g.now head (map declared_by list.now)) }
    ensures grew { Grew literals.old literals.new }
    ensures few { length literals.new ≤ length literals.old
        + declared_bytes (map declared_by list.now) }
{
    if joins_families(alloc, g, list, nodes)? {
        return Err(SpecFault::Bad {
            line: head,
            kind: Kind::Typing,
        });
    }
    let wrong = first_of_wrong_side(list, &names.families, names.rows.as_slice());
    match builds_of(alloc, arena, g, list, types, nodes, literals)? {
        Found::Wrong(line) => Err(SpecFault::Bad {
            line: earlier_or(wrong, line),
            kind: Kind::Typing,
        }),
        Found::Builds(builds) => match wrong {
            Some(line) => Err(SpecFault::Bad {
                line,
                kind: Kind::Typing,
            }),
            None => Ok(builds),
        },
    }
}

/// The earlier of two lines, of which the first may be missing.
fn earlier_or(wrong: Option<u32>, line: u32) -> u32
    ensures { result ≡ earlier_or wrong line }
{
    match wrong {
        Some(other) => other.min(line),
        None => line,
    }
}
