// The section AST read: its types and what rules build, or its first fault.
ghost use Rattle.std.specs.Prelude.{◌≡◌, ◌+◌, ◌≤◌, ◌++◌, ℕ, List, length, IfOk, IfErr};
ghost use Rattle.cfg_model.specs.Cfg.{IsGrammar};
ghost use Rattle.spec_text.specs.Promise.{AreSectionsOf, HasSection, IsSectionOf};
ghost use Rattle.spec_text.specs.Sections.{SectionLines};
ghost use Rattle.spec_text.specs.Sizes.{line_bytes};
ghost use Rattle.spec_text.specs.declared.section.Section.TheVariants.{Ast};
ghost use Rattle.node_spec.specs.AstPromise.{DeclaresNodes, IsAstFault};
ghost use Rattle.value_store.specs.Texts.{Grew};
ghost use Rattle.node_model.specs.Nodes.{FitGrammar, nodes_of};

use crate::ast_names::declared_names;
use crate::ast_nodes::declared_nodes;
use crate::line_shapes::AstLines;
use bumpalo::Bump;
use cfg_model::NamedGrammar;
use ck_base::SpecFault;
use node_model::NodeSpec;
use section_frame::declared_lines;
use spec_text::{Section, SectionText, Sections, section_of};
use std::alloc::Global;
use value_store::Literals;

/// What the section AST declares for the grammar, or its first fault: the first line without a
/// shape; else the first line of kind twice, then unknown, then type, then limit. Of kind unknown
/// and type the line of the section's head may be at fault too, which is then the first. `s` is
/// what `sections` gives of `spec`, which has such a section, and `g` is a grammar in its ranges.
/// The strings of expressions are put into the literals, also where there is a fault; they have no
/// more bytes than the tokens of the section.
pub fn read_ast<'a>(
    alloc: Global,
    arena: &'a Bump<Global>,
    spec: &[u8],
    s: &Sections,
    g: &NamedGrammar,
    literals: &mut Literals,
) -> Result<NodeSpec<'a>, SpecFault>
    requires size { length spec.now ≤ 1048576 }
    requires read { AreSectionsOf spec.now s.now }
    requires some { (lines : SectionLines) × HasSection spec.now Ast lines }
    requires grammar { IsGrammar g.now.grammar }
    requires labels { length g.now.labels ≡ length g.now.grammar.rules }
    requires nonterminals { length g.now.nonterminals ≡ g.now.grammar.nonterminals }

    // Whatever is put behind the literals, and whatever the source is.
    ensures nodes { IfOk result (λ nodes. (source more : List ℕ)
        → DeclaresNodes spec.now g.now (nodes_of source (literals.new ++ more) nodes)) }
    ensures fits { IfOk result (λ nodes. (source more : List ℕ)
        → FitGrammar g.now.grammar (nodes_of source (literals.new ++ more) nodes)) }
    ensures fault { IfErr result (IsAstFault spec.now g.now) }
    ensures grew { Grew literals.old literals.new }
    ensures few { (lines : SectionLines) → HasSection spec.now Ast lines
        → length literals.new ≤ length literals.old + line_bytes lines.inside }
    ensures within { length literals.new ≤ length literals.old + length spec.now }
{
    let section = ast_of(s);
    let texts = Bump::new(alloc);
    let list = declared_lines(alloc, &texts, spec, section.lines, &AstLines)?;
    let list = list.as_slice();
    let names = declared_names(alloc, g, section.head, list)?;
    let nodes = declared_nodes(alloc, arena, g, section.head, list, &names, literals)?;
    Ok(nodes)
}

/// The section AST, which is there.
fn ast_of(s: &Sections) -> SectionText<'_>
    requires { (file : List ℕ) × (lines : SectionLines) × AreSectionsOf file s.now
        × HasSection file Ast lines }
    ensures { (file : List ℕ) → AreSectionsOf file s.now → IsSectionOf file Ast result }
{
    section_of(s, Section::Ast).unwrap()
}
