// The tree of a source, and its text.
ghost use Rattle.std.specs.Prelude.{◌≡◌, ◌+◌, ◌^◌, ◌<◌, [], Some, length, IfSome, MatchResult};
ghost use Rattle.rex_model.specs.RuleMeaning.{rules_of};
ghost use Rattle.node_model.specs.Nodes.{nodes_of};
ghost use Rattle.ck_chain.specs.Promise.{AreTools, Refuses, answer_in};
ghost use Rattle.ck_chain.specs.Treeing.{HasNoValue, Treeing};
ghost use Rattle.ck_chain.specs.within.Trees.{IsTreeOfSource};

use crate::derivation::derivation;
use crate::refused::Refused;
use crate::toolset::Toolset;
use cfg_model::NamedGrammar;
use ck_base::Refusal;
use node_model::NodeSpec;
use std::alloc::Global;
use tree_build::{BuildError, build};
use tree_lines::push_tree;
use tree_store::Tree;
use value_store::{Cells, Texts};

/// The printed tree of the source's tokens by the tools' grammar and nodes, or the first refusal.
pub(crate) fn printed_tree(
    alloc: Global,
    tools: &Toolset<'_>,
    g: &NamedGrammar,
    nodes: &NodeSpec<'_>,
    source: &[u8],
) -> Result<Vec<u8>, Refused>
    requires tools { AreTools tools.now }
    requires grammar { tools.now.grammar ≡ Some g.now }
    requires nodes { tools.now.nodes ≡ Some nodes.now }
    requires small { length source.now + 1 < 2 ^ 32 }
    ensures { IfSome (answer_in result) (Treeing (rules_of tools.now.rules) g.now
        (nodes_of [] tools.now.literals nodes.now) source.now) }
{
    let tree = source_tree(alloc, tools, g, nodes, source)?;
    let texts = Texts {
        source,
        literals: tools.literals.bytes(),
    };
    let mut out = Vec::new(alloc);
    push_tree(alloc, &mut out, &nodes.types, &tree, &texts)?;
    Ok(out)
}

/// The tree that shows the value of the source, or the first refusal.
pub(crate) fn source_tree(
    alloc: Global,
    tools: &Toolset<'_>,
    g: &NamedGrammar,
    nodes: &NodeSpec<'_>,
    source: &[u8],
) -> Result<Tree, Refused>
    requires tools { AreTools tools.now }
    requires grammar { tools.now.grammar ≡ Some g.now }
    requires nodes { tools.now.nodes ≡ Some nodes.now }
    requires small { length source.now + 1 < 2 ^ 32 }
    ensures { let these = nodes_of [] tools.now.literals nodes.now in MatchResult result
        (λ tree. IsTreeOfSource (rules_of tools.now.rules) g.now these source.now tools.now.literals tree)
        (Refuses (HasNoValue (rules_of tools.now.rules) g.now these source.now)) }
{
    let steps = derivation(alloc, &tools.rules, &tools.scan, g, &tools.parser, source)?;
    let texts = Texts {
        source,
        literals: tools.literals.bytes(),
    };
    let mut cells = Cells::new(alloc);
    match build(
        alloc,
        nodes,
        &g.grammar,
        steps.as_slice(),
        &texts,
        &mut cells,
    ) {
        Ok(tree) => Ok(tree),
        Err(BuildError::TooLarge) => Err(Refused::Refusal(Refusal::SourceTooLarge)),
        Err(BuildError::NoMemory) => Err(Refused::NoMemory),
    }
}
