// The tree's root cell, built step by step from a derivation.
ghost use Rattle.std.specs.Prelude.{◌≡◌, ℕ, ◌+◌, ◌-◌, ◌^◌, ◌<◌, ◌≤◌, List, [], ◌∷◌, All, length, map, slice_get, Some, IfOk};
ghost use Rattle.value_store.specs.Cells.{cells_of, tree_at, IsMade};
ghost use Rattle.value_store.specs.declared.value.Value.{Value};
ghost use Rattle.value_store.specs.declared.value.Value.TheVariants as value;
ghost use Rattle.cfg_model.specs.Derivation as Derivation;
ghost use Rattle.cfg_model.specs.Derivation.{Forest, Move};
ghost use Rattle.expr_lang.specs.Evaluated.{KeepsCells};
ghost use Rattle.expr_lang.specs.Meaning.{meaning, tokens_in};
ghost use Rattle.expr_lang.specs.PureOf.{pure_tree};
ghost use Rattle.node_model.specs.Nodes.{FitGrammar, nodes_of};
ghost use Rattle.parse_driver.specs.Parse.{move_of};
ghost use Rattle.parse_driver.specs.declared.tokens.TokenRef.{TokenRef};
ghost use Rattle.tree_build.specs.Built.{built_value, tokens_in_source, LiesInSource, IsReading, IsBuilt};
ghost use Rattle.tree_build.specs.within.Replaying.{Replaying};

use crate::error::BuildError;
use crate::laying::lay_out;
use crate::token_list::TokenList;
use cfg_model::{Grammar, GrammarRule};
use expr_lang::{Expr, eval};
use node_model::NodeSpec;
use parse_driver::Step;
use std::alloc::Global;
use tree_store::Tree;
use value_store::{Cells, NoMemory, Texts, Value};

/// The source tree of a derivation, from its steps: what the expression of the last rule builds,
/// over what those of the rules below it build. Tokens are numbered from 0. After an error the
/// store may have more cells.
pub fn build(
    alloc: Global,
    spec: &NodeSpec,
    g: &Grammar,
    steps: &[Step],
    texts: &Texts,
    cells: &mut Cells,
) -> Result<Tree, BuildError>
    requires read { (tokens : List TokenRef) × (forest : Forest TokenRef)
        × IsReading g.now steps.now tokens forest }
    requires inside { All (LiesInSource texts.now.source.now) steps.now }
    requires fit { FitGrammar g.now
        (nodes_of texts.now.source.now texts.now.literals.now spec.now) }
    requires few { length texts.now.source.now + 1 < 2 ^ 32 }
    ensures builds { (tokens : List TokenRef) (forest : Forest TokenRef)
        → IsReading g.now steps.now tokens forest
        → let nodes = nodes_of texts.now.source.now texts.now.literals.now spec.now in
        IsBuilt texts.now.source.now texts.now.literals.now nodes
        (built_value nodes (tokens_in_source texts.now.source.now tokens) forest) result }
    ensures kept { KeepsCells cells.old cells.new }
{
    if steps.len() >= u32::MAX as usize {
        // There may be more tokens than numbers for them.
        return Err(BuildError::NoMemory);
    }
    let tokens = TokenList::of(alloc, texts.source, steps)?;
    let root = replay(alloc, spec, g, steps, texts, cells, &tokens)?;
    lay_out(alloc, &spec.types, cells, root)
}

/// Replays the steps on a list of values, and gives the cell of the one that is left.
fn replay(
    alloc: Global,
    spec: &NodeSpec,
    g: &Grammar,
    steps: &[Step],
    texts: &Texts,
    cells: &mut Cells,
    tokens: &TokenList,
) -> Result<u64, NoMemory>
    requires read { (tokens : List TokenRef) × (forest : Forest TokenRef)
        × IsReading g.now steps.now tokens forest }
    requires fit { FitGrammar g.now
        (nodes_of texts.now.source.now texts.now.literals.now spec.now) }
    requires few { length steps.now < 2 ^ 32 }
    ensures built { IfOk result (λ root. (found : List TokenRef) (forest : Forest TokenRef)
        → IsReading g.now steps.now found forest
        → let nodes = nodes_of texts.now.source.now texts.now.literals.now spec.now in
        IsMade (cells_of cells.new.units) root
        × (pure_tree texts.now.source.now texts.now.literals.now
        (tree_at (cells_of cells.new.units) root) ≡ built_value nodes
        (tokens_in texts.now tokens.now.spans.items tokens.now.places.items) forest)) }
    ensures kept { KeepsCells cells.old cells.new }
{
    let mut values = Vec::new(alloc);
    let mut shifted: u32 = 0;
    for step in steps {
        match step {
            Step::Shift(_) => {
                values.push(Value::Token(shifted))?;
                shifted += 1;
            }
            Step::Reduce(rule) => reduce(spec, g, *rule, texts, cells, tokens, &mut values)?,
        }
    }
    Ok(last_cell(values.as_slice()))
}

/// Puts the value of the rule's expression in the place of the values of its symbols, which are the
/// last ones.
fn reduce(
    spec: &NodeSpec,
    g: &Grammar,
    rule: u32,
    texts: &Texts,
    cells: &mut Cells,
    tokens: &TokenList,
    values: &mut Vec<Value>,
) -> Result<(), NoMemory>
    requires fit { FitGrammar g.now
        (nodes_of texts.now.source.now texts.now.literals.now spec.now) }
    requires some { (forest : Forest TokenRef) × (moves : List (Move TokenRef)) × (shifted : ℕ)
        × Replaying texts.now.source.now texts.now.literals.now g.now
        (nodes_of texts.now.source.now texts.now.literals.now spec.now)
        (tokens_in texts.now tokens.now.spans.items tokens.now.places.items)
        (cells_of cells.old.units) forest (Derivation.reduce rule ∷ moves)
        values.old.items shifted }
    ensures reduced { IfOk result (λ _.
        (forest : Forest TokenRef) (moves : List (Move TokenRef)) (shifted : ℕ)
        → Replaying texts.now.source.now texts.now.literals.now g.now
        (nodes_of texts.now.source.now texts.now.literals.now spec.now)
        (tokens_in texts.now tokens.now.spans.items tokens.now.places.items)
        (cells_of cells.old.units) forest (Derivation.reduce rule ∷ moves)
        values.old.items shifted
        → Replaying texts.now.source.now texts.now.literals.now g.now
        (nodes_of texts.now.source.now texts.now.literals.now spec.now)
        (tokens_in texts.now tokens.now.spans.items tokens.now.places.items)
        (cells_of cells.new.units) forest moves values.new.items shifted) }
    ensures kept { KeepsCells cells.old cells.new }
{
    let place = (rule - 1) as usize;
    let below = values.len() - right_len(g, rule);
    let e = expression(spec.builds.as_slice(), place);
    let env = &values.as_slice()[below..];
    let value = eval(
        e,
        env,
        texts,
        cells,
        tokens.spans.as_slice(),
        tokens.places.as_slice(),
    )?;
    values.truncate(below);
    values.push(value)?;
    Ok(())
}

/// How many symbols the right side of the rule has; rules count from 1.
fn right_len(g: &Grammar, rule: u32) -> usize
    requires some { 0 < rule }
    requires within { rule ≤ length g.now.rules }
    ensures { (it : _) → slice_get g.now.rules (rule - 1) ≡ Some it → result ≡ length it.right }
{
    let it = g.rule(rule - 1);
    it.right.len()
}

/// The expression at a place.
fn expression<'a>(builds: &[&'a Expr<'a>], place: usize) -> &'a Expr<'a>
    requires { place < length builds.now }
    ensures { (source literals : List ℕ) → slice_get
        (map (λ e. meaning source literals e.now) builds.now) place
        ≡ Some (meaning source literals result.now) }
{
    builds[place]
}

/// The cell of the one value, a made node.
fn last_cell(values: &[Value]) -> u64
    ensures { (c : ℕ) → values.now ≡ value.Made c ∷ [] → result ≡ c }
{
    match values {
        [Value::Made(cell)] => *cell,
        _ => 0,
    }
}
