// Turns: one step of the node that is visited.
ghost use Rattle.std.specs.Prelude.{◌≡◌, ℕ, ◌+◌, ◌<◌, ◌^◌, OnOk, length};
ghost use Rattle.value_store.specs.Cells.{cells_of};
ghost use Rattle.expr_lang.specs.Evaluated.{KeepsCells};
ghost use Rattle.tree_store.specs.Forest.{node_at, children_at, IsChild};
ghost use Rattle.ag_model.specs.Attribution.{grammar_of};
ghost use Rattle.ag_model.specs.Solution.{expressions_of};
ghost use Rattle.ag_model.specs.Typed.{IsTyped};
ghost use Rattle.ag_visits.specs.within.OfTree.{steps_at, IsReady};
ghost use Rattle.ag_visits.specs.within.Walks.{position_of, Advances, LeavesTo, CanEvaluate, EvaluatesIn, IsRunning, Turns};

use crate::evaluation::evaluate;
use crate::walk::{Walk, advance, node_above, step_of};
use ag_model::{Attribution, Plan, PlanStep};
use ast_types::Types;
use ck_base::Steps;
use std::sync::ledger::Ledger;
use tree_store::Tree;
use value_store::{Cells, NoMemory, Texts, Value};

/// Goes down to a child.
fn go_down(tree: &Tree, walk: &mut Walk, child: u32)
    requires child { child < length (children_at tree.now walk.old.current) }
    requires node { walk.old.current < length walk.old.positions.items }
    requires small { position_of walk.old walk.old.current + 1 < 2 ^ 64 }
    ensures { (to : ℕ) × IsChild tree.now walk.old.current child to × Advances walk.old walk.new to }
{
    let to = tree.child(walk.current, child);
    advance(walk, to);
}

/// Ends the visit to the node.
fn go_up(plan: &Plan, tree: &Tree, walk: &mut Walk)
    requires node { walk.old.current < length tree.now }
    requires positions { length walk.old.positions.items ≡ length tree.now }
    requires planned { (node_at tree.now walk.old.current).ty < length plan.now.steps }
    requires there { position_of walk.old walk.old.current
        < length (steps_at plan.now tree.now walk.old.current) }
    requires small { position_of walk.old walk.old.current + 1 < 2 ^ 64 }
    ensures { (to : ℕ) × LeavesTo plan.now tree.now walk.old to × Advances walk.old walk.new to }
{
    let to = node_above(plan, tree, walk);
    advance(walk, to);
}

/// Evaluates an equation of the node.
fn evaluate_here(
    types: &Types,
    a: &Attribution,
    tree: &Tree,
    texts: &Texts,
    cells: &mut Cells,
    walk: &mut Walk,
    e: u32,
    env: &mut Vec<Value>,
) -> Result<(), NoMemory>
    requires positions { length walk.old.positions.items ≡ length tree.now }
    requires small { position_of walk.old walk.old.current + 1 < 2 ^ 64 }
    requires can { CanEvaluate (grammar_of types.now a.now)
        (expressions_of texts.now.source.now texts.now.literals.now a.now) tree.now
        (cells_of cells.old.units) walk.old.values walk.old.current e }
    ensures ok { OnOk result (EvaluatesIn texts.now.source.now texts.now.literals.now
        (grammar_of types.now a.now)
        (expressions_of texts.now.source.now texts.now.literals.now a.now) tree.now e
        (cells_of cells.old.units) (cells_of cells.new.units) walk.old walk.new) }
    ensures kept { KeepsCells cells.old cells.new }
{
    let node = walk.current;
    evaluate(types, a, tree, texts, cells, &mut walk.values, node, e, env)?;
    advance(walk, node);
    Ok(())
}

/// One step of the node that is visited.
pub(crate) fn turn<L: Ledger>(
    types: &Types,
    a: &Attribution,
    plan: &Plan,
    tree: &Tree,
    texts: &Texts,
    cells: &mut Cells,
    walk: &mut Walk,
    env: &mut Vec<Value>,
    steps: &mut Steps<L>,
) -> Result<(), NoMemory>
    requires ready { IsReady (grammar_of types.now a.now) plan.now tree.now }
    requires typed { IsTyped (grammar_of types.now a.now)
        (expressions_of texts.now.source.now texts.now.literals.now a.now) }
    requires running { IsRunning texts.now.source.now texts.now.literals.now
        (grammar_of types.now a.now) plan.now
        (expressions_of texts.now.source.now texts.now.literals.now a.now) tree.now
        (cells_of cells.old.units) walk.old steps.old }
    requires runs { walk.old.current < length tree.now }
    ensures turns { OnOk result (Turns texts.now.source.now texts.now.literals.now
        (grammar_of types.now a.now) plan.now
        (expressions_of texts.now.source.now texts.now.literals.now a.now) tree.now
        (cells_of cells.old.units) (cells_of cells.new.units) walk.old walk.new steps.old steps.new) }
    ensures kept { KeepsCells cells.old cells.new }
{
    match step_of(plan, tree, walk) {
        PlanStep::Evaluate(e) => {
            evaluate_here(types, a, tree, texts, cells, walk, e, env)?;
            steps.tick();
        }
        PlanStep::Visit { child, visit: _ } => go_down(tree, walk, child),
        PlanStep::Leave => go_up(plan, tree, walk),
    }
    Ok(())
}
