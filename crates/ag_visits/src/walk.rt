// The visits so far, and the small steps of them.
ghost use Rattle.std.specs.Prelude.{◌≡◌, ℕ, ◌+◌, ◌<◌, ◌≤◌, ◌^◌, IfOk, length, slice_get, Some};
ghost use Rattle.ag_visits.specs.within.OfTree.{steps_at};
ghost use Rattle.ag_visits.specs.within.Walks.{Begins, Advances, LeavesTo, position_of};
ghost use Rattle.tree_store.specs.Forest.{node_at};

use ag_model::{Attribute, Plan, PlanStep, Values};
use std::alloc::Global;
use tree_store::Tree;
use value_store::NoMemory;

/// The visits so far: the node that is visited, or the tree's size where all is done; each node's
/// place in the steps of its type; and the values.
#[derive(Drop)]
pub struct Walk {
    pub current: u32,
    pub positions: Vec<usize>,
    pub values: Values,
}

/// The most attributes that a family has.
pub(crate) fn widest(rows: &[Vec<Attribute>]) -> u32
    requires { (i : ℕ) (row : _) → slice_get rows.now i ≡ Some row → length row.items ≤ 16 }
    ensures { (i : ℕ) (row : _) → slice_get rows.now i ≡ Some row → length row.items ≤ result }
{
    let mut width: u32 = 0;
    for row in rows {
        width = width.max(row.len() as u32);
    }
    width
}

/// The walk that is to visit the root for the first time.
pub(crate) fn begin(alloc: Global, size: u32, width: u32) -> Result<Walk, NoMemory>
    requires { 0 < size }
    ensures { IfOk result (Begins size width) }
{
    let values = Values::new(alloc, size, width)?;
    let positions = vec![in alloc; 0usize; size as usize]?;
    Ok(Walk {
        current: size - 1,
        positions,
        values,
    })
}

/// The step that the node makes next.
pub(crate) fn step_of(plan: &Plan, tree: &Tree, walk: &Walk) -> PlanStep
    requires node { walk.now.current < length tree.now }
    requires positions { length walk.now.positions.items ≡ length tree.now }
    requires planned { (node_at tree.now walk.now.current).ty < length plan.now.steps }
    requires there { position_of walk.now walk.now.current
        < length (steps_at plan.now tree.now walk.now.current) }
    ensures is { slice_get (steps_at plan.now tree.now walk.now.current)
        (position_of walk.now walk.now.current) ≡ Some result }
    ensures small { position_of walk.now walk.now.current + 1 < 2 ^ 64 }
{
    let steps = plan.steps_of(tree.type_of(walk.current));
    let position = walk.positions[walk.current as usize];
    step_at(steps, position)
}

/// The step at a place that there is.
fn step_at(steps: &[PlanStep], i: usize) -> PlanStep
    requires { i < length steps.now }
    ensures is { slice_get steps.now i ≡ Some result }
    ensures small { i + 1 < 2 ^ 64 }
{
    steps[i]
}

/// The node that is visited where this one is left; the tree's size where all is done.
pub(crate) fn node_above(plan: &Plan, tree: &Tree, walk: &Walk) -> u32
    requires node { walk.now.current < length tree.now }
    requires positions { length walk.now.positions.items ≡ length tree.now }
    requires planned { (node_at tree.now walk.now.current).ty < length plan.now.steps }
    requires there { position_of walk.now walk.now.current
        < length (steps_at plan.now tree.now walk.now.current) }
    ensures { LeavesTo plan.now tree.now walk.now result }
{
    if let Some(parent) = tree.parent(walk.current) {
        return parent;
    }
    let steps = plan.steps_of(tree.type_of(walk.current));
    let position = walk.positions[walk.current as usize];
    if position + 1 < steps.len() {
        walk.current
    } else {
        tree.len()
    }
}

/// The node has made one step more, and another one is visited.
pub(crate) fn advance(walk: &mut Walk, to: u32)
    requires node { walk.old.current < length walk.old.positions.items }
    requires small { position_of walk.old walk.old.current + 1 < 2 ^ 64 }
    ensures { Advances walk.old walk.new to }
{
    walk.positions[walk.current as usize] += 1;
    walk.current = to;
}
