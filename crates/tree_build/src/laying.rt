// A cell laid out as a tree, nodes in postorder, without recursion.
ghost use Rattle.std.specs.Prelude.{◌≡◌, ℕ, ◌+◌, ◌*◌, ◌<◌, ◌≤◌, List, [], ◌∷◌, length, map, take, reverse, IfOk, OnOk, Err, ◌↔◌};
ghost use Rattle.value_store.specs.Cells.{cells_of, tree_at, IsMade};
ghost use Rattle.value_store.specs.MadeTrees.{MadeTree, type_of, children_of, fields_of, node_count};
ghost use Rattle.ast_types.specs.Items.{child_families, field_types};
ghost use Rattle.ast_types.specs.TypeTable.{type_at};
ghost use Rattle.expr_lang.specs.PureOf.{pure_tree};
ghost use Rattle.tree_store.specs.Fitting.{as_field, TreeFits};
ghost use Rattle.ast_types.specs.FitTypes.{AreTypes};
ghost use Rattle.tree_build.specs.Shown.{IsTreeOf};
ghost use Rattle.tree_build.specs.within.Laying.{Laying, Visits, load, trees_count};
ghost use Rattle.tree_build.specs.declared.error.BuildError.TheVariants as error;
ghost use Rattle.tree_build.specs.declared.laying.Task.{Task};
ghost use Rattle.tree_build.specs.declared.laying.Task.TheVariants as task;

use crate::error::BuildError;
use ast_types::Types;
use std::alloc::Global;
use tree_store::Tree;
use value_store::{Cells, NoMemory, Value};

/// How many nodes a tree may have.
const LIMIT: u32 = 1_048_576;

/// What is still to do for a made node in a cell.
#[derive(Clone, Copy)]
pub enum Task {
    /// To lay out the tree under it.
    Visit(u64),
    /// To add its node over its children, which are the last ones that are done.
    Make(u64),
}

/// The tree of the made node in a cell. A node that stands at two places is laid out at both.
pub fn lay_out(alloc: Global, types: &Types, cells: &Cells, root: u64) -> Result<Tree, BuildError>
    requires made { IsMade (cells_of cells.now.units) root }
    requires types { AreTypes types.now }
    requires fits { TreeFits types.now (tree_at (cells_of cells.now.units) root) }
    ensures shown { IfOk result (λ tree. (source literals : List ℕ) → IsTreeOf source literals
        types.now tree (pure_tree source literals (tree_at (cells_of cells.now.units) root))) }
    ensures full { (result ≡ Err error.TooLarge)
        ↔ (1048576 < node_count (tree_at (cells_of cells.now.units) root)) }
{
    if cells.nodes(root) > LIMIT {
        return Err(BuildError::TooLarge);
    }
    let mut tree = Tree::new(alloc);
    let mut done = Vec::new(alloc);
    let mut tasks = Vec::new(alloc);
    tasks.push(Task::Visit(root))?;
    while let Some(task) = tasks.pop() {
        take_up(task, types, cells, &mut tasks, &mut done, &mut tree)?;
    }
    Ok(tree)
}

/// Does the task, which was the next one.
fn take_up(
    task: Task,
    types: &Types,
    cells: &Cells,
    tasks: &mut Vec<Task>,
    done: &mut Vec<u32>,
    tree: &mut Tree,
) -> Result<(), NoMemory>
    requires types { AreTypes types.now }
    requires laying { (whole : MadeTree) × Laying (cells_of cells.now.units) types.now whole
        (task ∷ reverse tasks.old.items) done.old.items tree.old }
    ensures laying { IfOk result (λ _. (whole : MadeTree) → Laying (cells_of cells.now.units)
        types.now whole (task ∷ reverse tasks.old.items) done.old.items tree.old
        → Laying (cells_of cells.now.units) types.now whole
        (reverse tasks.new.items) done.new.items tree.new) }
    ensures less { OnOk result (load (cells_of cells.now.units) (reverse tasks.new.items)
        < load (cells_of cells.now.units) (task ∷ reverse tasks.old.items)) }
{
    match task {
        Task::Visit(cell) => {
            let children = types.child_count(cells.type_of(cell));
            tasks.push(Task::Make(cell))?;
            push_visits(cells, cell, children, tasks)?;
            Ok(())
        }
        Task::Make(cell) => {
            add_node(types, cells, cell, done, tree)?;
            Ok(())
        }
    }
}

/// Puts visits of the children in front of the tasks.
fn push_visits(cells: &Cells, cell: u64, count: u32, tasks: &mut Vec<Task>) -> Result<(), NoMemory>
    requires made { IsMade (cells_of cells.now.units) cell }
    requires count { count ≡ trees_count (children_of (tree_at (cells_of cells.now.units) cell)) }
    ensures { IfOk result (λ _. Visits (cells_of cells.now.units)
        (children_of (tree_at (cells_of cells.now.units) cell))
        (reverse tasks.old.items) (reverse tasks.new.items)) }
{
    for i in (0..count).rev() {
        tasks.push(Task::Visit(cells.child(cell, i)))?;
    }
    Ok(())
}

/// Adds the made node over its children, which are the last ones that are done.
fn add_node(
    types: &Types,
    cells: &Cells,
    cell: u64,
    done: &mut Vec<u32>,
    tree: &mut Tree,
) -> Result<(), NoMemory>
    requires types { AreTypes types.now }
    requires laying { (whole : MadeTree) × (tasks : List Task) × Laying (cells_of cells.now.units)
        types.now whole (task.Make cell ∷ tasks) done.old.items tree.old }
    ensures { IfOk result (λ _. (whole : MadeTree) (tasks : List Task)
        → Laying (cells_of cells.now.units) types.now whole (task.Make cell ∷ tasks)
        done.old.items tree.old
        → Laying (cells_of cells.now.units) types.now whole tasks done.new.items tree.new) }
{
    let ty = cells.type_of(cell);
    let mut fields = [Value::Int(0); 8];
    let count = types.field_count(ty) as usize;
    copy_fields(cells, cell, count, &mut fields);
    let below = done.len() - types.child_count(ty) as usize;
    let children = &done.as_slice()[below..];
    // The size of the whole was tested before, so that only memory can be wanting.
    let Ok(node) = tree.add(types, ty, children, &fields[..count]) else {
        return Err(NoMemory);
    };
    done.truncate(below);
    done.push(node)?;
    Ok(())
}

/// Copies the fields of the made node to the front of `into`.
fn copy_fields(cells: &Cells, cell: u64, count: usize, into: &mut [Value; 8])
    requires made { IsMade (cells_of cells.now.units) cell }
    requires count { count ≡ length (fields_of (tree_at (cells_of cells.now.units) cell)) }
    requires few { count ≤ 8 }
    ensures { take count into.new
        ≡ map as_field (fields_of (tree_at (cells_of cells.now.units) cell)) }
{
    for i in 0..count {
        into[i] = as_field(cells.field(cell, i as u32));
    }
}

/// The value as a field.
fn as_field(v: Value) -> Value
    ensures { result ≡ as_field v }
{
    match v {
        Value::Int(_) | Value::Bool(_) | Value::Text(_) => v,
        _ => Value::Int(0),
    }
}
