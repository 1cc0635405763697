// The fields that a pattern binds.
ghost use Rattle.std.specs.Prelude.{◌≡◌, ℕ, ◌+◌, ◌++◌, List, map, IfOk, OnOk};
ghost use Rattle.tree_store.specs.Forest.{children_at, node_at};
ghost use Rattle.beg_model.specs.RuleMeaning.{pattern_of, patterns_of};
ghost use Rattle.beg_registers.specs.Bound.{bound_at, bound_along};
ghost use Rattle.beg_registers.specs.within.Shown.{FitsNode, FitAlong};

use beg_model::CoverPattern;
use tree_store::Tree;
use value_store::{NoMemory, Value};

/// Appends the fields that the pattern, which fits the node, binds there, from left to right.
#[cycle(collect)]
pub(crate) fn collect_bound(
    pattern: &CoverPattern,
    tree: &Tree,
    node: u32,
    fields: &mut Vec<Value>,
) -> Result<(), NoMemory>
    requires { FitsNode tree.now pattern.now node }
    ensures { OnOk result ((source literals : List ℕ) → fields.new.items
        ≡ fields.old.items ++ bound_at tree.now (pattern_of source literals pattern.now) node) }
{
    match *pattern {
        CoverPattern::Tree(_, parts) => {
            collect_along(parts, tree, node, fields)?;
            Ok(())
        }
        _ => Ok(()),
    }
}

/// The same of patterns at the items of the node. A tree or an operand stands at a child, and
/// everything else at a field, so that types needn't be asked.
#[cycle(collect)]
fn collect_along(
    parts: &[CoverPattern],
    tree: &Tree,
    node: u32,
    fields: &mut Vec<Value>,
) -> Result<(), NoMemory>
    requires { FitAlong tree.now parts.now (children_at tree.now node) (node_at tree.now node).fields }
    ensures { OnOk result ((source literals : List ℕ) → fields.new.items ≡ fields.old.items
        ++ bound_along tree.now (patterns_of (map (pattern_of source literals) parts.now))
        (children_at tree.now node) (node_at tree.now node).fields) }
{
    let mut child = 0;
    let mut field = 0;
    for part in parts {
        match *part {
            CoverPattern::Leaf(_) => child = following(child)?,
            CoverPattern::Tree(_, _) => {
                collect_bound(part, tree, tree.child(node, child), fields)?;
                child = following(child)?;
            }
            CoverPattern::Bind(_) => {
                fields.push(tree.field(node, field))?;
                field = following(field)?;
            }
            CoverPattern::Any => field = following(field)?,
            CoverPattern::Int(_) => field = following(field)?,
            CoverPattern::Bool(_) => field = following(field)?,
            CoverPattern::Text(_) => field = following(field)?,
        }
    }
    Ok(())
}

/// The next number. No node has more children or fields than numbers of 32 bits.
fn following(n: u32) -> Result<u32, NoMemory>
    ensures { IfOk result (λ next. next ≡ n + 1) }
{
    match n.checked_add(1) {
        Some(next) => Ok(next),
        None => Err(NoMemory),
    }
}
