// Trees and their orders in print.
ghost use Rattle.std.specs.Prelude.{◌<◌, ◌^◌, length};

use crate::growing::{Kinds, add_node, is_under, make_kinds};
use crate::lines::push_line;
use crate::visitors::{Counter, Trace};
use ast_types::Types;
use std::alloc::Global;
use tree_store::Tree;
use value_store::{NoMemory, Value};

/// How many nodes a tree may have.
const LIMIT: u32 = 1_048_576;

/// Writes the walk and the orders of a small tree: node 4 over nodes 2 and 3, and 2 over 0 and 1.
pub(crate) fn show_small(alloc: Global, out: &mut String) -> Result<(), NoMemory> {
    let mut types = Types::new(alloc);
    let kinds = make_kinds(alloc, &mut types)?;
    let mut tree = Tree::new(alloc);
    add_node(&mut tree, &types, kinds.leaf, &[], &[Value::Int(5)])?;
    add_node(&mut tree, &types, kinds.leaf, &[], &[Value::Int(6)])?;
    add_node(&mut tree, &types, kinds.pair, &[0, 1], &[])?;
    add_node(&mut tree, &types, kinds.leaf, &[], &[Value::Int(7)])?;
    add_node(&mut tree, &types, kinds.pair, &[2, 3], &[])?;
    // A node that has a parent already, a node twice, a node that isn't there, a field too many.
    for (kind, children) in [(kinds.wrap, 2), (kinds.wrap, 9), (kinds.leaf, 4)] {
        if add_node(&mut tree, &types, kind, &[children], &[])?.is_some() {
            push_line(out, format!(in alloc; "a node over {children}")?)?;
        }
    }
    if tree.is_empty() || tree.len() != 5 {
        return push_line(out, format!(in alloc; "no tree")?);
    }
    let mut trace = Trace::new(alloc);
    let stopped = tree.walk(4, &mut trace);
    push_line(
        out,
        format!(in alloc; "walk {}, stopped {stopped:?}", trace.text)?,
    )?;
    let mut trace = Trace::until(alloc, 1);
    let stopped = tree.walk(4, &mut trace);
    push_line(
        out,
        format!(in alloc; "walk {}, stopped {stopped:?}", trace.text)?,
    )?;
    show_orders(alloc, &tree, 4, out)?;
    show_orders(alloc, &tree, 2, out)
}

/// Writes both orders of the nodes under the root.
fn show_orders(alloc: Global, tree: &Tree, root: u32, out: &mut String) -> Result<(), NoMemory> {
    let before = preorder(alloc, tree, root)?;
    push_line(out, before)?;
    let after = postorder(alloc, tree, root)?;
    push_line(out, after)
}

/// The nodes under the root, each before its children.
fn preorder(alloc: Global, tree: &Tree, root: u32) -> Result<String, NoMemory> {
    let mut text = format!(in alloc; "preorder of {root}:")?;
    let mut at = Some(root);
    for _ in 0..tree.len() {
        if let Some(node) = at {
            text.push_str(format!(in alloc; " {node}")?.as_str())?;
            at = if is_under(tree, root, node) {
                tree.next_in_preorder(root, node)
            } else {
                None
            };
        }
    }
    Ok(text)
}

/// The nodes under the root, each after its children.
fn postorder(alloc: Global, tree: &Tree, root: u32) -> Result<String, NoMemory> {
    let mut text = format!(in alloc; "postorder of {root}:")?;
    let mut at = first_of(tree, root);
    for _ in 0..tree.len() {
        if let Some(node) = at {
            text.push_str(format!(in alloc; " {node}")?.as_str())?;
            at = if is_under(tree, root, node) {
                tree.next_in_postorder(root, node)
            } else {
                None
            };
        }
    }
    Ok(text)
}

/// The node under the root with the least number that is under it; it is the first in postorder
/// here.
fn first_of(tree: &Tree, root: u32) -> Option<u32> {
    for node in 0..tree.len() {
        if is_under(tree, root, node) {
            return Some(node);
        }
    }
    None
}

/// Writes what a walk over a chain of the greatest number of nodes counts.
pub(crate) fn show_chain(alloc: Global, out: &mut String) -> Result<(), NoMemory> {
    let mut types = Types::new(alloc);
    let kinds = make_kinds(alloc, &mut types)?;
    let mut tree = Tree::new(alloc);
    let mut top = add_node(&mut tree, &types, kinds.leaf, &[], &[Value::Int(0)])?;
    for _ in 1..LIMIT {
        if let Some(below) = top {
            top = add_node(&mut tree, &types, kinds.wrap, &[below], &[])?;
        }
    }
    count(alloc, "chain", &tree, out)?;
    show_full(alloc, &mut tree, &types, &kinds, out)
}

/// Writes what a walk over a comb of the greatest number of nodes counts.
pub(crate) fn show_comb(alloc: Global, out: &mut String) -> Result<(), NoMemory> {
    let mut types = Types::new(alloc);
    let kinds = make_kinds(alloc, &mut types)?;
    let mut tree = Tree::new(alloc);
    let mut top = add_node(&mut tree, &types, kinds.leaf, &[], &[Value::Int(0)])?;
    for _ in 0..LIMIT / 2 - 1 {
        let leaf = add_node(&mut tree, &types, kinds.leaf, &[], &[Value::Int(1)])?;
        if let (Some(leaf), Some(below)) = (leaf, top) {
            top = add_node(&mut tree, &types, kinds.pair, &[leaf, below], &[])?;
        }
    }
    if let Some(below) = top {
        add_node(&mut tree, &types, kinds.wrap, &[below], &[])?;
    }
    count(alloc, "comb", &tree, out)?;
    show_full(alloc, &mut tree, &types, &kinds, out)
}

/// Writes what a walk from the last node on counts.
fn count(alloc: Global, name: &str, tree: &Tree, out: &mut String) -> Result<(), NoMemory> {
    let size = tree.len();
    if size == 0 {
        return push_line(out, format!(in alloc; "{name}: no tree")?);
    }
    let mut counter = Counter::new();
    let stopped = tree.walk(size - 1, &mut counter);
    push_line(
        out,
        format!(in alloc;
            "{name} of {size} nodes: {} entered, {} left, {} deep, stopped {stopped:?}",
            counter.entered, counter.left, counter.deepest
        )?,
    )
}

/// Writes that one node more is too many.
fn show_full(
    alloc: Global,
    tree: &mut Tree,
    types: &Types,
    kinds: &Kinds,
    out: &mut String,
) -> Result<(), NoMemory>
    requires { length types.now.types < 2 ^ 32 }
{
    let more = add_node(tree, types, kinds.leaf, &[], &[Value::Int(0)])?;
    push_line(
        out,
        format!(in alloc; "one node more: {more:?} of {}", tree.len())?,
    )
}
