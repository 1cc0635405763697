// A tree that grows node by node, in the order in which nodes are added.
ghost use Rattle.std.specs.Prelude.{◌≡◌, ◌<◌, ◌≤◌, ◌^◌, ℕ, ⊤, [], ◌∷◌, IsTrue, IfOk, OnOk, length, slice_get, Some};
ghost use Rattle.value_store.specs.declared.value.Value.{Value};
ghost use Rattle.value_store.specs.declared.value.ValType.{ValType};
ghost use Rattle.value_store.specs.declared.value.ValType.TheVariants as ty;
ghost use Rattle.ast_types.specs.TypeTable.{type_at};
ghost use Rattle.ast_types.specs.Items.{field_types};
ghost use Rattle.tree_store.specs.Forest.{AreRoots, Under, node_at};
ghost use Rattle.tree_store.specs.Conforms.{Fits, IsOfKind};

use ast_types::{Item, Types};
use std::alloc::Global;
use tree_store::{AddError, Tree};
use value_store::{Name, NoMemory, ValType, Value};

/// The types of the nodes here: leaves with an int, wraps of one node, pairs of nodes.
#[derive(Clone, Copy)]
pub(crate) struct Kinds {
    pub leaf: u32,
    pub wrap: u32,
    pub pair: u32,
}

/// Adds the types to a table that is empty.
pub(crate) fn make_kinds(alloc: Global, types: &mut Types) -> Result<Kinds, NoMemory>
    requires { (types.old.families ≡ []) × (types.old.types ≡ []) }
    ensures { OnOk result (length types.new.types ≡ 3) }
{
    let family = types.add_family(b"Tree", false)?;
    let leaf = types.add_type(b"leaf", family, None, items(alloc, &[ValType::Int])?)?;
    let wrap = types.add_type(
        b"wrap",
        family,
        None,
        items(alloc, &[ValType::Node(family)])?,
    )?;
    let more = items(alloc, &[ValType::Node(family)])?;
    let pair = types.add_type(b"pair", family, Some(wrap), more)?;
    Ok(Kinds { leaf, wrap, pair })
}

/// Items of these types.
fn items(alloc: Global, types: &[ValType]) -> Result<Vec<Item>, NoMemory>
    ensures { IfOk result (λ items. length items.items ≡ length types.now) }
{
    let mut items = Vec::new(alloc);
    for of in types {
        let name = Name::from_bytes(alloc, b"part")?;
        items.push(Item { name, of: *of })?;
    }
    Ok(items)
}

/// Adds a node, where the children are roots and the node fits its type; none where it can't be
/// added.
pub(crate) fn add_node(
    tree: &mut Tree,
    types: &Types,
    ty: u32,
    children: &[u32],
    fields: &[Value],
) -> Result<Option<u32>, NoMemory>
    requires { length types.now.types < 2 ^ 32 }
{
    if children.len() > 2 || fields.len() > 1 {
        return Ok(None);
    }
    if !are_roots(tree, children) || !fits(types, tree, ty, children, fields) {
        return Ok(None);
    }
    match tree.add(types, ty, children, fields) {
        Ok(node) => Ok(Some(node)),
        Err(AddError::TooLarge) => Ok(None),
        Err(AddError::NoMemory) => Err(NoMemory),
    }
}

/// Whether the nodes are roots, no two of them the same.
fn are_roots(tree: &Tree, children: &[u32]) -> bool
    ensures { IsTrue result → AreRoots tree.now children.now }
{
    for child in children {
        if *child >= tree.len() || tree.parent(*child).is_some() {
            return false;
        }
    }
    are_different(children)
}

/// Whether there are at most two nodes, which differ.
fn are_different(nodes: &[u32]) -> bool
    ensures { IsTrue result → (j k c : ℕ) → slice_get nodes.now j ≡ Some c
        → slice_get nodes.now k ≡ Some c → j ≡ k }
{
    if nodes.len() < 2 {
        return true;
    }
    nodes.len() == 2 && nodes[0] != nodes[1]
}

/// Whether the node is `root` or lies under it.
pub(crate) fn is_under(tree: &Tree, root: u32, node: u32) -> bool
    ensures within { IsTrue result → root < length tree.now }
    ensures under { IsTrue result → Under tree.now root node }
{
    if root >= tree.len() || node >= tree.len() {
        return false;
    }
    let mut at = node;
    for turn in 0..tree.len() {
        if at == root {
            return true;
        }
        let Some(parent) = tree.parent(at) else {
            return false;
        };
        if parent >= tree.len() {
            return false;
        }
        at = parent;
    }
    false
}

/// Whether the type is there, and a node of it may have these children and fields.
fn fits(types: &Types, tree: &Tree, ty: u32, children: &[u32], fields: &[Value]) -> bool
    requires types { length types.now.types < 2 ^ 32 }
    requires few { length children.now ≤ 2 }
    ensures { IsTrue result → Fits types.now tree.now ty children.now fields.now }
{
    if ty >= types.len() {
        return false;
    }
    if types.child_count(ty) as usize != children.len() {
        return false;
    }
    if types.field_count(ty) as usize != fields.len() {
        return false;
    }
    for (i, child) in children.iter().enumerate() {
        if !child_fits(types, tree, *child, types.child_family(ty, i as u32)) {
            return false;
        }
    }
    fields_fit(types.items(ty), fields)
}

/// Whether the node is there and is of the family.
fn child_fits(types: &Types, tree: &Tree, child: u32, family: u32) -> bool
    requires types { length types.now.types < 2 ^ 32 }
    ensures { IsTrue result → (type_at types.now.types (node_at tree.now child).ty).family
        ≡ family }
{
    if child >= tree.len() {
        return false;
    }
    let ty = tree.type_of(child);
    if ty >= types.len() {
        return false;
    }
    types.family_of(ty) == family
}

/// Whether there are no fields, or one that is an int, as the one item says.
fn fields_fit(items: &[Item], fields: &[Value]) -> bool
    ensures { IsTrue result → (k : ℕ) (v : Value) (kind : ValType)
        → slice_get fields.now k ≡ Some v → slice_get (field_types items.now) k ≡ Some kind
        → IsOfKind v kind }
{
    if fields.is_empty() {
        return true;
    }
    are_ints(fields) && is_int_item(items)
}

/// Whether all the values are ints.
fn are_ints(values: &[Value]) -> bool
    ensures { IsTrue result → (k : ℕ) (v : Value) → slice_get values.now k ≡ Some v
        → IsOfKind v ty.Int }
{
    for value in values {
        if !is_int(*value) {
            return false;
        }
    }
    true
}

/// Whether the value is an int.
fn is_int(value: Value) -> bool
    ensures { IsTrue result → IsOfKind value ty.Int }
{
    match value {
        Value::Int(_) => true,
        _ => false,
    }
}

/// Whether there is one item, which is an int.
fn is_int_item(items: &[Item]) -> bool
    ensures { IsTrue result → field_types items.now ≡ ty.Int ∷ [] }
{
    match items {
        [item] => item.of == ValType::Int,
        _ => false,
    }
}
