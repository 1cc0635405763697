ghost use Rattle.std.specs.Prelude.{◌≡◌, ℕ, ◌+◌, ◌<◌, ◌≤◌, Bool, IsTrue, MatchOption, Some, None, take, map, slice_get, length};
ghost use Rattle.value_store.specs.Cells.{cells_of};
ghost use Rattle.value_store.specs.declared.value.ValType.{ValType};
ghost use Rattle.value_store.specs.declared.value.ValType.TheVariants as ty;
ghost use Rattle.ast_types.specs.TypeTable.{IsA};
ghost use Rattle.expr_lang.specs.PureValues.{PureValue, PureValues, and_pure};
ghost use Rattle.expr_lang.specs.PureOf.{pure_field};
ghost use Rattle.puma_model.specs.Found.{scene_of, IsScene};
ghost use Rattle.puma_model.specs.Scene.{Seen};
ghost use Rattle.puma_model.specs.Typed.{IsIn};
ghost use Rattle.tree_store.specs.Fitting.{as_field};
ghost use Rattle.puma_model.specs.within.Gathering.{drop_pure, sees, ReadsAs, AreParts, HasNext, is_node_type, plus_if};

use crate::world::World;
use ast_types::Item;
use value_store::{Cells, ValType, Value};

/// The type of a node, of the source tree or made; none for another value.
pub(crate) fn own_type(v: Value, world: &World, cells: &Cells) -> Option<u32>
    requires { (t : ValType) × IsIn (scene_of world.now) (cells_of cells.now.units) v t }
    ensures { MatchOption result (sees (scene_of world.now) (cells_of cells.now.units) v ≡ None)
        (λ n. (node : Seen) × (sees (scene_of world.now) (cells_of cells.now.units) v ≡ Some node)
        × (node.ty ≡ n)) }
{
    match v {
        Value::Src(n) => Some(world.tree.type_of(n)),
        Value::Made(c) => Some(cells.type_of(c)),
        _ => None,
    }
}

/// The child at this place.
fn child_of(v: Value, i: u32, world: &World, cells: &Cells) -> Value
    requires typed { (t : ValType) × IsIn (scene_of world.now) (cells_of cells.now.units) v t }
    requires there { (node : Seen) × (sees (scene_of world.now) (cells_of cells.now.units) v
        ≡ Some node) × (c : PureValue) × (rest : PureValues)
        × (drop_pure i node.children ≡ and_pure c rest) }
    ensures { (node : Seen) (c : PureValue) (rest : PureValues)
        → sees (scene_of world.now) (cells_of cells.now.units) v ≡ Some node
        → drop_pure i node.children ≡ and_pure c rest
        → ReadsAs (scene_of world.now) (cells_of cells.now.units) result c }
{
    match v {
        Value::Src(n) => Value::Src(world.tree.child(n, i)),
        Value::Made(c) => Value::Made(cells.child(c, i)),
        _ => v,
    }
}

/// The field at this place.
fn field_of(v: Value, i: u32, world: &World, cells: &Cells) -> Value
    requires typed { (t : ValType) × IsIn (scene_of world.now) (cells_of cells.now.units) v t }
    requires there { (node : Seen) × (sees (scene_of world.now) (cells_of cells.now.units) v
        ≡ Some node) × (c : PureValue) × (rest : PureValues)
        × (drop_pure i node.fields ≡ and_pure c rest) }
    ensures { (node : Seen) (c : PureValue) (rest : PureValues)
        → sees (scene_of world.now) (cells_of cells.now.units) v ≡ Some node
        → drop_pure i node.fields ≡ and_pure c rest
        → ReadsAs (scene_of world.now) (cells_of cells.now.units) result c }
{
    match v {
        Value::Src(n) => as_field(world.tree.field(n, i)),
        Value::Made(c) => as_field(cells.field(c, i)),
        _ => v,
    }
}

/// The value as a field.
fn as_field(v: Value) -> Value
    ensures { result ≡ as_field v }
{
    match v {
        Value::Int(_) | Value::Bool(_) | Value::Text(_) => v,
        _ => Value::Int(0),
    }
}

/// Whether a part of this type is a child.
fn is_child(of: ValType) -> bool
    ensures { result ≡ is_node_type of }
{
    match of {
        ValType::Node(_) => true,
        _ => false,
    }
}

/// Copies the parts of the node at the items of a type that it is to the front of `into`, and gives
/// their number.
pub(crate) fn gather(
    v: Value,
    ty: u32,
    world: &World,
    cells: &Cells,
    into: &mut [Value; 16],
) -> usize
    requires scene { IsScene (scene_of world.now) }
    requires typed { (t : ValType) × IsIn (scene_of world.now) (cells_of cells.now.units) v t }
    requires there { ty < length world.now.types.now.types }
    requires is { (node : Seen) × (sees (scene_of world.now) (cells_of cells.now.units) v
        ≡ Some node) × IsA world.now.types.now.types node.ty ty }
    ensures few { result ≤ 16 }
    ensures parts { AreParts (scene_of world.now) (cells_of cells.now.units) v ty
        (take result into.new) }
{
    let items = world.types.items(ty);
    let mut children: u32 = 0;
    let mut fields: u32 = 0;
    for i in 0..items.len() {
        let child = is_child(item_type(items, i));
        let part = part_of(child, v, children, fields, world, cells);
        into[i] = part;
        children = one_more_if(child, children);
        fields = one_more_if(!child, fields);
    }
    items.len()
}

/// The next part: a child or a field.
fn part_of(child: bool, v: Value, children: u32, fields: u32, world: &World, cells: &Cells) -> Value
    requires typed { (t : ValType) × IsIn (scene_of world.now) (cells_of cells.now.units) v t }
    requires there { (node : Seen) × (sees (scene_of world.now) (cells_of cells.now.units) v
        ≡ Some node) × (c : PureValue) × HasNext child children fields node c }
    ensures { (node : Seen) (c : PureValue)
        → sees (scene_of world.now) (cells_of cells.now.units) v ≡ Some node
        → HasNext child children fields node c
        → ReadsAs (scene_of world.now) (cells_of cells.now.units) result c }
{
    if child {
        child_of(v, children, world, cells)
    } else {
        field_of(v, fields, world, cells)
    }
}

/// The type of the item at a place that there is.
fn item_type(items: &[Item], i: usize) -> ValType
    requires { i < length items.now }
    ensures { slice_get (map (λ item. item.of) items.now) i ≡ Some result }
{
    items[i].of
}

/// One more, where the test is true.
fn one_more_if(test: bool, n: u32) -> u32
    requires { n < 16 }
    ensures { result ≡ plus_if test n }
{
    if test { n + 1 } else { n }
}
