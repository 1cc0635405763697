// The store of shared cells: maps and made nodes.
ghost use Rattle.std.specs.Prelude.{min, map, vec_capacity, unwrap_or, is_some, IsSome, ◌≡◌, ℕ, ◌+◌, ◌<◌, ◌≤◌, ◌^◌, length, slice_get, Some, [], ◌++◌, IfOk, IsOk, OnErr, OnOk};
ghost use Rattle.value_store.specs.Cells.{cells_of, pairs_at, tree_at, trees_at, a_part, IsMap, IsMade, AreMade, PutsPair, MakesNode};
ghost use Rattle.value_store.specs.MadeTrees.{type_of, fields_of, children_of, child_at, node_count, node_count_all};
ghost use Rattle.value_store.specs.Maps.{entries, first_with};
ghost use Rattle.value_store.specs.Texts.{text_of};
ghost use Rattle.value_store.specs.UnitFacts.{Says, SaysEntry, SaysNode, part_of_child};
ghost use Rattle.value_store.specs.declared.unit.StoreUnit.TheVariants as unit;

use crate::memory::NoMemory;
use crate::text::{Text, TextOf, Texts};
use crate::unit::{MapUnit, NodeUnit, StoreUnit};
use crate::units::Units;
use crate::value::Value;
use std::alloc::Global;
use std::marker::Model;

/// Cells: maps and made nodes, linked by number. A cell never changes once it is there, so a map or
/// a node may be part of many others. Nothing here goes down a map or a tree by recursion.
#[derive(Drop)]
pub struct Cells {
    units: Units,
}

impl Model for Cells {
    ghost use Rattle.std.specs.Prelude.{◌+◌, ℕ, slice_get, Some, ◌≡◌};
    ghost use Rattle.value_store.specs.Cells.{Store, cells_of};
    ghost use Rattle.value_store.specs.UnitFacts.{Says};

    ghost Value = { Store };

    ghost view = { λ s. s.units };

    ghost invariant = { λ s. (i : ℕ) (u : _) → slice_get s.units.units i ≡ Some u
        → Says (cells_of s.units.units) (i + 1) u };
}

impl Cells {
    /// The map of no pairs alone. It takes no memory.
    pub fn new(alloc: Global) -> Cells
        ensures { result.units ≡ [] }
    {
        Cells {
            units: Units::new(alloc),
        }
    }

    /// Finds room for `n` units. A pair takes one; a made node takes one, and one for each part.
    pub fn reserve(&mut self, n: usize) -> Result<(), NoMemory>
        ensures same { self.new.units ≡ self.old.units }
        ensures ok { OnOk result (n ≤ self.new.spare) }
    {
        self.units.reserve(n)?;
        Ok(())
    }

    /// The map of no pairs. It takes no unit.
    pub fn empty_map(&self) -> u64
        ensures map { IsMap (cells_of self.now.units) result }
        ensures none { pairs_at (cells_of self.now.units) result ≡ [] }
    {
        0
    }

    /// The map with this pair in front, as a new cell.
    pub fn put_entry(&mut self, m: u64, key: Text, v: i64) -> Result<u64, NoMemory>
        requires { IsMap (cells_of self.old.units) m }
        ensures ok { IfOk result (PutsPair (cells_of self.old.units) (cells_of self.new.units) m
            (record { key = key; number = v })) }
        ensures spare { OnOk result (self.old.spare ≤ self.new.spare + 1) }
        ensures err { OnErr result (self.new.units ≡ self.old.units) }
        ensures room { 0 < self.old.spare → IsOk result }
    {
        let size = self.size(m);
        let entry = MapUnit {
            older: m,
            key,
            number: v,
            size: size + 1,
        };
        self.units.reserve(1)?;
        self.units.push_entry(entry);
        Ok(self.units.len() as u64)
    }

    /// The number of the first pair with the text, else the default.
    pub fn get_entry(&self, texts: &Texts, m: u64, key: Text, default: i64) -> i64
        requires { IsMap (cells_of self.now.units) m }
        ensures { let source = texts.now.source.now in let literals = texts.now.literals.now in
            result ≡ unwrap_or (first_with (text_of source literals key)
            (entries source literals (pairs_at (cells_of self.now.units) m))) default }
    {
        self.find(texts, m, texts.bytes(key)).unwrap_or(default)
    }

    /// Whether the map has a pair with the text.
    pub fn has(&self, texts: &Texts, m: u64, key: Text) -> bool
        requires { IsMap (cells_of self.now.units) m }
        ensures { let source = texts.now.source.now in let literals = texts.now.literals.now in
            result ≡ is_some (first_with (text_of source literals key)
            (entries source literals (pairs_at (cells_of self.now.units) m))) }
    {
        self.find(texts, m, texts.bytes(key)).is_some()
    }

    /// How many pairs the map has, at once.
    pub fn size(&self, m: u64) -> u64
        requires { IsMap (cells_of self.now.units) m }
        ensures is { result ≡ length (pairs_at (cells_of self.now.units) m) }
        ensures few { result ≤ m }
        ensures small { result < 2 ^ 63 }
    {
        if m == 0 {
            return 0;
        }
        self.entry(m).size
    }

    /// A node with these parts, as a new cell behind them. Its children are cells.
    pub fn make_node(
        &mut self,
        ty: u32,
        children: &[u64],
        fields: &[Value],
    ) -> Result<u64, NoMemory>
        requires made { AreMade (cells_of self.old.units) children.now }
        requires few { (length children.now ≤ 8) × (length fields.now ≤ 8) }
        ensures ok { IfOk result (MakesNode (cells_of self.old.units) (cells_of self.new.units)
            ty children.now fields.now) }
        ensures spare { OnOk result
            (self.old.spare ≤ self.new.spare + (1 + length children.now + length fields.now)) }
        ensures err { OnErr result (self.new.units ≡ self.old.units) }
        ensures room { length children.now + length fields.now < self.old.spare → IsOk result }
    {
        let nodes = self.nodes_with(children);
        self.units.reserve(children.len() + fields.len() + 1)?;
        push_children(&mut self.units, children);
        push_fields(&mut self.units, fields);
        let node = NodeUnit {
            ty,
            nodes,
            children: children.len() as u8,
            fields: fields.len() as u8,
        };
        self.units.push_node(node);
        Ok(self.units.len() as u64)
    }

    /// The type of the made node.
    pub fn type_of(&self, cell: u64) -> u32
        requires { IsMade (cells_of self.now.units) cell }
        ensures { result ≡ type_of (tree_at (cells_of self.now.units) cell) }
    {
        self.node(cell).ty
    }

    /// The cell of the child at this place; places count from 0.
    pub fn child(&self, cell: u64, i: u32) -> u64
        requires made { IsMade (cells_of self.now.units) cell }
        requires within { IsSome (child_at
            (children_of (tree_at (cells_of self.now.units) cell)) i) }
        ensures made { IsMade (cells_of self.now.units) result }
        ensures is { child_at (children_of (tree_at (cells_of self.now.units) cell)) i
            ≡ Some (tree_at (cells_of self.now.units) result) }
    {
        let node = self.node(cell);
        match self.part(cell - node.fields as u64 - node.children as u64 + i as u64) {
            Value::Made(c) => c,
            _ => 0,
        }
    }

    /// The field at this place; places count from 0.
    pub fn field(&self, cell: u64, i: u32) -> Value
        requires made { IsMade (cells_of self.now.units) cell }
        requires within { i < length (fields_of (tree_at (cells_of self.now.units) cell)) }
        ensures { slice_get (fields_of (tree_at (cells_of self.now.units) cell)) i ≡ Some result }
    {
        let node = self.node(cell);
        self.part(cell - node.fields as u64 + i as u64)
    }

    /// How many nodes the tree has, at once; 1,048,577 where there are more. A node that stands at
    /// two places of the tree counts at both.
    pub fn nodes(&self, cell: u64) -> u32
        requires { IsMade (cells_of self.now.units) cell }
        ensures { result ≡ min (node_count (tree_at (cells_of self.now.units) cell)) 1048577 }
    {
        self.node(cell).nodes
    }

    /// How many nodes these trees have with one node above them; 1,048,577 where there are more.
    fn nodes_with(&self, children: &[u64]) -> u32
        requires { AreMade (cells_of self.now.units) children.now }
        ensures { result ≡ min
            (node_count_all (trees_at (cells_of self.now.units) children.now) + 1) 1048577 }
    {
        let mut nodes: u32 = 1;
        for child in children {
            nodes = (nodes + self.nodes(*child)).min(1_048_577);
        }
        nodes
    }

    /// The number of the first pair with these bytes.
    fn find(&self, texts: &Texts, m: u64, wanted: &[u8]) -> Option<i64>
        requires { IsMap (cells_of self.now.units) m }
        ensures { result ≡ first_with wanted.now
            (entries texts.now.source.now texts.now.literals.now
            (pairs_at (cells_of self.now.units) m)) }
    {
        let mut at = m;
        while at != 0 {
            let entry = self.entry(at);
            if texts.bytes(entry.key) == wanted {
                return Some(entry.number);
            }
            at = entry.older;
        }
        None
    }

    /// The unit of a cell other than 0.
    fn unit(&self, cell: u64) -> StoreUnit
        requires some { 0 < cell }
        requires within { cell < length (cells_of self.now.units) }
        ensures says { Says (cells_of self.now.units) cell result }
        ensures small { cell < 2 ^ 63 }
    {
        self.units.at((cell - 1) as usize)
    }

    /// The newest pair of a map that has one.
    fn entry(&self, m: u64) -> MapUnit
        requires some { 0 < m }
        requires map { IsMap (cells_of self.now.units) m }
        ensures says { SaysEntry (cells_of self.now.units) m result }
        ensures small { m < 2 ^ 63 }
    {
        match self.unit(m) {
            StoreUnit::Entry(entry) => entry,
            _ => MapUnit {
                older: 0,
                key: Text {
                    of: TextOf::Source,
                    from: 0,
                    to: 0,
                },
                number: 0,
                size: 0,
            },
        }
    }

    /// The unit of a made node.
    fn node(&self, cell: u64) -> NodeUnit
        requires { IsMade (cells_of self.now.units) cell }
        ensures { SaysNode (cells_of self.now.units) cell result }
    {
        match self.unit(cell) {
            StoreUnit::Node(node) => node,
            _ => NodeUnit {
                ty: 0,
                nodes: 0,
                children: 0,
                fields: 0,
            },
        }
    }

    /// The part in a cell.
    fn part(&self, cell: u64) -> Value
        requires { (v : _) × (slice_get (cells_of self.now.units) cell ≡ Some (a_part v)) }
        ensures { slice_get (cells_of self.now.units) cell ≡ Some (a_part result) }
    {
        match self.unit(cell) {
            StoreUnit::Part(v) => v,
            _ => Value::Int(0),
        }
    }
}

/// Adds the children of a node, for which there is room.
fn push_children(units: &mut Units, children: &[u64])
    requires { length children.now ≤ units.old.spare }
    ensures items { units.new.units ≡ units.old.units ++ map part_of_child children.now }
    ensures spare { units.old.spare ≤ units.new.spare + length children.now }
{
    for child in children {
        units.push_part(Value::Made(*child));
    }
}

/// Adds the fields of a node, for which there is room.
fn push_fields(units: &mut Units, fields: &[Value])
    requires { length fields.now ≤ units.old.spare }
    ensures items { units.new.units ≡ units.old.units ++ map unit.Part fields.now }
    ensures spare { units.old.spare ≤ units.new.spare + length fields.now }
{
    for field in fields {
        units.push_part(*field);
    }
}
