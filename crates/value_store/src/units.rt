// The units of a store, packed.
ghost use Rattle.std.specs.Prelude.{min, map, vec_capacity, ◌≡◌, ◌+◌, ◌<◌, ◌≤◌, ◌^◌, length, slice_get, Some, [], ◌∷◌, ◌++◌, IsOk, OnOk, All, List};
ghost use Rattle.value_store.specs.Slots.{unit_in, IsKept};
ghost use Rattle.value_store.specs.declared.unit.MapUnit.{MapUnit};
ghost use Rattle.value_store.specs.declared.unit.StoreUnit.TheVariants as unit;

use crate::memory::NoMemory;
use crate::slot::Slot;
use crate::unit::{MapUnit, NodeUnit, StoreUnit};
use crate::value::Value;
use std::alloc::Global;
use std::marker::Model;

/// The units of a store: 16 bytes for each, and the entries of maps in a list of their own.
#[derive(Drop)]
pub(crate) struct Units {
    slots: Vec<Slot>,
    entries: Vec<MapUnit>,
}

impl Model for Units {
    ghost use Rattle.std.specs.Prelude.{◌-◌, length, map, min, vec_capacity, All};
    ghost use Rattle.value_store.specs.Cells.{Store};
    ghost use Rattle.value_store.specs.Slots.{unit_in, IsKept};

    ghost Value = { Store };

    ghost view = { λ s. record {
      units = map (unit_in s.entries.items) s.slots.items;
      spare = min (vec_capacity s.slots - length s.slots.items)
          (vec_capacity s.entries - length s.entries.items);
    } };

    ghost invariant = { λ s. All (IsKept (length s.entries.items)) s.slots.items };
}

impl Units {
    /// No units. It takes no memory.
    pub(crate) fn new(alloc: Global) -> Units
        ensures { result.units ≡ [] }
    {
        Units {
            slots: Vec::new(alloc),
            entries: Vec::new(alloc),
        }
    }

    /// Finds room for `n` units.
    pub(crate) fn reserve(&mut self, n: usize) -> Result<(), NoMemory>
        ensures same { self.new.units ≡ self.old.units }
        ensures ok { OnOk result (n ≤ self.new.spare) }
        ensures spare { self.old.spare ≤ self.new.spare }
        ensures room { n ≤ self.old.spare → IsOk result }
    {
        self.slots.reserve(n)?;
        self.entries.reserve(n)?;
        Ok(())
    }

    /// How many there are.
    pub(crate) fn len(&self) -> usize
        ensures is { result ≡ length self.now.units }
        ensures small { length self.now.units < 2 ^ 63 }
    {
        self.slots.len()
    }

    /// The unit at this place.
    pub(crate) fn at(&self, i: usize) -> StoreUnit
        requires { i < length self.now.units }
        ensures is { slice_get self.now.units i ≡ Some result }
        ensures few { length self.now.units < 2 ^ 63 }
    {
        match self.slots[i] {
            Slot::Entry(k) => StoreUnit::Entry(self.entries[k as usize]),
            Slot::Node(node) => StoreUnit::Node(node),
            Slot::Int(n) => StoreUnit::Part(Value::Int(n)),
            Slot::Bool(b) => StoreUnit::Part(Value::Bool(b)),
            Slot::Text(t) => StoreUnit::Part(Value::Text(t)),
            Slot::Map(m) => StoreUnit::Part(Value::Map(m)),
            Slot::Token(k) => StoreUnit::Part(Value::Token(k)),
            Slot::Src(n) => StoreUnit::Part(Value::Src(n)),
            Slot::Made(c) => StoreUnit::Part(Value::Made(c)),
        }
    }

    /// Adds an entry, for which there is room.
    pub(crate) fn push_entry(&mut self, entry: MapUnit)
        requires { 0 < self.old.spare }
        ensures units { self.new.units ≡ self.old.units ++ unit.Entry entry ∷ [] }
        ensures spare { self.old.spare ≤ self.new.spare + 1 }
    {
        let number = self.entries.len() as u64;
        self.entries.push(entry).unwrap();
        self.slots.push(Slot::Entry(number)).unwrap();
    }

    /// Adds a node, for which there is room.
    pub(crate) fn push_node(&mut self, node: NodeUnit)
        requires { 0 < self.old.spare }
        ensures units { self.new.units ≡ self.old.units ++ unit.Node node ∷ [] }
        ensures spare { self.old.spare ≤ self.new.spare + 1 }
    {
        self.slots.push(Slot::Node(node)).unwrap();
    }

    /// Adds a part of the node that follows, for which there is room.
    pub(crate) fn push_part(&mut self, part: Value)
        requires { 0 < self.old.spare }
        ensures units { self.new.units ≡ self.old.units ++ unit.Part part ∷ [] }
        ensures spare { self.old.spare ≤ self.new.spare + 1 }
    {
        self.slots.push(slot_of(part)).unwrap();
    }
}

/// The slot that keeps the part.
fn slot_of(part: Value) -> Slot
    ensures is { (entries : List MapUnit) → unit_in entries result ≡ unit.Part part }
    ensures kept { (count : _) → IsKept count result }
{
    match part {
        Value::Int(n) => Slot::Int(n),
        Value::Bool(b) => Slot::Bool(b),
        Value::Text(t) => Slot::Text(t),
        Value::Map(m) => Slot::Map(m),
        Value::Token(k) => Slot::Token(k),
        Value::Src(n) => Slot::Src(n),
        Value::Made(c) => Slot::Made(c),
    }
}
