// Units of the store: one entry of a map, one node.
use crate::text::Text;
use crate::value::Value;

/// A map of at least one pair: its newest pair and the cell of the older map.
#[derive(Clone, Copy)]
pub struct MapUnit {
    pub older: u64,
    pub key: Text,
    pub number: i64,
    /// How many pairs the map has.
    pub size: u64,
}

/// A made node. Its parts stand right before it: `children` cells, then `fields` values.
#[derive(Clone, Copy)]
pub struct NodeUnit {
    pub ty: u32,
    /// How many nodes its tree has; 1,048,577 where there are more.
    pub nodes: u32,
    pub children: u8,
    pub fields: u8,
}

/// A unit of a store. Unit n is the cell n + 1; cell 0 is the map of no pairs and has no unit.
#[derive(Clone, Copy)]
pub enum StoreUnit {
    Entry(MapUnit),
    Node(NodeUnit),
    /// A part of the node that follows.
    Part(Value),
}
