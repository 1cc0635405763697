// Types of values, and values.
use crate::text::Text;

/// The type of a value. That of a node has the number of its family.
#[derive(Clone, Copy, Debug, PartialEq, Eq)]
pub enum ValType {
    Int,
    Bool,
    Text,
    Map,
    Token,
    Node(u32),
}

/// A value. Maps and made nodes are cells of a store, by number.
#[derive(Clone, Copy)]
pub enum Value {
    Int(i64),
    Bool(bool),
    Text(Text),
    /// The map in this cell.
    Map(u64),
    /// The token of this number.
    Token(u32),
    /// This node of the source tree.
    Src(u32),
    /// The made node in this cell.
    Made(u64),
}

impl Default for Value {
    fn default() -> Value {
        Value::Int(0)
    }
}
