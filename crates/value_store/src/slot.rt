// A unit of a store as it is kept.
use crate::text::Text;
use crate::unit::NodeUnit;

/// A unit of a store in 16 bytes: an entry by its number among the entries, a node, or the value of a
/// part.
#[derive(Clone, Copy)]
pub(crate) enum Slot {
    Entry(u64),
    Node(NodeUnit),
    Int(i64),
    Bool(bool),
    Text(Text),
    Map(u64),
    Token(u32),
    Src(u32),
    Made(u64),
}
