// The first line that declares a reserved word.
ghost use Rattle.std.specs.Prelude.{◌≡◌, ◌↔◌, ◌⊎◌, ℕ, length, map, Contains, IsTrue};
ghost use Rattle.section_frame.specs.Declares.{Grow};
ghost use Rattle.spec_text.specs.Seen.{bytes_of};
ghost use Rattle.node_spec.specs.AstFaults.{reserved_words};
ghost use Rattle.node_spec.specs.AstShapes.{SaidItem};
ghost use Rattle.node_spec.specs.within.AstSeen.{declared_by, item_seen, saying_seen};
ghost use Rattle.node_spec.specs.within.AstSteps.{FirstWith};
ghost use Rattle.node_spec.specs.within.AstTwice.{HasReserved, IsReserved};

use crate::ast_line::{ItemText, Saying};
use section_frame::Numbered;

/// The words that no family, type or item may be called by.
const RESERVED: [&[u8]; 17] = [
    b"int", b"bool", b"text", b"map", b"if", b"then", b"else", b"true", b"false", b"line", b"col",
    b"empty", b"put", b"get", b"has", b"size", b"_",
];

/// The first line that calls a family, a type or an item by a reserved word.
pub(crate) fn first_reserved(list: &[Numbered<Saying<'_>>]) -> Option<u32>
    requires { Grow (map declared_by list.now) }
    ensures { FirstWith (map declared_by list.now) IsReserved result }
{
    for line in list {
        if names_by_reserved(&line.says) {
            return Some(line.number);
        }
    }
    None
}

/// Whether the line calls a family, a type or an item by a reserved word.
fn names_by_reserved(says: &Saying<'_>) -> bool
    ensures { (i : ℕ) → IsTrue result ↔ IsReserved i (saying_seen says.now) }
{
    match *says {
        Saying::Family(name) => is_reserved(name),
        Saying::Target(name) => is_reserved(name),
        Saying::NodeType(name, _, items) => type_by_reserved(name, items),
        Saying::Node(_, _) => false,
        Saying::Build(_, _) => false,
    }
}

/// Whether the name of a type, or one of its own items', is a reserved word.
fn type_by_reserved(name: &[u8], items: &[ItemText<'_>]) -> bool
    ensures { IsTrue result
        ↔ (Contains reserved_words name.now ⊎ HasReserved (map item_seen items.now)) }
{
    is_reserved(name) || has_reserved(items)
}

/// Whether an item is called by a reserved word.
fn has_reserved(items: &[ItemText<'_>]) -> bool
    ensures { IsTrue result ↔ HasReserved (map item_seen items.now) }
{
    for item in items {
        if is_reserved(item.name) {
            return true;
        }
    }
    false
}

/// Whether the word is a reserved one.
fn is_reserved(word: &[u8]) -> bool
    ensures { IsTrue result ↔ Contains reserved_words word.now }
{
    is_among(&RESERVED, word)
}

/// Whether the word is one of these.
fn is_among(words: &[&[u8]], word: &[u8]) -> bool
    ensures { IsTrue result ↔ Contains (map bytes_of words.now) word.now }
{
    for known in words {
        if are_equal(known, word) {
            return true;
        }
    }
    false
}

/// Whether the words are one.
fn are_equal(a: &[u8], b: &[u8]) -> bool
    ensures { IsTrue result ↔ (a.now ≡ b.now) }
{
    a == b
}
