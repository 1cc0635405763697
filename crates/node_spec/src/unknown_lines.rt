// The first line that names an unknown base, family, item type, nonterminal or maker.
ghost use Rattle.std.specs.Prelude.{◌≡◌, ◌+◌, ◌<◌, ◌^◌, ◌↔◌, length, map, Contains, IfOk, IsTrue};
ghost use Rattle.section_frame.specs.Declares.{Grow};
ghost use Rattle.node_spec.specs.within.AstSeen.{declared_by, item_seen, saying_seen};
ghost use Rattle.node_spec.specs.within.AstSteps.{FirstWith};
ghost use Rattle.node_spec.specs.within.AstUnknown.{BaseFault, BuildFault, HasNoBase, HasNoItemType, HasUnknownItem, IsUnknownBuild, IsUnknownNode, IsUnknownType, ItemFault, NodeFault};

use crate::ast_line::{ItemText, Saying};
use crate::limits::is_item_word;
use crate::names_of_lines::{declared_name, note};
use ck_base::{Names, NoMemory};
use expr_read::has_unknown;
use section_frame::Numbered;
use std::alloc::Global;

/// The first type whose base is neither a family nor a type of a line before.
pub(crate) fn first_without_base(
    alloc: Global,
    list: &[Numbered<Saying<'_>>],
) -> Result<Option<u32>, NoMemory>
    requires few { length list.now + 1 < 2 ^ 32 }
    requires grow { Grow (map declared_by list.now) }
    ensures { let ds = map declared_by list.now in IfOk result (FirstWith ds (BaseFault ds)) }
{
    let mut known = Names::new(alloc);
    for line in list {
        if has_no_base(&known, &line.says) {
            return Ok(Some(line.number));
        }
        note(&mut known, declared_name(&line.says))?;
    }
    Ok(None)
}

/// Whether the base of a type isn't among the names.
fn has_no_base(known: &Names, says: &Saying<'_>) -> bool
    ensures { IsTrue result ↔ HasNoBase known.now (saying_seen says.now) }
{
    match says {
        Saying::Family(_) => false,
        Saying::Target(_) => false,
        Saying::NodeType(_, base, _) => is_missing(known, base),
        Saying::Node(_, _) => false,
        Saying::Build(_, _) => false,
    }
}

/// Whether the name isn't there.
pub(crate) fn is_missing(names: &Names, name: &[u8]) -> bool
    ensures { IsTrue result ↔ (Contains names.now name.now → ⊥) }
{
    names.find(name).is_none()
}

/// The first type with an item whose type is none of the four words and no family.
pub(crate) fn first_without_item_type(
    families: &Names,
    list: &[Numbered<Saying<'_>>],
) -> Option<u32>
    requires { Grow (map declared_by list.now) }
    ensures { FirstWith (map declared_by list.now) (ItemFault families.now) result }
{
    for line in list {
        if has_no_item_type(families, &line.says) {
            return Some(line.number);
        }
    }
    None
}

/// Whether an item of a type has a type that is none of the four words and no family.
fn has_no_item_type(families: &Names, says: &Saying<'_>) -> bool
    ensures { IsTrue result ↔ HasNoItemType families.now (saying_seen says.now) }
{
    match says {
        Saying::Family(_) => false,
        Saying::Target(_) => false,
        Saying::NodeType(_, _, items) => has_unknown_item(families, items),
        Saying::Node(_, _) => false,
        Saying::Build(_, _) => false,
    }
}

/// Whether one of the items has a type that is none of the four words and no family.
fn has_unknown_item(families: &Names, items: &[ItemText<'_>]) -> bool
    ensures { IsTrue result ↔ HasUnknownItem families.now (map item_seen items.now) }
{
    for item in items {
        if is_unknown_type(families, item.of) {
            return true;
        }
    }
    false
}

/// Whether the type of an item is none of the four words and no family.
fn is_unknown_type(families: &Names, of: &[u8]) -> bool
    ensures { IsTrue result ↔ IsUnknownType families.now of.now }
{
    if is_item_word(of) {
        return false;
    }
    is_missing(families, of)
}

/// The first NODE line whose nonterminal or family isn't there.
pub(crate) fn first_unknown_node(
    nonterminals: &Names,
    families: &Names,
    list: &[Numbered<Saying<'_>>],
) -> Option<u32>
    requires { Grow (map declared_by list.now) }
    ensures { FirstWith (map declared_by list.now)
        (NodeFault nonterminals.now families.now) result }
{
    for line in list {
        if is_unknown_node(nonterminals, families, &line.says) {
            return Some(line.number);
        }
    }
    None
}

/// Whether the nonterminal or the family of a NODE line isn't there.
fn is_unknown_node(nonterminals: &Names, families: &Names, says: &Saying<'_>) -> bool
    ensures { IsTrue result ↔ IsUnknownNode nonterminals.now families.now (saying_seen says.now) }
{
    match says {
        Saying::Family(_) => false,
        Saying::Target(_) => false,
        Saying::NodeType(_, _, _) => false,
        Saying::Node(nonterminal, name) => {
            is_missing(nonterminals, nonterminal) || is_missing(families, name)
        }
        Saying::Build(_, _) => false,
    }
}

/// The first BUILD line whose rule isn't there, or with a name before parentheses that is neither
/// that of a function nor that of a type.
pub(crate) fn first_unknown_build(
    labels: &Names,
    types: &Names,
    list: &[Numbered<Saying<'_>>],
) -> Option<u32>
    requires { Grow (map declared_by list.now) }
    ensures { FirstWith (map declared_by list.now) (BuildFault labels.now types.now) result }
{
    for line in list {
        if is_unknown_build(labels, types, &line.says) {
            return Some(line.number);
        }
    }
    None
}

/// Whether the rule of a BUILD line isn't there, or a name before parentheses is neither that of a
/// function nor that of a type.
fn is_unknown_build(labels: &Names, types: &Names, says: &Saying<'_>) -> bool
    ensures { IsTrue result ↔ IsUnknownBuild labels.now types.now (saying_seen says.now) }
{
    match says {
        Saying::Family(_) => false,
        Saying::Target(_) => false,
        Saying::NodeType(_, _, _) => false,
        Saying::Node(_, _) => false,
        Saying::Build(label, e) => is_missing(labels, label) || has_unknown(e, types),
    }
}
