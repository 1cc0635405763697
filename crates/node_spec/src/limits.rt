// The line by which a count passes its limit.
ghost use Rattle.std.specs.Prelude.{◌≡◌, ◌+◌, ◌<◌, ◌^◌, ◌↔◌, ◌⊎◌, [], length, map, Contains, IsTrue, MatchOption};
ghost use Rattle.ast_types.specs.Items.{child_families};
ghost use Rattle.cfg_model.specs.declared.named.NamedGrammar.{NamedGrammar as named_grammar};
ghost use Rattle.ck_base.specs.declared.fault.Kind.TheVariants.{Limit as limit};
ghost use Rattle.section_frame.specs.Declares.{Grow, HasFault};
ghost use Rattle.spec_text.specs.Least.{Least};
ghost use Rattle.node_spec.specs.AstFaults.{ast, item_words};
ghost use Rattle.node_spec.specs.AstTables.{item_of, rows_in};
ghost use Rattle.node_spec.specs.within.AstSeen.{declared_by, item_seen, row_seen, saying_seen};
ghost use Rattle.node_spec.specs.within.AstSteps.{HasNone};
ghost use Rattle.node_spec.specs.within.AstWalks.{HasTooMany, IsPastLimit, child_said, families_said, item_word, row_number, types_said};

use crate::ast_line::{ItemText, Saying};
use crate::rows::TypeRow;
use expr_read::type_of_word;
use section_frame::Numbered;

/// The first line by which there are more than 128 families or 512 types, or whose type has more
/// than 8 children or 8 fields.
pub(crate) fn first_past_limit(list: &[Numbered<Saying<'_>>], rows: &[TypeRow<'_>]) -> Option<u32>
    requires few { length list.now + 1 < 2 ^ 32 }
    requires grow { Grow (map declared_by list.now) }
    requires rows { map row_seen rows.now ≡ rows_in (map declared_by list.now) }
    ensures { let ds = map declared_by list.now in (g : named_grammar) → MatchOption result
        (HasNone g ds limit) (Least (HasFault (ast g) ds limit)) }
{
    let mut families = 0;
    let mut types = 0;
    for line in list {
        if is_past_limit(line, rows, families, types) {
            return Some(line.number);
        }
        families += families_of_line(line);
        types += types_of_line(line);
    }
    None
}

/// Whether the line, behind so many families and types, is past a limit.
fn is_past_limit(
    line: &Numbered<Saying<'_>>,
    rows: &[TypeRow<'_>],
    families: u32,
    types: u32,
) -> bool
    ensures { IsTrue result ↔ IsPastLimit families types
        (row_number (map row_seen rows.now) types) (saying_seen line.now.says) }
{
    match line.says {
        Saying::Family(_) => families >= 128,
        Saying::Target(_) => families >= 128,
        Saying::NodeType(_, _, _) => types >= 512 || is_too_large(rows, types),
        Saying::Node(_, _) => false,
        Saying::Build(_, _) => false,
    }
}

/// How many families the line declares.
fn families_of_line(line: &Numbered<Saying<'_>>) -> u32
    ensures { result ≡ families_said (saying_seen line.now.says) }
{
    match line.says {
        Saying::Family(_) => 1,
        Saying::Target(_) => 1,
        Saying::NodeType(_, _, _) => 0,
        Saying::Node(_, _) => 0,
        Saying::Build(_, _) => 0,
    }
}

/// How many types the line declares.
pub(crate) fn types_of_line(line: &Numbered<Saying<'_>>) -> u32
    ensures { result ≡ types_said (saying_seen line.now.says) }
{
    match line.says {
        Saying::Family(_) => 0,
        Saying::Target(_) => 0,
        Saying::NodeType(_, _, _) => 1,
        Saying::Node(_, _) => 0,
        Saying::Build(_, _) => 0,
    }
}

/// Whether the type of this number has more than 8 children, or more than 8 fields.
fn is_too_large(rows: &[TypeRow<'_>], number: u32) -> bool
    ensures { IsTrue result ↔ HasTooMany (row_number (map row_seen rows.now) number).items }
{
    match rows.get(number as usize) {
        Some(row) => has_too_many(row.items.as_slice()),
        None => false,
    }
}

/// Whether more than 8 of the items are children, or more than 8 fields.
fn has_too_many(items: &[ItemText<'_>]) -> bool
    ensures { IsTrue result ↔ HasTooMany (map item_seen items.now) }
{
    let children = count_children(items);
    exceed(children, items.len() - children)
}

/// Whether there are more than 8 children, or more than 8 fields.
fn exceed(children: usize, fields: usize) -> bool
    ensures { IsTrue result ↔ ((8 < children) ⊎ (8 < fields)) }
{
    children > 8 || fields > 8
}

/// How many of the items are children.
fn count_children(items: &[ItemText<'_>]) -> usize
    ensures { result ≡ length (child_families (map (item_of []) (map item_seen items.now))) }
{
    let mut count = 0;
    for item in items {
        count += children_of_item(item);
    }
    count
}

/// How many children the item is.
fn children_of_item(item: &ItemText<'_>) -> usize
    ensures { result ≡ child_said item.now.of.now }
{
    if is_item_word(item.of) { 0 } else { 1 }
}

/// Whether the name is one of the types that an item may have beside families.
pub(crate) fn is_item_word(name: &[u8]) -> bool
    ensures is { result ≡ item_word name.now }
    ensures among { IsTrue result ↔ Contains item_words name.now }
{
    type_of_word(name).is_some()
}
