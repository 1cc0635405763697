// The table of types, family by family and row by row.
ghost use Rattle.std.specs.Prelude.{◌≡◌, ◌+◌, ◌<◌, ◌≤◌, ◌^◌, ◌++◌, [], ◌∷◌, All, Contains, drop, length, map, IfOk, OnOk};
ghost use Rattle.ast_types.specs.TypeTable.{BaseIsThere, base_items};
ghost use Rattle.node_spec.specs.AstTables.{families_in, family_names, family_number, item_of, item_type, rows_in, table_by, type_of_row};
ghost use Rattle.node_spec.specs.within.AstSeen.{declared_by, item_seen, row_seen, saying_seen};
ghost use Rattle.node_spec.specs.within.AstSteps.{AreFamilies};
ghost use Rattle.node_spec.specs.within.AstWalks.{FitsRow, with_family};

use crate::ast_line::{ItemText, Saying};
use crate::families::Families;
use crate::rows::TypeRow;
use ast_types::{Item, Types};
use ck_base::{Name, NoMemory};
use expr_read::type_of_word;
use section_frame::Numbered;
use std::alloc::Global;
use value_store::ValType;

/// The table of the families and types that the lines declare, each of a family that is there.
pub(crate) fn table_of(
    alloc: Global,
    list: &[Numbered<Saying<'_>>],
    families: &Families,
    rows: &[TypeRow<'_>],
) -> Result<Types, NoMemory>
    requires few { length list.now + 1 < 2 ^ 32 }
    requires rows { map row_seen rows.now ≡ rows_in (map declared_by list.now) }
    requires families { AreFamilies (map declared_by list.now) families.now }
    requires known { All (λ row. Contains (family_names (map declared_by list.now)) row.family)
        (rows_in (map declared_by list.now)) }
    ensures { IfOk result (λ types. types ≡ table_by (map declared_by list.now)) }
{
    let mut types = Types::new(alloc);
    add_families(list, &mut types)?;
    for row in rows {
        add_row(alloc, families, row, &mut types)?;
    }
    Ok(types)
}

/// Adds the families that the lines declare.
fn add_families(list: &[Numbered<Saying<'_>>], types: &mut Types) -> Result<(), NoMemory>
    requires few { length list.now + 1 < 2 ^ 32 }
    requires empty { types.old ≡ record { families = []; types = [] } }
    ensures { OnOk result (types.new ≡ record {
      families = families_in (map declared_by list.now);
      types = [];
    }) }
{
    for line in list {
        add_family_of(line, types)?;
    }
    Ok(())
}

/// Adds the family that the line declares, if it does.
fn add_family_of(line: &Numbered<Saying<'_>>, types: &mut Types) -> Result<(), NoMemory>
    requires { length types.old.families + 1 < 2 ^ 32 }
    ensures { OnOk result (types.new ≡ with_family types.old (saying_seen line.now.says)) }
{
    match line.says {
        Saying::Family(name) => {
            types.add_family(name, false)?;
            Ok(())
        }
        Saying::Target(name) => {
            types.add_family(name, true)?;
            Ok(())
        }
        Saying::NodeType(_, _, _) => Ok(()),
        Saying::Node(_, _) => Ok(()),
        Saying::Build(_, _) => Ok(()),
    }
}

/// Adds a type whose base is there, with that one's items before its own.
fn add_row(
    alloc: Global,
    families: &Families,
    row: &TypeRow<'_>,
    types: &mut Types,
) -> Result<(), NoMemory>
    requires few { length types.old.types + 1 < 2 ^ 32 }
    requires family { family_number families.now.names row.now.family.now < length types.old.families }
    requires base { FitsRow families.now.names types.old.types (row_seen row.now) }
    ensures { OnOk result (types.new ≡ record {
      families = types.old.families;
      types = types.old.types ++ type_of_row families.now.names (row_seen row.now) ∷ [];
    }) }
{
    let from = count_of_base(types, row.base);
    if row.items.len() >= u32::MAX as usize {
        return Err(NoMemory);
    }
    let rest = behind(row.items.as_slice(), from);
    let own = items_with_types(alloc, families, rest)?;
    types.add_type(row.name, families.number_of(row.family), row.base, own)?;
    Ok(())
}

/// The items from this place on.
fn behind<'i, 's>(items: &'i [ItemText<'s>], from: usize) -> &'i [ItemText<'s>]
    requires { from ≤ length items.now }
    ensures { result.now ≡ drop from items.now }
{
    &items[from..]
}

/// How many items the base gives, if there is one.
fn count_of_base(types: &Types, base: Option<u32>) -> usize
    requires { BaseIsThere types.now.types base }
    ensures { result ≡ length (base_items types.now.types base) }
{
    match base {
        Some(b) => types.items(b).len(),
        None => 0,
    }
}

/// The items, with their types.
fn items_with_types(
    alloc: Global,
    families: &Families,
    items: &[ItemText<'_>],
) -> Result<Vec<Item>, NoMemory>
    ensures { IfOk result (λ own. own.items
        ≡ map (item_of families.now.names) (map item_seen items.now)) }
{
    let mut own = Vec::new(alloc);
    for item in items {
        let made = item_with_type(alloc, families, item)?;
        own.push(made)?;
    }
    Ok(own)
}

/// The item, with its type.
fn item_with_type(alloc: Global, families: &Families, item: &ItemText<'_>) -> Result<Item, NoMemory>
    ensures { IfOk result (λ made. made ≡ item_of families.now.names (item_seen item.now)) }
{
    let name = Name::from_bytes(alloc, item.name)?;
    let of = type_of_item(families, item.of);
    Ok(Item { name, of })
}

/// The type of an item: one of four words, else a family's nodes.
fn type_of_item(families: &Families, name: &[u8]) -> ValType
    ensures { result ≡ item_type families.now.names name.now }
{
    match type_of_word(name) {
        Some(of) => of,
        None => ValType::Node(families.number_of(name)),
    }
}
