// Items of a node type: fields of plain types and children of families.
ghost use Rattle.std.specs.Prelude.{◌≡◌, ◌++◌, ◌<◌, ◌^◌, Some, length, slice_get, OnOk};
ghost use Rattle.ast_types.specs.Items.{child_families};

use std::alloc::Global;
use value_store::{Name, NoMemory, ValType};

/// An item of a type: a child, where it is of a family, else a field.
#[derive(Drop)]
pub struct Item {
    /// How it is called.
    pub name: Name,
    /// The type of its values.
    pub of: ValType,
}

/// Adds a copy of the items.
pub(crate) fn copy_items(
    alloc: Global,
    items: &[Item],
    into: &mut Vec<Item>,
) -> Result<(), NoMemory>
    ensures { OnOk result (into.new.items ≡ into.old.items ++ items.now) }
{
    for item in items {
        let name = Name::from_bytes(alloc, item.name.bytes())?;
        into.push(Item { name, of: item.of })?;
    }
    Ok(())
}

/// How many of the items are children.
pub(crate) fn count_children(items: &[Item]) -> u32
    requires { length items.now < 2 ^ 32 }
    ensures { result ≡ length (child_families items.now) }
{
    let mut count = 0;
    for item in items {
        if let ValType::Node(_) = item.of {
            count += 1;
        }
    }
    count
}

/// The family of the child at this place among the children.
pub(crate) fn nth_child(items: &[Item], i: u32) -> u32
    requires { i < length (child_families items.now) }
    ensures { slice_get (child_families items.now) i ≡ Some result }
{
    let mut left = i;
    for item in items {
        if let ValType::Node(family) = item.of {
            if left == 0 {
                return family;
            }
            left -= 1;
        }
    }
    0
}
