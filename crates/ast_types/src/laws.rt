// Laws on parts of types, on empty functions: a base's fields and children come first.
ghost use Rattle.std.specs.Prelude.{◌≡◌, ◌++◌, ℕ, List};
ghost use Rattle.value_store.specs.declared.value.ValType.{ValType};
ghost use Rattle.ast_types.specs.Items.{child_families, field_types};
ghost use Rattle.ast_types.specs.TypeTable.{TypeTable, IsA, IsSound, type_at};
ghost use Rattle.ast_types.specs.declared.item.Item.{Item};

/// Law: children and fields of items are those of the first ones, and then those of the others.
pub fn parts_of_items()
    ensures children { (a b : List Item)
        → child_families (a ++ b) ≡ child_families a ++ child_families b }
    ensures fields { (a b : List Item) → field_types (a ++ b) ≡ field_types a ++ field_types b }
{}

/// Law: children and fields of a type are the first ones of each type that is it.
pub fn base_parts_first()
    ensures children { (table : TypeTable) (t b : ℕ) → IsSound table → IsA table.types t b
        → (own : List ℕ) × (child_families (type_at table.types t).items
        ≡ child_families (type_at table.types b).items ++ own) }
    ensures fields { (table : TypeTable) (t b : ℕ) → IsSound table → IsA table.types t b
        → (own : List ValType) × (field_types (type_at table.types t).items
        ≡ field_types (type_at table.types b).items ++ own) }
{}
