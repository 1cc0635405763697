// The types of nodes of one specification: families, types, bases, and their flattened items.
ghost use Rattle.std.specs.Prelude.{◌≡◌, ◌+◌, ◌<◌, ◌^◌, ◌++◌, [], ◌∷◌, length, Some, slice_get, IfOk, OnErr, OnOk, IsTrue, ◌↔◌};
ghost use Rattle.ast_types.specs.Items.{child_families, field_types};
ghost use Rattle.ast_types.specs.TypeTable.{family_at, type_at, base_items, IsA, IsSound, BaseFits, BaseIsThere};

use crate::item::{Item, copy_items, count_children, nth_child};
use std::alloc::Global;
use std::marker::Model;
use value_store::{Name, NoMemory};

/// A family, with its name.
#[derive(Drop)]
pub struct FamilyRow {
    pub name: Name,
    pub target: bool,
}

/// A type with all its items, and how many of these are children and fields.
#[derive(Drop)]
pub struct TypeRow {
    pub name: Name,
    pub family: u32,
    pub base: Option<u32>,
    pub items: Vec<Item>,
    pub children: u32,
    pub fields: u32,
    ghost children_counted: { children ≡ length (child_families items.items) },
    ghost fields_counted: { fields ≡ length (field_types items.items) },
}

/// Families, and the types of nodes, each numbered from 0 in the order in which they were added.
#[derive(Drop)]
pub struct Types {
    alloc: Global,
    families: Vec<FamilyRow>,
    types: Vec<TypeRow>,
}

impl Model for Types {
    ghost use Rattle.std.specs.Prelude.{map};
    ghost use Rattle.ast_types.specs.TypeTable.{TypeTable, IsNumbered};
    ghost use Rattle.ast_types.specs.Rows.{family_of_row, type_of_row};

    ghost Value = { TypeTable };

    ghost view = { λ t. record {
      families = map family_of_row t.families.items;
      types = map type_of_row t.types.items;
    } };

    ghost invariant = { λ t. IsNumbered (record {
      families = map family_of_row t.families.items;
      types = map type_of_row t.types.items;
    }) };
}

impl Types {
    /// No families and no types. It takes no memory.
    pub fn new(alloc: Global) -> Types
        ensures { (result.families ≡ []) × (result.types ≡ []) }
    {
        Types {
            alloc,
            families: Vec::new(alloc),
            types: Vec::new(alloc),
        }
    }

    /// Adds a family, of the target side or of the source side, and gives its number.
    pub fn add_family(&mut self, name: &[u8], target: bool) -> Result<u32, NoMemory>
        requires { length self.old.families + 1 < 2 ^ 32 }
        ensures number { IfOk result (λ n. n ≡ length self.old.families) }
        ensures added { OnOk result (self.new ≡ record {
          families = self.old.families ++ record { name = name.now; target = target } ∷ [];
          types = self.old.types;
        }) }
        ensures err { OnErr result (self.new ≡ self.old) }
    {
        let name = Name::from_bytes(self.alloc, name)?;
        let n = self.families.len() as u32;
        self.families.push(FamilyRow { name, target })?;
        Ok(n)
    }

    /// Adds a type with the items of its base, if it has one, and then its own; gives its number.
    pub fn add_type(
        &mut self,
        name: &[u8],
        family: u32,
        base: Option<u32>,
        own: Vec<Item>,
    ) -> Result<u32, NoMemory>
        requires few { length self.old.types + 1 < 2 ^ 32 }
        requires family { family < length self.old.families }
        requires base { BaseFits self.old.types family base }
        requires items { length (base_items self.old.types base) + length own.items < 2 ^ 32 }
        ensures number { IfOk result (λ n. n ≡ length self.old.types) }
        ensures added { OnOk result (self.new ≡ record {
          families = self.old.families;
          types = self.old.types ++ record {
            name = name.now;
            family = family;
            base = base;
            items = base_items self.old.types base ++ own.items;
          } ∷ [];
        }) }
        ensures err { OnErr result (self.new ≡ self.old) }
    {
        let items = self.flattened(base, own)?;
        let children = count_children(items.as_slice());
        let fields = items.len() as u32 - children;
        let name = Name::from_bytes(self.alloc, name)?;
        let n = self.types.len() as u32;
        let row = TypeRow {
            name,
            family,
            base,
            items,
            children,
            fields,
        };
        self.types.push(row)?;
        Ok(n)
    }

    /// The items of the base, if there is one, and then these.
    fn flattened(&self, base: Option<u32>, own: Vec<Item>) -> Result<Vec<Item>, NoMemory>
        requires { BaseIsThere self.now.types base }
        ensures { IfOk result (λ items. items.items ≡ base_items self.now.types base ++ own.items) }
    {
        let Some(b) = base else {
            return Ok(own);
        };
        let mut own = own;
        let mut items = Vec::new(self.alloc);
        copy_items(self.alloc, self.items(b), &mut items)?;
        items.append(&mut own)?;
        Ok(items)
    }

    /// How many families there are.
    pub fn families(&self) -> u32
        ensures { result ≡ length self.now.families }
    {
        self.families.len() as u32
    }

    /// How many types there are. A base stands before each type that extends it, has its family,
    /// and its items are the first ones of that type.
    pub fn len(&self) -> u32
        ensures is { result ≡ length self.now.types }
        ensures sound { IsSound self.now }
    {
        self.types.len() as u32
    }

    /// Whether there is no type.
    pub fn is_empty(&self) -> bool
        ensures { IsTrue result ↔ (self.now.types ≡ []) }
    {
        self.types.is_empty()
    }

    /// Whether the type `t` is `base`, or extends a type that is `base`.
    pub fn is_a(&self, t: u32, base: u32) -> bool
        requires { t < length self.now.types }
        ensures { IsTrue result ↔ IsA self.now.types t base }
    {
        let types = self.types.as_slice();
        let mut at = t;
        // A base has a smaller number than the types that extend it.
        while at > base {
            match type_row(types, at as usize).base {
                Some(b) => at = b,
                None => return false,
            }
        }
        at == base
    }

    /// The family of the type.
    pub fn family_of(&self, t: u32) -> u32
        requires { t < length self.now.types }
        ensures is { result ≡ (type_at self.now.types t).family }
        ensures there { result < length self.now.families }
    {
        type_row(self.types.as_slice(), t as usize).family
    }

    /// The type that this one extends; none where it extends its family alone.
    pub fn base_of(&self, t: u32) -> Option<u32>
        requires { t < length self.now.types }
        ensures is { result ≡ (type_at self.now.types t).base }
        ensures before { (b : _) → result ≡ Some b → b < t }
    {
        type_row(self.types.as_slice(), t as usize).base
    }

    /// Whether the family is of the target side.
    pub fn is_target(&self, family: u32) -> bool
        requires { family < length self.now.families }
        ensures { result ≡ (family_at self.now.families family).target }
    {
        family_row(self.families.as_slice(), family as usize).target
    }

    /// The items of the type, those of its base first.
    pub fn items(&self, t: u32) -> &[Item]
        requires { t < length self.now.types }
        ensures { result.now ≡ (type_at self.now.types t).items }
    {
        type_row(self.types.as_slice(), t as usize).items.as_slice()
    }

    /// How many items of the type are children.
    pub fn child_count(&self, t: u32) -> u32
        requires { t < length self.now.types }
        ensures { result ≡ length (child_families (type_at self.now.types t).items) }
    {
        type_row(self.types.as_slice(), t as usize).children
    }

    /// How many items of the type are fields.
    pub fn field_count(&self, t: u32) -> u32
        requires { t < length self.now.types }
        ensures { result ≡ length (field_types (type_at self.now.types t).items) }
    {
        type_row(self.types.as_slice(), t as usize).fields
    }

    /// The family of a child of the type; children are numbered from 0.
    pub fn child_family(&self, t: u32, i: u32) -> u32
        requires within { t < length self.now.types }
        requires child { i < length (child_families (type_at self.now.types t).items) }
        ensures { slice_get (child_families (type_at self.now.types t).items) i ≡ Some result }
    {
        nth_child(self.items(t), i)
    }

    /// The name of the type.
    pub fn type_name(&self, t: u32) -> &[u8]
        requires { t < length self.now.types }
        ensures { result.now ≡ (type_at self.now.types t).name }
    {
        type_row(self.types.as_slice(), t as usize).name.bytes()
    }

    /// The name of the family.
    pub fn family_name(&self, family: u32) -> &[u8]
        requires { family < length self.now.families }
        ensures { result.now ≡ (family_at self.now.families family).name }
    {
        family_row(self.families.as_slice(), family as usize)
            .name
            .bytes()
    }
}

/// The row of a type that there is.
fn type_row(rows: &[TypeRow], t: usize) -> &TypeRow
    requires { t < length rows.now }
    ensures { slice_get rows.now t ≡ Some result.now }
{
    &rows[t]
}

/// The row of a family that there is.
fn family_row(rows: &[FamilyRow], family: usize) -> &FamilyRow
    requires { family < length rows.now }
    ensures { slice_get rows.now family ≡ Some result.now }
{
    &rows[family]
}
