// Which names are there: those of families and of types, and of the items of types.
ghost use Rattle.std.specs.Prelude.{◌≡◌, ◌∷◌, ◌+◌, ◌<◌, ◌^◌, [], length, map, IfOk, OnOk};
ghost use Rattle.ast_types.specs.FitTypes.{AreTypes};
ghost use Rattle.ck_base.specs.Numbered.{met};
ghost use Rattle.ag_spec.specs.AgFaults.{item_names};
ghost use Rattle.ag_spec.specs.AgShapes.{pointed};

use ast_types::{Item, Types};
use ck_base::{Names, NoMemory};
use expr_read::Makers;
use node_model::TypeNames;
use section_frame::WordSet;
use std::alloc::Global;

/// The names of families.
#[derive(Clone, Copy)]
pub(crate) struct FamilyNames<'t> {
    pub names: &'t TypeNames<'t>,
}

impl<'t> WordSet for FamilyNames<'t> {
    ghost use Rattle.node_model.specs.TypeNames.{names_of_families};

    ghost words = { λ families. names_of_families families.names.now };

    fn has(&self, name: &[u8]) -> bool {
        self.names.family(name).is_some()
    }
}

/// The names of types of nodes.
#[derive(Clone, Copy)]
pub(crate) struct NodeNames<'t> {
    pub names: &'t TypeNames<'t>,
}

impl<'t> WordSet for NodeNames<'t> {
    ghost use Rattle.node_model.specs.TypeNames.{names_of_all};

    ghost words = { λ types. names_of_all types.names.now };

    fn has(&self, name: &[u8]) -> bool {
        self.names.type_of(name).is_some()
    }
}

impl<'t> Makers for NodeNames<'t> {
    ghost use Rattle.node_model.specs.TypeNames.{names_of_all};

    ghost names = { λ types. names_of_all types.names.now };

    fn knows(&self, name: &[u8]) -> bool {
        self.names.type_of(name).is_some()
    }
}

/// The items of all types, called as attributes of their families are.
pub(crate) fn items_of(alloc: Global, types: &Types) -> Result<Names, NoMemory>
    requires { AreTypes types.now }
    ensures { IfOk result (λ names. names ≡ item_names types.now) }
{
    let mut names = Names::new(alloc);
    for t in 0..types.len() {
        let family = types.family_name(types.family_of(t));
        add_items(alloc, family, types.items(t), &mut names)?;
    }
    Ok(names)
}

/// Puts the items of a type of the family behind the names, each unless it is there.
fn add_items(
    alloc: Global,
    family: &[u8],
    items: &[Item],
    names: &mut Names,
) -> Result<(), NoMemory>
    requires { length names.old + length items.now < 2 ^ 32 }
    ensures { OnOk result (names.new
        ≡ met names.old (map (λ item. pointed family.now item.name) items.now)) }
{
    for item in items {
        add_item(alloc, family, item, names)?;
    }
    Ok(())
}

/// Puts the item behind the names, unless it is there.
fn add_item(alloc: Global, family: &[u8], item: &Item, names: &mut Names) -> Result<(), NoMemory>
    requires { length names.old + 1 < 2 ^ 32 }
    ensures { OnOk result (names.new
        ≡ met names.old (pointed family.now item.now.name ∷ [])) }
{
    let called = item_called(alloc, family, item)?;
    names.intern(called.as_slice())?;
    Ok(())
}

/// The item, called as an attribute of the family is.
fn item_called(alloc: Global, family: &[u8], item: &Item) -> Result<Vec<u8>, NoMemory>
    ensures { IfOk result (λ called. called.items ≡ pointed family.now item.now.name) }
{
    let mut called = Vec::from_slice(alloc, family)?;
    called.push(b'.')?;
    called.extend_from_slice(item.name.bytes())?;
    Ok(called)
}
