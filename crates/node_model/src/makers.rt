// What makes the nodes of the types of one side, for expressions that build nodes.
ghost use Rattle.std.specs.Prelude.{◌≡◌, ◌+◌, ◌<◌, length, map, IfOk, OnOk};
ghost use Rattle.ast_types.specs.TypeTable.{type_at};
ghost use Rattle.node_model.specs.Makers.{AreMakersOf, IsMakerOf, is_side, names_of_types, types_of_side};
ghost use Rattle.node_model.specs.within.MakersSoFar.{MakersSoFar};

use ast_types::{Item, Types};
use ck_base::NoMemory;
use expr_lang::Maker;
use std::alloc::Global;
use value_store::{Name, ValType};

/// What makes the nodes of one side: a name, a number and a maker for each of its types, in the order of
/// the types.
#[derive(Drop)]
pub struct TypeMakers {
    pub names: Vec<Name>,
    pub types: Vec<u32>,
    pub makers: Vec<Maker>,
}

/// What makes the nodes of the types of the target side, or of the source side.
pub fn makers_of(alloc: Global, types: &Types, target: bool) -> Result<TypeMakers, NoMemory>
    ensures names { IfOk result (λ made.
        made.names.items ≡ names_of_types types.now (types_of_side types.now target)) }
    ensures types { IfOk result (λ made. made.types.items ≡ types_of_side types.now target) }
    ensures makers { IfOk result (λ made. AreMakersOf types.now target made.makers.items) }
{
    let mut made = TypeMakers {
        names: Vec::new(alloc),
        types: Vec::new(alloc),
        makers: Vec::new(alloc),
    };
    for t in 0..types.len() {
        add_type(alloc, types, target, t, &mut made)?;
    }
    Ok(made)
}

/// Puts the type behind those that are there, where it is of the side.
fn add_type(
    alloc: Global,
    types: &Types,
    target: bool,
    t: u32,
    made: &mut TypeMakers,
) -> Result<(), NoMemory>
    requires within { t < length types.now.types }
    requires so { MakersSoFar types.now target t made.old }
    ensures { OnOk result (MakersSoFar types.now target (t + 1) made.new) }
{
    let family = types.family_of(t);
    if !is_side(types.is_target(family), target) {
        return Ok(());
    }
    let name = Name::from_bytes(alloc, types.type_name(t))?;
    let maker = maker_of(alloc, types, t, family)?;
    made.names.push(name)?;
    made.types.push(t)?;
    made.makers.push(maker)?;
    Ok(())
}

/// Whether the one side is the other.
fn is_side(side: bool, target: bool) -> bool
    ensures { result ≡ is_side side target }
{
    if target { side } else { !side }
}

/// The maker of the type, which is of the family.
fn maker_of(alloc: Global, types: &Types, t: u32, family: u32) -> Result<Maker, NoMemory>
    requires within { t < length types.now.types }
    requires family { family ≡ (type_at types.now.types t).family }
    ensures kind { IfOk result (λ maker. maker.ty ≡ t) }
    ensures is { IfOk result (IsMakerOf types.now t) }
{
    let items = item_types(alloc, types.items(t))?;
    Ok(Maker {
        ty: t,
        family,
        items,
    })
}

/// The types of the items.
fn item_types(alloc: Global, items: &[Item]) -> Result<Vec<ValType>, NoMemory>
    ensures { IfOk result (λ types. types.items ≡ map (λ item. item.of) items.now) }
{
    let mut types = Vec::new(alloc);
    for item in items {
        types.push(item.of)?;
    }
    Ok(types)
}
