// The family and the type of a name, among those that AST declares.
ghost use Rattle.std.specs.Prelude.{◌≡◌, ◌<◌, length, IfOk, IfSome};
ghost use Rattle.ck_base.specs.Numbered.{number_of};
ghost use Rattle.node_model.specs.TypeNames.{names_of_all, names_of_families};
ghost use Rattle.node_model.specs.within.FirstPlaces.{AreFirst};

use crate::first_places::FirstPlaces;
use ast_types::Types;
use ck_base::NoMemory;
use std::alloc::Global;
use std::marker::Model;

/// The names of families and of types with their numbers. Of equal names the first one counts.
#[derive(Drop)]
pub struct TypeNames<'t> {
    types: &'t Types,
    of_families: FirstPlaces,
    of_types: FirstPlaces,
}

impl<'t> Model for TypeNames<'t> {
    ghost use Rattle.ast_types.specs.TypeTable.{TypeTable};
    ghost use Rattle.node_model.specs.TypeNames.{names_of_all, names_of_families};
    ghost use Rattle.node_model.specs.within.FirstPlaces.{AreFirst};

    ghost Value = { TypeTable };

    ghost view = { λ t. t.types.now };

    ghost invariant = { λ t. AreFirst (names_of_families t.types.now) t.of_families
        × AreFirst (names_of_all t.types.now) t.of_types };
}

impl<'t> TypeNames<'t> {
    /// The names of these families and types.
    pub fn of(alloc: Global, types: &'t Types) -> Result<TypeNames<'t>, NoMemory>
        ensures { IfOk result (λ made. made ≡ types.now) }
    {
        let of_families = family_places(alloc, types)?;
        let of_types = type_places(alloc, types)?;
        Ok(TypeNames {
            types,
            of_families,
            of_types,
        })
    }

    /// The number of the family of the name.
    pub fn family(&self, name: &[u8]) -> Option<u32>
        ensures number { result ≡ number_of (names_of_families self.now) name.now }
        ensures within { IfSome result (λ f. f < length self.now.families) }
    {
        self.of_families.place_of(name)
    }

    /// The number of the type of the name.
    pub fn type_of(&self, name: &[u8]) -> Option<u32>
        ensures number { result ≡ number_of (names_of_all self.now) name.now }
        ensures within { IfSome result (λ t. t < length self.now.types) }
    {
        self.of_types.place_of(name)
    }
}

/// The places of the names of the families.
fn family_places(alloc: Global, types: &Types) -> Result<FirstPlaces, NoMemory>
    ensures { IfOk result (AreFirst (names_of_families types.now)) }
{
    let mut places = FirstPlaces::new(alloc);
    for f in 0..types.families() {
        places.add(types.family_name(f), f)?;
    }
    Ok(places)
}

/// The places of the names of the types.
fn type_places(alloc: Global, types: &Types) -> Result<FirstPlaces, NoMemory>
    ensures { IfOk result (AreFirst (names_of_all types.now)) }
{
    let mut places = FirstPlaces::new(alloc);
    for t in 0..types.len() {
        places.add(types.type_name(t), t)?;
    }
    Ok(places)
}
