// The first place of each of many names.
ghost use Rattle.std.specs.Prelude.{◌≡◌, ℕ, List, [], ◌∷◌, ◌++◌, ◌+◌, ◌^◌, ◌<◌, length, OnOk};
ghost use Rattle.ck_base.specs.Numbered.{number_of};
ghost use Rattle.node_model.specs.within.FirstPlaces.{AreFirst};

use ck_base::{Names, NoMemory};
use std::alloc::Global;

/// The names that were met, and the place of each, where it was met first.
#[derive(Drop)]
pub(crate) struct FirstPlaces {
    names: Names,
    places: Vec<u32>,
}

impl FirstPlaces {
    /// No names yet. It takes no memory.
    pub(crate) fn new(alloc: Global) -> FirstPlaces
        ensures { AreFirst [] result }
    {
        FirstPlaces {
            names: Names::new(alloc),
            places: Vec::new(alloc),
        }
    }

    /// Adds the name at the place behind those of all names so far.
    pub(crate) fn add(&mut self, name: &[u8], place: u32) -> Result<(), NoMemory>
        requires few { place + 1 < 2 ^ 32 }
        requires so { (all : List (List ℕ)) × (place ≡ length all) × AreFirst all self.old }
        ensures { OnOk result ((all : List (List ℕ)) → place ≡ length all → AreFirst all self.old
            → AreFirst (all ++ name.now ∷ []) self.new) }
    {
        let n = self.names.intern(name)?;
        if n as usize == self.places.len() {
            self.places.push(place)?;
        }
        Ok(())
    }

    /// The first place of the name.
    pub(crate) fn place_of(&self, name: &[u8]) -> Option<u32>
        requires { (all : List (List ℕ)) × AreFirst all self.now }
        ensures { (all : List (List ℕ)) → AreFirst all self.now
            → result ≡ number_of all name.now }
    {
        let n = self.names.find(name)?;
        let places = self.places.as_slice();
        Some(places[n as usize])
    }
}
