// Names numbered by their first occurrence.
ghost use Rattle.std.specs.Prelude.{◌≡◌, ℕ, ◌+◌, ◌^◌, ◌<◌, ◌↔◌, [], ◌∷◌, length, IfOk, OnOk, OnErr, IsNone, IsTrue, Contains, slice_get};
ghost use Rattle.ck_base.specs.Numbered.{AreApart, met, number_of};

use indexmap::IndexSet;
use std::alloc::Global;
use std::marker::Model;
use value_store::NoMemory;

/// Names with numbers, from 0 in the order in which they were first met; no name is there twice.
#[derive(Drop)]
pub struct Names {
    alloc: Global,
    names: IndexSet<Vec<u8>>,
}

impl Model for Names {
    ghost use Rattle.std.specs.Prelude.{ℕ, List};
    ghost use Rattle.ck_base.specs.Numbered.{texts, AreNumbered};

    ghost Value = { List (List ℕ) };

    ghost view = { λ names. texts names.names.keys };

    ghost invariant = { λ names. AreNumbered (texts names.names.keys) };
}

impl Names {
    /// No names yet. It takes no memory.
    pub fn new(alloc: Global) -> Names
        ensures { result ≡ [] }
    {
        Names {
            alloc,
            names: IndexSet::new(alloc),
        }
    }

    /// The number of the name: its old one, else the next. Room is asked for only where the name
    /// is new.
    pub fn intern(&mut self, name: &[u8]) -> Result<u32, NoMemory>
        requires { (Contains self.old name.now → ⊥) → length self.old + 1 < 2 ^ 32 }
        ensures met { OnOk result (self.new ≡ met self.old (name.now ∷ [])) }
        ensures number { IfOk result (λ n. number_of self.new name.now ≡ Some n) }
        ensures err { OnErr result (self.new ≡ self.old) }
    {
        if let Some(known) = self.find(name) {
            return Ok(known);
        }
        let owned = Vec::from_slice(self.alloc, name)?;
        let (index, _) = self.names.insert_full(owned)?;
        Ok(index as u32)
    }

    /// The number of the name, where it is there.
    pub fn find(&self, name: &[u8]) -> Option<u32>
        ensures number { result ≡ number_of self.now name.now }
        ensures found { (n : ℕ) → (result ≡ Some n) ↔ (slice_get self.now n ≡ Some name.now) }
        ensures absent { IsNone result ↔ (Contains self.now name.now → ⊥) }
    {
        let index = self.names.get_index_of(name)?;
        Some(index as u32)
    }

    /// Whether the name is there.
    pub fn has(&self, name: &[u8]) -> bool
        ensures { IsTrue result ↔ Contains self.now name.now }
    {
        self.find(name).is_some()
    }

    /// The name with this number.
    pub fn text_of(&self, n: u32) -> &[u8]
        requires { n < length self.now }
        ensures { slice_get self.now n ≡ Some result.now }
    {
        self.names[n as usize].as_slice()
    }

    /// How many names there are.
    pub fn len(&self) -> u32
        ensures { result ≡ length self.now }
    {
        self.names.len() as u32
    }

    /// No name is there twice. The call does nothing: it is for what it says.
    pub fn are_apart(&self)
        ensures { AreApart self.now }
    {
        let _ = &self.names;
    }
}
