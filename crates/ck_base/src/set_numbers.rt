// Sets of numbers, numbered by their first occurrence.
ghost use Rattle.std.specs.Prelude.{◌≡◌, ℕ, ◌+◌, ◌^◌, ◌<◌, ◌↔◌, [], ◌∷◌, length, IfOk, OnOk, OnErr, IsNone, Contains, slice_get};
ghost use Rattle.ck_base.specs.Numbered.{met, number_of};

use indexmap::IndexSet;
use std::alloc::Global;
use std::marker::Model;
use value_store::NoMemory;

/// Sets with numbers, from 0 in the order in which they were first met; no set is there twice. A set
/// is given by its words, as `Bits::words` has them: of one size, equal sets have equal words.
#[derive(Drop)]
pub struct SetNumbers {
    alloc: Global,
    sets: IndexSet<Vec<u64>>,
}

impl Model for SetNumbers {
    ghost use Rattle.std.specs.Prelude.{ℕ, List};
    ghost use Rattle.ck_base.specs.Numbered.{texts, AreNumbered};

    ghost Value = { List (List ℕ) };

    ghost view = { λ numbers. texts numbers.sets.keys };

    ghost invariant = { λ numbers. AreNumbered (texts numbers.sets.keys) };
}

impl SetNumbers {
    /// No sets yet. It takes no memory.
    pub fn new(alloc: Global) -> SetNumbers
        ensures { result ≡ [] }
    {
        SetNumbers {
            alloc,
            sets: IndexSet::new(alloc),
        }
    }

    /// The number of the set: its old one, else the next. Room is asked for only where the set is
    /// new.
    pub fn intern(&mut self, words: &[u64]) -> Result<u32, NoMemory>
        requires { (Contains self.old words.now → ⊥) → length self.old + 1 < 2 ^ 32 }
        ensures met { OnOk result (self.new ≡ met self.old (words.now ∷ [])) }
        ensures number { IfOk result (λ n. number_of self.new words.now ≡ Some n) }
        ensures err { OnErr result (self.new ≡ self.old) }
    {
        if let Some(known) = self.find(words) {
            return Ok(known);
        }
        let owned = Vec::from_slice(self.alloc, words)?;
        let (index, _) = self.sets.insert_full(owned)?;
        Ok(index as u32)
    }

    /// The number of the set, where it is there.
    pub fn find(&self, words: &[u64]) -> Option<u32>
        ensures number { result ≡ number_of self.now words.now }
        ensures found { (n : ℕ) → (result ≡ Some n) ↔ (slice_get self.now n ≡ Some words.now) }
        ensures absent { IsNone result ↔ (Contains self.now words.now → ⊥) }
    {
        let index = self.sets.get_index_of(words)?;
        Some(index as u32)
    }

    /// The words of the set with this number.
    pub fn words_of(&self, n: u32) -> &[u64]
        requires { n < length self.now }
        ensures { slice_get self.now n ≡ Some result.now }
    {
        self.sets[n as usize].as_slice()
    }

    /// How many sets there are.
    pub fn len(&self) -> u32
        ensures { result ≡ length self.now }
    {
        self.sets.len() as u32
    }
}
