// Sets of numbers below a size, in words of 64 bits.
ghost use Rattle.std.specs.Prelude.{◌≡◌, ◌<◌, ◌↔◌, length, IsTrue, IfOk};
ghost use Rattle.ck_base.specs.BitSet.{Has, IsEmpty, Adds, Grew};
ghost use Rattle.ck_base.specs.Words.{AreJoined, Differ, IsFit};

use std::alloc::Global;
use std::marker::Model;
use value_store::NoMemory;

/// A set of numbers below its size, with one bit a number and 64 numbers a word.
#[derive(Drop)]
pub struct Bits {
    size: u32,
    words: Vec<u64>,
}

impl Model for Bits {
    ghost use Rattle.ck_base.specs.BitSet.{BitSet};
    ghost use Rattle.ck_base.specs.Words.{IsFit};

    ghost Value = { BitSet };

    ghost view = { λ bits. record { size = bits.size; words = bits.words.items } };

    ghost invariant = { λ bits. IsFit bits.size bits.words.items };
}

impl Bits {
    /// The empty set of numbers below `n`.
    pub fn new(alloc: Global, n: u32) -> Result<Bits, NoMemory>
        ensures size { IfOk result (λ bits. bits.size ≡ n) }
        ensures empty { IfOk result IsEmpty }
    {
        let words = vec![in alloc; 0u64; n.div_ceil(64) as usize]?;
        Ok(Bits { size: n, words })
    }

    /// The set without numbers, and without room for one. It takes no memory.
    pub fn none(alloc: Global) -> Bits
        ensures { result.size ≡ 0 }
    {
        Bits {
            size: 0,
            words: Vec::new(alloc),
        }
    }

    /// The numbers that may be in the set are those below this one.
    pub fn size(&self) -> u32
        ensures { result ≡ self.now.size }
    {
        self.size
    }

    /// The words of the set, with 64 numbers a word: number i is bit i % 64 of word i / 64.
    pub fn words(&self) -> &[u64]
        ensures words { result.now ≡ self.now.words }
        ensures fit { IsFit self.now.size self.now.words }
    {
        self.words.as_slice()
    }

    /// Puts the number in.
    pub fn add(&mut self, i: u32)
        requires { i < self.old.size }
        ensures { Adds self.old self.new (λ k. k ≡ i) }
    {
        self.words[(i / 64) as usize] |= 1 << (i % 64);
    }

    /// Whether the number is in the set; none at or past the size is.
    pub fn has(&self, i: u32) -> bool
        ensures { IsTrue result ↔ Has self.now i }
    {
        i < self.size && self.words[(i / 64) as usize] & (1 << (i % 64)) != 0
    }

    /// Whether no number is in the set.
    pub fn is_empty(&self) -> bool
        ensures { IsTrue result ↔ IsEmpty self.now }
    {
        let words = self.words.as_slice();
        words.iter().all(|word| *word == 0)
    }

    /// Takes all numbers out.
    pub fn clear(&mut self)
        ensures size { self.new.size ≡ self.old.size }
        ensures empty { IsEmpty self.new }
    {
        self.words.fill(0);
    }

    /// Puts the other set's numbers in, and says whether the set grew.
    pub fn join(&mut self, other: &Bits) -> bool
        requires { self.old.size ≡ other.now.size }
        ensures joined { Adds self.old self.new (Has other.now) }
        ensures grew { IsTrue result ↔ Grew self.old self.new }
    {
        let mine = self.words.as_mut_slice();
        let theirs = other.words.as_slice();
        join_words(mine, theirs)
    }
}

/// Puts the bits of the other words in, and says whether a word changed.
fn join_words(mine: &mut [u64], theirs: &[u64]) -> bool
    requires { length mine.old ≡ length theirs.now }
    ensures joined { AreJoined mine.old theirs.now mine.new }
    ensures changed { IsTrue result ↔ Differ mine.old mine.new }
{
    let mut changed = false;
    for (i, word) in mine.iter_mut().enumerate() {
        let joined = *word | theirs[i];
        changed |= joined != *word;
        *word = joined;
    }
    changed
}
