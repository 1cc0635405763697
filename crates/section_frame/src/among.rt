// Lines that are called by one of some words.
ghost use Rattle.std.specs.Prelude.{◌≡◌, ◌↔◌, ◌++◌, ℕ, List, map, Contains, IsTrue, IsNone};
ghost use Rattle.spec_text.specs.Seen.{bytes_of};
ghost use Rattle.section_frame.specs.Words.{IsAmong};

use crate::again::Naming;
use crate::pass::LineTest;
use ck_base::{Names, NoMemory};

/// Words of which a name may be one.
pub trait WordSet {
    ghost use Rattle.std.specs.Prelude.{◌↔◌, ℕ, List, Contains, IsTrue};

    /// The words.
    ghost words: { Self → List (List ℕ) };

    /// Whether the name is one of them.
    fn has(&self, name: &[u8]) -> bool
        ensures { IsTrue result ↔ Contains (words self.now) name.now };
}

impl<'a> WordSet for &'a Names {
    ghost words = { λ names. names.now };

    fn has(&self, name: &[u8]) -> bool {
        self.find(name).is_some()
    }
}

/// Words that stand in the program.
#[derive(Clone, Copy)]
pub struct Words<'a> {
    pub list: &'a [&'a [u8]],
}

impl<'a> WordSet for Words<'a> {
    ghost use Rattle.std.specs.Prelude.{map};
    ghost use Rattle.spec_text.specs.Seen.{bytes_of};

    ghost words = { λ words. map bytes_of words.list.now };

    fn has(&self, name: &[u8]) -> bool {
        is_among(self.list, name)
    }
}

/// Whether the name is one of the words.
fn is_among(list: &[&[u8]], name: &[u8]) -> bool
    ensures { IsTrue result ↔ Contains (map bytes_of list.now) name.now }
{
    for word in list {
        if is_same(word, name) {
            return true;
        }
    }
    false
}

/// Whether the word is the name.
fn is_same(word: &[u8], name: &[u8]) -> bool
    ensures { IsTrue result ↔ (word.now ≡ name.now) }
{
    word == name
}

/// The words of two sets.
#[derive(Drop)]
pub struct AnyOf<A, B> {
    pub first: A,
    pub second: B,
}

impl<A: WordSet, B: WordSet> WordSet for AnyOf<A, B> {
    ghost use Rattle.std.specs.Prelude.{◌++◌};

    ghost words = { λ both. A.words both.first ++ B.words both.second };

    fn has(&self, name: &[u8]) -> bool {
        self.first.has(name) || self.second.has(name)
    }
}

/// Lines that are called by one of the words.
#[derive(Drop)]
pub struct Among<W, N> {
    pub words: W,
    pub naming: N,
}

impl<T, W: WordSet, N: Naming<T>> LineTest<T> for Among<W, N> {
    ghost finds = { λ test ds i t. IsAmong N.name (W.words test.words) (N.seen t) };

    ghost keeps = { λ test ds i. Unit {0} };

    fn test(&mut self, says: &T) -> Result<bool, NoMemory> {
        let Some(name) = self.naming.name_of(says) else {
            return Ok(false);
        };
        Ok(self.words.has(name))
    }
}
