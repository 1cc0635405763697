// Lines that use a name which is one of some words, and lines as users of the name that they have.
ghost use Rattle.std.specs.Prelude.{◌≡◌, ◌↔◌, ◌<◌, ℕ, [], List, length, slice_get, Some, IsTrue};
ghost use Rattle.section_frame.specs.Words.{HasAmong, name_before};

use crate::again::Naming;
use crate::among::WordSet;
use crate::missing::Uses;
use crate::pass::LineTest;
use ck_base::NoMemory;

/// Lines that use a name which is one of the words.
#[derive(Drop)]
pub struct UsesAny<W, U> {
    pub words: W,
    pub uses: U,
}

impl<T, W: WordSet, U: Uses<T>> LineTest<T> for UsesAny<W, U> {
    ghost finds = { λ test ds i t. HasAmong (W.words test.words) (U.uses (U.seen t)) };

    ghost keeps = { λ test ds i. Unit {0} };

    fn test(&mut self, says: &T) -> Result<bool, NoMemory> {
        Ok(shares(&self.words, &self.uses, says))
    }
}

/// Whether a name that the line uses is one of the words.
fn shares<T, W: WordSet, U: Uses<T>>(words: &W, uses: &U, says: &T) -> bool
    ensures { IsTrue result ↔ HasAmong (W.words words.now) (U.uses (U.seen says.now)) }
{
    for place in 0..uses.count(says) {
        if words.has(uses.used(says, place)) {
            return true;
        }
    }
    false
}

/// Lines that use the name by which they are called, where they have one.
#[derive(Clone, Copy)]
pub struct Called<N> {
    pub naming: N,
}

impl<T, N: Naming<T>> Uses<T> for Called<N> {
    ghost use Rattle.std.specs.Prelude.{[]};
    ghost use Rattle.section_frame.specs.Words.{name_before};

    ghost Said = { N.Said };

    ghost seen = { N.seen };

    ghost uses = { λ said. name_before (N.name said) [] };

    fn count(&self, says: &T) -> usize {
        match self.naming.name_of(says) {
            Some(_) => 1,
            None => 0,
        }
    }

    fn used<'t>(&self, says: &'t T, _place: usize) -> &'t [u8] {
        match self.naming.name_of(says) {
            Some(name) => name,
            None => &[],
        }
    }
}
