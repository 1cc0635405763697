// Lines that use a name which is none of some words.
ghost use Rattle.std.specs.Prelude.{◌≡◌, ◌↔◌, ◌<◌, ℕ, List, length, map, slice_get, Some, Contains, IsTrue};
ghost use Rattle.section_frame.specs.Words.{IsMissing};

use crate::among::WordSet;
use crate::pass::LineTest;
use ck_base::NoMemory;

/// Which names lines of a section use, of a sort.
pub trait Uses<T> {
    ghost use Rattle.std.specs.Prelude.{◌≡◌, ◌<◌, ℕ, List, length, slice_get, Some};

    /// What lines of the section say.
    ghost Said: { Type 0 };

    /// What the program's line says.
    ghost seen: { T → Said };

    /// The names that a line uses.
    ghost uses: { Said → List (List ℕ) };

    /// How many names the line uses.
    fn count(&self, says: &T) -> usize
        ensures { result ≡ length (uses (seen says.now)) };

    /// The name at the place.
    fn used<'t>(&self, says: &'t T, place: usize) -> &'t [u8]
        requires { place < length (uses (seen says.now)) }
        ensures { slice_get (uses (seen says.now)) place ≡ Some result.now };
}

/// Lines that use a name which is none of the words.
#[derive(Drop)]
pub struct Missing<W, U> {
    pub words: W,
    pub uses: U,
}

impl<T, W: WordSet, U: Uses<T>> LineTest<T> for Missing<W, U> {
    ghost finds = { λ test ds i t. IsMissing (W.words test.words) (U.uses (U.seen t)) };

    ghost keeps = { λ test ds i. Unit {0} };

    fn test(&mut self, says: &T) -> Result<bool, NoMemory> {
        Ok(lacks(&self.words, &self.uses, says))
    }
}

/// Whether a name that the line uses is none of the words.
pub(crate) fn lacks<T, W: WordSet, U: Uses<T>>(words: &W, uses: &U, says: &T) -> bool
    ensures { IsTrue result ↔ IsMissing (W.words words.now) (U.uses (U.seen says.now)) }
{
    for place in 0..uses.count(says) {
        if !words.has(uses.used(says, place)) {
            return true;
        }
    }
    false
}
