// Lines that use a name which no line before has declared.
ghost use Rattle.std.specs.Prelude.{◌≡◌, ◌≤◌, ◌+◌, ◌<◌, ◌^◌, [], length, map, take};
ghost use Rattle.ck_base.specs.Numbered.{met};
ghost use Rattle.section_frame.specs.Passes.{as_seen};
ghost use Rattle.section_frame.specs.Words.{IsUndeclared, names_by};

use crate::again::Naming;
use crate::counted::meet;
use crate::missing::{Uses, lacks};
use crate::pass::LineTest;
use ck_base::{Names, NoMemory};

/// Lines that use a name which no line before has declared.
#[derive(Drop)]
pub struct Undeclared<N, U> {
    pub names: Names,
    pub naming: N,
    pub uses: U,
}

impl<T, N: Naming<T>, U: Uses<T>> LineTest<T> for Undeclared<N, U> {
    ghost finds = { λ test ds i t.
        IsUndeclared N.name (map (as_seen N.seen) ds) i (U.uses (U.seen t)) };

    ghost keeps = { λ test ds i.
        (test.names ≡ met [] (names_by N.name (take i (map (as_seen N.seen) ds))))
        × (length test.names ≤ i) };

    fn test(&mut self, says: &T) -> Result<bool, NoMemory> {
        let known = &self.names;
        if lacks(&known, &self.uses, says) {
            return Ok(true);
        }
        meet(&mut self.names, self.naming.name_of(says))?;
        Ok(false)
    }
}
