// Lines that declare what a line before has declared.
ghost use Rattle.std.specs.Prelude.{◌≡◌, ◌≤◌, ◌+◌, ◌<◌, ◌^◌, ℕ, None, Some, length, map, take, MatchOption, IfOk};
ghost use Rattle.section_frame.specs.Passes.{as_seen};
ghost use Rattle.section_frame.specs.Words.{IsAgain, Meets, names_by};

use crate::pass::LineTest;
use ck_base::{Names, NoMemory};

/// How lines of a section are called, among those of a sort.
pub trait Naming<T> {
    ghost use Rattle.std.specs.Prelude.{◌≡◌, ℕ, List, Option, None, Some, MatchOption};

    /// What lines of the section say.
    ghost Said: { Type 0 };

    /// What the program's line says.
    ghost seen: { T → Said };

    /// The name by which a line declares something of the sort.
    ghost name: { Said → Option (List ℕ) };

    /// The name by which the line declares something of the sort.
    fn name_of<'t>(&self, says: &'t T) -> Option<&'t [u8]>
        ensures { MatchOption result (name (seen says.now) ≡ None)
            (λ n. name (seen says.now) ≡ Some n.now) };
}

/// Lines that declare what a line before has declared.
#[derive(Drop)]
pub struct Again<N> {
    pub names: Names,
    pub naming: N,
}

impl<T, N: Naming<T>> LineTest<T> for Again<N> {
    ghost finds = { λ test ds i t. IsAgain N.name (map (as_seen N.seen) ds) i (N.seen t) };

    ghost keeps = { λ test ds i. (test.names ≡ names_by N.name (take i (map (as_seen N.seen) ds)))
        × (length test.names ≤ i) };

    fn test(&mut self, says: &T) -> Result<bool, NoMemory> {
        let Some(name) = self.naming.name_of(says) else {
            return Ok(false);
        };
        let found = is_met(&mut self.names, name)?;
        Ok(found)
    }
}

/// Whether the name is there already; else it is there now.
pub(crate) fn is_met(names: &mut Names, name: &[u8]) -> Result<bool, NoMemory>
    requires { length names.old + 1 < 2 ^ 32 }
    ensures { IfOk result (Meets names.old names.new name.now) }
{
    if names.find(name).is_some() {
        return Ok(true);
    }
    names.intern(name)?;
    Ok(false)
}
