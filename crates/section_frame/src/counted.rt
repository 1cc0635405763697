// Lines with which a count is above its limit.
ghost use Rattle.std.specs.Prelude.{◌≡◌, ◌≤◌, ◌+◌, ◌<◌, ◌^◌, ◌↔◌, ℕ, List, [], Option, None, Some, length, map, take, IsTrue, OnOk};
ghost use Rattle.ck_base.specs.Numbered.{met};
ghost use Rattle.section_frame.specs.Passes.{as_seen};
ghost use Rattle.section_frame.specs.Words.{IsPast, ArePast, name_before, names_by, sum_by, read_name};

use crate::again::Naming;
use crate::pass::LineTest;
use ck_base::{Names, NoMemory};

/// How much lines of a section add to a count.
pub trait Adding<T> {
    ghost use Rattle.std.specs.Prelude.{◌≡◌, ℕ};

    /// What lines of the section say.
    ghost Said: { Type 0 };

    /// What the program's line says.
    ghost seen: { T → Said };

    /// How much a line adds.
    ghost adds: { Said → ℕ };

    /// How much the line adds.
    fn added(&self, says: &T) -> u32
        ensures { result ≡ adds (seen says.now) };
}

/// Lines with which a count is above its limit.
#[derive(Drop)]
pub struct Counted<A> {
    pub count: u64,
    pub limit: u32,
    pub adding: A,
}

impl<T, A: Adding<T>> LineTest<T> for Counted<A> {
    ghost finds = { λ test ds i t. IsPast A.adds test.limit (map (as_seen A.seen) ds) i };

    ghost keeps = { λ test ds i. (test.count ≡ sum_by A.adds (take i (map (as_seen A.seen) ds)))
        × (test.count ≤ test.limit) };

    fn test(&mut self, says: &T) -> Result<bool, NoMemory> {
        self.count += u64::from(self.adding.added(says));
        Ok(self.count > u64::from(self.limit))
    }
}

/// Lines with which there are more names than a limit, `before` counted.
#[derive(Drop)]
pub struct CountedNames<N> {
    pub names: Names,
    pub before: u64,
    pub limit: u32,
    pub naming: N,
}

impl<T, N: Naming<T>> LineTest<T> for CountedNames<N> {
    ghost finds = { λ test ds i t.
        ArePast N.name test.before test.limit (map (as_seen N.seen) ds) i };

    ghost keeps = { λ test ds i.
        (test.names ≡ met [] (names_by N.name (take i (map (as_seen N.seen) ds))))
        × (length test.names ≤ i) × (test.before < 2 ^ 63) };

    fn test(&mut self, says: &T) -> Result<bool, NoMemory> {
        meet(&mut self.names, self.naming.name_of(says))?;
        Ok(is_past(self.before, &self.names, self.limit))
    }
}

/// The name, if it is one, is among the names now.
pub(crate) fn meet(names: &mut Names, name: Option<&[u8]>) -> Result<(), NoMemory>
    requires { length names.old + 1 < 2 ^ 32 }
    ensures { OnOk result (names.new ≡ met names.old (name_before (read_name name.entry) [])) }
{
    if let Some(name) = name {
        names.intern(name)?;
    }
    Ok(())
}

/// Whether so many and these names are more than the limit.
fn is_past(before: u64, names: &Names, limit: u32) -> bool
    requires { before < 2 ^ 63 }
    ensures { IsTrue result ↔ (limit < before + length names.now) }
{
    before + u64::from(names.len()) > u64::from(limit)
}
