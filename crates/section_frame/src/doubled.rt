// Lines that use a name twice.
ghost use Rattle.std.specs.Prelude.{◌≡◌, ◌+◌, ◌<◌, ◌^◌, ◌↔◌, ℕ, List, length, slice_get, Some, IsTrue, IfOk};
ghost use Rattle.section_frame.specs.Declares.{Declared};
ghost use Rattle.section_frame.specs.Words.{HasDouble};

use crate::again::is_met;
use crate::missing::Uses;
use crate::pass::LineTest;
use ck_base::{Names, NoMemory};
use std::alloc::Global;

/// Lines that use a name twice.
#[derive(Drop)]
pub struct HasTwo<U> {
    pub alloc: Global,
    pub uses: U,
}

impl<T, U: Uses<T>> LineTest<T> for HasTwo<U> {
    ghost use Rattle.std.specs.Prelude.{◌≡◌, ◌+◌, ◌<◌, ◌^◌, ℕ, length, slice_get, Some};
    ghost use Rattle.section_frame.specs.Declares.{Declared};

    ghost finds = { λ test ds i t. HasDouble (U.uses (U.seen t)) };

    ghost keeps = { λ test ds i. (j : ℕ) (d : Declared T) → slice_get ds j ≡ Some d
        → length (U.uses (U.seen d.said)) + 1 < 2 ^ 32 };

    fn test(&mut self, says: &T) -> Result<bool, NoMemory> {
        let found = repeats(self.alloc, &self.uses, says)?;
        Ok(found)
    }
}

/// Whether the line uses a name twice.
pub fn repeats<T, U: Uses<T>>(alloc: Global, uses: &U, says: &T) -> Result<bool, NoMemory>
    requires { length (U.uses (U.seen says.now)) + 1 < 2 ^ 32 }
    ensures { IfOk result (λ found. IsTrue found ↔ HasDouble (U.uses (U.seen says.now))) }
{
    let mut names = Names::new(alloc);
    for place in 0..uses.count(says) {
        if is_met(&mut names, uses.used(says, place))? {
            return Ok(true);
        }
    }
    Ok(false)
}
