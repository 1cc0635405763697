// Lines that one of two tests finds.
ghost use Rattle.std.specs.Prelude.{◌⊎◌};

use crate::pass::LineTest;
use ck_base::NoMemory;

/// Lines that one of two tests finds.
#[derive(Drop)]
pub struct Both<A, B> {
    pub first: A,
    pub second: B,
}

impl<T, A: LineTest<T>, B: LineTest<T>> LineTest<T> for Both<A, B> {
    ghost finds = { λ test ds i t. A.finds test.first ds i t ⊎ B.finds test.second ds i t };

    ghost keeps = { λ test ds i. A.keeps test.first ds i × B.keeps test.second ds i };

    fn test(&mut self, says: &T) -> Result<bool, NoMemory> {
        if self.first.test(says)? {
            return Ok(true);
        }
        let found = self.second.test(says)?;
        Ok(found)
    }
}
