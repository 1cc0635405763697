// One pass over the lines of a section: the first line that a test finds.
ghost use Rattle.std.specs.Prelude.{◌≡◌, ◌+◌, ◌<◌, ◌^◌, ◌↔◌, ℕ, List, false, length, map, slice_get, None, Some, IsTrue, IfOk, MatchOption};
ghost use Rattle.section_frame.specs.Declares.{Declared, Grow};
ghost use Rattle.section_frame.specs.Passes.{FirstWith, numbered};

use ck_base::NoMemory;

/// What the line of this number says.
#[derive(Drop)]
pub struct Numbered<T> {
    pub number: u32,
    pub says: T,
}

/// A test of lines, one after the other, which may keep what lines before have said.
pub trait LineTest<T> {
    ghost use Rattle.std.specs.Prelude.{◌≡◌, ◌+◌, ◌<◌, ◌^◌, ◌↔◌, ℕ, List, false, length, slice_get};
    ghost use Rattle.std.specs.Prelude.{Some, IsTrue, IfOk};
    ghost use Rattle.section_frame.specs.Declares.{Declared};

    /// What is looked for among lines, at a place.
    ghost finds: { Self → List (Declared T) → ℕ → T → Type 0 };

    /// What is kept of the first lines.
    ghost keeps: { Self → List (Declared T) → ℕ → Type 0 };

    /// Whether the line is such a one.
    fn test(&mut self, says: &T) -> Result<bool, NoMemory>
        requires { (ds : List (Declared T)) × (i : ℕ) × (d : Declared T) × keeps self.old ds i
            × (slice_get ds i ≡ Some d) × (d.said ≡ says.now) × (length ds + 1 < 2 ^ 32) }
        ensures found { IfOk result (λ found. (ds : List (Declared T)) (i : ℕ) (d : Declared T)
            → keeps self.old ds i → slice_get ds i ≡ Some d → d.said ≡ says.now
            → IsTrue found ↔ finds self.old ds i d.said) }
        ensures kept { IfOk result (λ found. (ds : List (Declared T)) (i : ℕ) (d : Declared T)
            → keeps self.old ds i → slice_get ds i ≡ Some d → d.said ≡ says.now
            → found ≡ false → keeps self.new ds (i + 1)) }
        ensures same { (ds : List (Declared T)) (i : ℕ) (said : T)
            → finds self.new ds i said ↔ finds self.old ds i said };
}

/// The first line that the test finds.
pub fn first_line<T, C: LineTest<T>>(
    list: &[Numbered<T>],
    test: &mut C,
) -> Result<Option<u32>, NoMemory>
    requires few { length list.now + 1 < 2 ^ 32 }
    requires grow { Grow (map numbered list.now) }
    requires keeps { C.keeps test.old (map numbered list.now) 0 }
    ensures first { let ds = map numbered list.now in
        IfOk result (FirstWith ds (C.finds test.old ds)) }
    ensures kept { let ds = map numbered list.now in
        IfOk result (λ found. found ≡ None → C.keeps test.new ds (length ds)) }
{
    for line in list {
        if test.test(&line.says)? {
            return Ok(Some(line.number));
        }
    }
    Ok(None)
}
