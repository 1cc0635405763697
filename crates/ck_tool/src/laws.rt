// Laws of the top call, on empty functions: a run has one answer at most, and not none.
ghost use Rattle.std.specs.Prelude.{◌≡◌, ℕ, List, map, string_bytes};
ghost use Rattle.ck_base.specs.Found.{HasNo};
ghost use Rattle.ck_chain.specs.Outcome.{Outcome};
ghost use Rattle.ck_tool.specs.Wanted.{AreTold, Wanted};

use ck_io::Files;

/// Law: a run has at most one answer to give, where the files that it reads are told.
pub fn at_most_one_answer<F: Files>(words: &Vec<String>, files: &F)
    ensures { (a b : Outcome) → AreTold (F.contents files.now) (map string_bytes words.now.items)
        → Wanted (F.contents files.now) (map string_bytes words.now.items) a
        → Wanted (F.contents files.now) (map string_bytes words.now.items) b → a ≡ b }
{}

/// Law: a run has an answer to give, where the files that it reads are told; it can't be that there
/// is none.
pub fn some_answer<F: Files>(words: &Vec<String>, files: &F)
    ensures { AreTold (F.contents files.now) (map string_bytes words.now.items)
        → HasNo (Wanted (F.contents files.now) (map string_bytes words.now.items)) → ⊥ }
{}
