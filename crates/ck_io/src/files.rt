// The trait of files that are read by name, in parts.
ghost use Rattle.std.specs.Prelude.{ℕ, ◌<◌, ◌≤◌, List, length, Option, IfOk, OnErr};
ghost use Rattle.ck_io.specs.Contents.{ReadsAt, SameContents};
ghost use Rattle.ck_io.specs.Faults.{Rose, NoneFell};

/// A read or a put failed. The object that it was asked of has counted it.
#[derive(Clone, Copy, Debug, PartialEq, Eq)]
pub struct Failed;

/// Named files that are read part by part.
///
/// For each name `contents` tells its bytes, or nothing, and `faults` counts the reads that failed.
/// A count never falls, and a failed read may raise the counts of other names too.
pub trait Files {
    ghost contents: { Self → List ℕ → Option (List ℕ) };

    ghost faults: { Self → List ℕ → ℕ };

    /// Reads bytes of the file from byte `at` on into the front of `into`, and says how many. None
    /// are left where it says 0.
    fn read_at(&mut self, name: &str, at: u64, into: &mut [u8]) -> Result<usize, Failed>
        requires { 0 < length into.old }
        ensures within { IfOk result (λ n. n ≤ length into.old) }
        ensures part { ReadsAt (contents self.old name.now) at result into.new }
        ensures same { SameContents (contents self.old) (contents self.new) }
        ensures cause { OnErr result (Rose (faults self.old name.now) (faults self.new name.now)) }
        ensures later { NoneFell (faults self.old) (faults self.new) };
}
