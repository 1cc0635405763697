// A count of calls after which a device in memory fails.
ghost use Rattle.std.specs.Prelude.{◌≡◌, ◌↔◌, IsTrue, Contains};
ghost use Rattle.ck_io.specs.Faults.{one_more};

/// Calls that are counted, some of which are to fail.
#[derive(Drop)]
pub struct Calls {
    /// How many calls there were.
    pub made: u64,
    /// The numbers of the calls that are to fail; the first call has the number 1.
    pub fails: Vec<u64>,
}

impl Calls {
    /// No call yet.
    pub fn new(fails: Vec<u64>) -> Calls
        ensures { result ≡ record { made = 0; fails = fails } }
    {
        Calls { made: 0, fails }
    }

    /// Counts one call more, and says whether it is to fail.
    pub fn fails_next(&mut self) -> bool
        ensures counted { self.new ≡ record self.old { made = one_more self.old.made } }
        ensures fails { IsTrue result ↔ Contains self.old.fails.items (one_more self.old.made) }
    {
        self.made = self.made.saturating_add(1);
        self.fails.contains(&self.made)
    }
}
