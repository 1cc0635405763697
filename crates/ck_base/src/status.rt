// Exit statuses of the program.
ghost use Rattle.std.specs.Prelude.{◌≡◌};
ghost use Rattle.ck_base.specs.Lines.{code_of};

/// How a run ends.
#[derive(Clone, Copy, Debug, PartialEq, Eq)]
pub enum Status {
    /// The whole output was written.
    Done,
    /// The words of the command line aren't right.
    Usage,
    /// The specification is refused.
    Spec,
    /// The source is refused.
    Source,
    /// Rewriting is refused.
    Rewrite,
    /// Code selection is refused.
    Code,
    /// A file or a sink failed.
    Device,
    /// Memory was wanting.
    Memory,
}

impl Status {
    /// The status as the exit status of the program.
    pub fn code(&self) -> u8
        ensures { result ≡ code_of self.now }
    {
        match self {
            Status::Done => 0,
            Status::Usage => 1,
            Status::Spec => 2,
            Status::Source => 3,
            Status::Rewrite => 4,
            Status::Code => 5,
            Status::Device => 8,
            Status::Memory => 9,
        }
    }
}
