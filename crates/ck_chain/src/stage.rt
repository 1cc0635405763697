// The stages of a run.
ghost use Rattle.std.specs.Prelude.{◌≡◌};
ghost use Rattle.ck_chain.specs.Answers.{needs};

/// What is made of a source.
#[derive(Clone, Copy, Debug, PartialEq, Eq)]
pub enum Stage {
    /// Its tokens by the scan rules of a specification, with their places.
    Tokens,
    /// The derivation of its tokens by the grammar, as the steps of a parser.
    Derive,
    /// The tree that the rules of its derivation build, a line a node.
    Tree,
}

impl Stage {
    /// How many sections of a specification the stage needs, from the first one on.
    pub(crate) fn needs(self) -> u32
        ensures { result ≡ needs self }
    {
        match self {
            Stage::Tokens => 1,
            Stage::Derive => 2,
            Stage::Tree => 3,
        }
    }
}
