// The trait of a stream of tokens.
ghost use Rattle.std.specs.Prelude.{◌≡◌, ℕ, Bool, IsTrue, List};
ghost use Rattle.parse_driver.specs.Stream.{Ending, Draws, GoesOn};
ghost use Rattle.parse_driver.specs.declared.tokens.TokenRef.{TokenRef};

/// A token: its terminal, and the places in bytes where it begins and where it has ended.
#[derive(Clone, Copy, Debug, PartialEq, Eq)]
pub struct TokenRef {
    pub terminal: u32,
    pub from: u32,
    pub to: u32,
}

/// What is drawn from a stream of tokens.
#[derive(Clone, Copy, Debug, PartialEq, Eq)]
pub enum Next {
    Token(TokenRef),
    /// No token is left; END stands at this place.
    End(u32),
    /// At this place no token begins, and it isn't the end.
    Bad(u32),
}

/// A stream of tokens, drawn one at a time.
pub trait Tokens {
    /// These tokens are to come, with this ending. It is a relation, and not a list, since the tokens of a
    /// source are known by a relation.
    ghost comes: { Self → List TokenRef → Ending → Type 0 };
    /// How much is left at most: it falls with each token.
    ghost left: { Self → ℕ };
    /// More may be drawn: neither END nor a bad place was given yet.
    ghost is_open: { Self → Bool };

    /// The next token, or how the tokens end.
    fn next(&mut self) -> Next
        requires { IsTrue (is_open self.old) }
        ensures drawn { (tokens : List TokenRef) (ending : Ending) → comes self.old tokens ending
            → Draws (comes self.new) tokens ending result }
        ensures goes_on { GoesOn result (is_open self.new) (left self.old) (left self.new) };
}
