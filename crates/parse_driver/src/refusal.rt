// Why tokens have no derivation: the first wrong token, a bad place, or want of memory.
ghost use Rattle.std.specs.Prelude.{◌≡◌};
ghost use Rattle.parse_driver.specs.declared.refusal.ParseError.TheVariants.{NoMemory};

use std::alloc::AllocFailed;

/// Why tokens have no derivation.
#[derive(Clone, Copy, Debug, PartialEq, Eq)]
pub enum ParseError {
    /// No sentence begins with the tokens up to the `k`-th, which stands at `at`; but one does with those
    /// before it. Tokens count from 1, and END is one of them.
    SyntaxError { k: u32, at: u32 },
    /// At `at` no token begins, and a sentence begins with all tokens before it.
    BadToken { at: u32 },
    /// Memory was wanting.
    NoMemory,
}

impl From<ck_base::NoMemory> for ParseError {
    ghost from_gives = { λ _ e. e ≡ NoMemory };

    fn from(_: ck_base::NoMemory) -> ParseError {
        ParseError::NoMemory
    }
}

impl<T: Drop> From<AllocFailed<T>> for ParseError {
    ghost from_gives = { λ _ e. e ≡ NoMemory };

    fn from(_: AllocFailed<T>) -> ParseError {
        ParseError::NoMemory
    }
}
