// Refusals of a grammar for LALR(1), in their order.
ghost use Rattle.std.specs.Prelude.{◌≡◌};
ghost use Rattle.cfg_model.specs.declared.refused.LalrError.TheVariants.{NoMemory};

use std::alloc::{AllocError, AllocFailed};

/// Why a grammar has no LALR(1) table. The variants stand in the order in which they are looked for.
#[derive(Clone, Copy, Debug, PartialEq, Eq)]
pub enum LalrError {
    /// This is the least nonterminal that derives no word.
    Unproductive(u32),
    /// This is the least reachable nonterminal that derives itself in one or more steps.
    Cyclic(u32),
    /// This is the least reachable nonterminal that derives, in one or more steps, a list in which it
    /// stands behind what isn't empty and vanishes.
    HiddenLeft(u32),
    /// The grammar has more than 4,096 cores.
    TooManyStates,
    /// On `terminal` the complete item of `rule` stands beside a shift (`other` is `None`) or beside the
    /// complete item of another rule.
    LalrConflict {
        terminal: u32,
        rule: u32,
        other: Option<u32>,
    },
    /// Memory was wanting.
    NoMemory,
}

impl From<ck_base::NoMemory> for LalrError {
    ghost from_gives = { λ _ e. e ≡ NoMemory };

    fn from(_: ck_base::NoMemory) -> LalrError {
        LalrError::NoMemory
    }
}

impl From<AllocError> for LalrError {
    ghost from_gives = { λ _ e. e ≡ NoMemory };

    fn from(_: AllocError) -> LalrError {
        LalrError::NoMemory
    }
}

impl<T: Drop> From<AllocFailed<T>> for LalrError {
    ghost from_gives = { λ _ e. e ≡ NoMemory };

    fn from(_: AllocFailed<T>) -> LalrError {
        LalrError::NoMemory
    }
}
