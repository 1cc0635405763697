// Refusals of a grammar for LL(1), in their order.
ghost use Rattle.std.specs.Prelude.{◌≡◌};
ghost use Rattle.ell_tables.specs.declared.refusal.EllError.TheVariants.{NoMemory};

/// Why a grammar has no LL(1) table. The variants stand in the order in which they are looked for.
#[derive(Clone, Copy, Debug, PartialEq, Eq)]
pub enum EllError {
    /// This is the least nonterminal that derives no word.
    Unproductive(u32),
    /// This is the least reachable nonterminal that derives, in one or more steps, a list in which
    /// nothing stands before it, or what vanishes.
    LeftRecursive(u32),
    /// Two rules of `nonterminal` are for `terminal`, which may be END: `rule`, and `other` behind it;
    /// rules count from 1.
    LlConflict {
        nonterminal: u32,
        rule: u32,
        other: u32,
        terminal: u32,
    },
    /// Memory was wanting.
    NoMemory,
}

impl From<ck_base::NoMemory> for EllError {
    ghost from_gives = { λ _ e. e ≡ NoMemory };

    fn from(_: ck_base::NoMemory) -> EllError {
        EllError::NoMemory
    }
}
