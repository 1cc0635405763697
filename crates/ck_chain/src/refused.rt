// Why a stage has no text: a refusal, or want of memory.
ghost use Rattle.std.specs.Prelude.{◌≡◌};
ghost use Rattle.ck_chain.specs.within.Refusing.{refused_of};
ghost use Rattle.ck_chain.specs.declared.refused.Refused.TheVariants.{NoMemory as no_memory};

use ck_base::{NoMemory, Refusal, SpecFault};

/// Why there is no result.
#[derive(Debug, Drop)]
pub enum Refused {
    /// The specification or the source is refused.
    Refusal(Refusal),
    /// Memory was wanting.
    NoMemory,
}

impl From<NoMemory> for Refused {
    ghost from_gives = { λ _ refused. refused ≡ no_memory };

    fn from(_: NoMemory) -> Refused {
        Refused::NoMemory
    }
}

impl From<SpecFault> for Refused {
    ghost from_gives = { λ fault refused. refused ≡ refused_of fault };

    fn from(fault: SpecFault) -> Refused {
        match fault {
            SpecFault::Bad { line, kind } => Refused::Refusal(Refusal::BadSpec { line, kind }),
            SpecFault::NoMemory => Refused::NoMemory,
        }
    }
}
