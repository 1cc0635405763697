// Why a run stops before its output.
ghost use Rattle.std.specs.Prelude.{◌≡◌};
ghost use Rattle.ck_tool.specs.within.Stops.{stop_of};

use ck_base::Refusal;
use ck_chain::Refused;

/// Why there is no output.
#[derive(Drop)]
pub(crate) enum Stop {
    /// The specification or the source is refused.
    Refused(Refusal),
    /// A read of the specification or of the source failed.
    ReadFault,
    /// Memory was wanting.
    NoMemory,
}

impl From<Refused> for Stop {
    ghost from_gives = { λ refused stop. stop ≡ stop_of refused };

    fn from(refused: Refused) -> Stop {
        match refused {
            Refused::Refusal(refusal) => Stop::Refused(refusal),
            Refused::NoMemory => Stop::NoMemory,
        }
    }
}
