// The kind and line of a specification's first fault.
ghost use Rattle.std.specs.Prelude.{◌≡◌};
ghost use Rattle.ck_base.specs.declared.fault.SpecFault.TheVariants.{NoMemory};

use std::alloc::{AllocError, AllocFailed};
use value_store::NoMemory;

/// What is wrong with a line of a specification.
#[derive(Clone, Copy, Debug, PartialEq, Eq)]
pub enum Kind {
    /// The sections don't stand as they must.
    Section,
    /// The line has none of its section's shapes.
    Syntax,
    /// The line exceeds a limit.
    Limit,
    /// The line declares again what is declared.
    Twice,
    /// The line names what isn't declared.
    Unknown,
    /// The line has an expression or a part of the wrong type. It is printed as `type`.
    Typing,
}

/// Why a specification isn't read.
#[derive(Clone, Copy, Debug, PartialEq, Eq)]
pub enum SpecFault {
    /// The fault stands in this line; lines are numbered from 1.
    Bad { line: u32, kind: Kind },
    /// Memory was wanting.
    NoMemory,
}

impl From<NoMemory> for SpecFault {
    ghost from_gives = { λ _ e. e ≡ NoMemory };

    fn from(_: NoMemory) -> SpecFault {
        SpecFault::NoMemory
    }
}

impl From<AllocError> for SpecFault {
    ghost from_gives = { λ _ e. e ≡ NoMemory };

    fn from(_: AllocError) -> SpecFault {
        SpecFault::NoMemory
    }
}

impl<T: Drop> From<AllocFailed<T>> for SpecFault {
    ghost from_gives = { λ _ e. e ≡ NoMemory };

    fn from(_: AllocFailed<T>) -> SpecFault {
        SpecFault::NoMemory
    }
}
