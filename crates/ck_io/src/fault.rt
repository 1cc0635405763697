// Why a file can't be loaded, and that a text can't be put.
ghost use Rattle.std.specs.Prelude.{◌≡◌};
ghost use Rattle.ck_io.specs.declared.fault.LoadError.TheVariants.{ReadFault, NoMemory};

use crate::files::Failed;
use std::alloc::AllocError;
use thiserror::Error;

/// Why a file isn't loaded.
#[derive(Clone, Copy, Debug, PartialEq, Eq, Error)]
pub enum LoadError {
    /// A read of the file failed.
    #[error("read fault")]
    ReadFault,
    /// The file has more bytes than the limit.
    #[error("too long")]
    TooLong,
    /// Memory was wanting.
    #[error("out of memory")]
    NoMemory,
}

impl From<Failed> for LoadError {
    ghost from_gives = { λ _ error. error ≡ ReadFault };

    fn from(_: Failed) -> LoadError {
        LoadError::ReadFault
    }
}

impl From<AllocError> for LoadError {
    ghost from_gives = { λ _ error. error ≡ NoMemory };

    fn from(_: AllocError) -> LoadError {
        LoadError::NoMemory
    }
}

/// A put failed before all bytes were taken.
#[derive(Clone, Copy, Debug, PartialEq, Eq, Error)]
#[error("write fault")]
pub struct WriteFault {
    /// How many bytes were taken before.
    pub written: usize,
}
