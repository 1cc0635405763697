// Why a derivation has no tree within the limits.
ghost use Rattle.std.specs.Prelude.{◌≡◌};
ghost use Rattle.tree_build.specs.declared.error.BuildError.TheVariants.{NoMemory};

use std::alloc::AllocFailed;

/// Why there is no tree.
#[derive(Clone, Copy, Debug, PartialEq, Eq)]
pub enum BuildError {
    /// The tree would have more than 1,048,576 nodes.
    TooLarge,
    /// Memory was wanting, or numbers for tokens: there are 4,294,967,295 steps or more.
    NoMemory,
}

impl From<value_store::NoMemory> for BuildError {
    ghost from_gives = { λ _ e. e ≡ NoMemory };

    fn from(_: value_store::NoMemory) -> BuildError {
        BuildError::NoMemory
    }
}

impl<T: Drop> From<AllocFailed<T>> for BuildError {
    ghost from_gives = { λ _ e. e ≡ NoMemory };

    fn from(_: AllocFailed<T>) -> BuildError {
        BuildError::NoMemory
    }
}
