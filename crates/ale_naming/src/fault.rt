//! Why declarations are refused after they were read.
use ale_vocabulary::NameError;
use std::alloc::{AllocError, AllocFailed};
use thiserror::Error;

/// Why declarations are refused after they were read.
#[derive(Debug, Drop, Error)]
pub enum NameFault {
    /// The declaration with this number, counted from 1, has the first fault.
    #[error("At")]
    At(usize, NameError),
    /// Memory ran out.
    #[error("NoMemory")]
    NoMemory,
}

impl From<AllocError> for NameFault {
    ghost use Rattle.ale_naming.specs.declared.fault.NameFault.TheVariants.{NoMemory};
    ghost use Rattle.std.specs.Prelude.{◌≡◌};

    ghost from_gives = { λ _ e. e ≡ NoMemory };

    fn from(_refused: AllocError) -> NameFault {
        NameFault::NoMemory
    }
}

impl<T: Drop> From<AllocFailed<T>> for NameFault {
    ghost use Rattle.ale_naming.specs.declared.fault.NameFault.TheVariants.{NoMemory};
    ghost use Rattle.std.specs.Prelude.{◌≡◌};

    ghost from_gives = { λ _ e. e ≡ NoMemory };

    fn from(_refused: AllocFailed<T>) -> NameFault {
        NameFault::NoMemory
    }
}
