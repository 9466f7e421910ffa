use ale_vocabulary::NameError;
use std::alloc::{AllocError, AllocFailed};
use thiserror::Error;

/// Why a description or a goal is refused.
#[derive(Debug, Drop, Error)]
pub enum MeaningError {
    /// The fault of its first name that is not known; else `TooBig` where it is too large.
    #[error("Name")]
    Name(NameError),
    /// Memory ran out.
    #[error("NoMemory")]
    NoMemory,
}

impl From<AllocError> for MeaningError {
    ghost use Rattle.ale_describe.specs.declared.meaning_error.MeaningError.TheVariants.{NoMemory};
    ghost use Rattle.std.specs.Prelude.{◌≡◌};

    ghost from_gives = { λ _ e. e ≡ NoMemory };

    fn from(_refused: AllocError) -> MeaningError {
        MeaningError::NoMemory
    }
}

impl<T: Drop> From<AllocFailed<T>> for MeaningError {
    ghost use Rattle.ale_describe.specs.declared.meaning_error.MeaningError.TheVariants.{NoMemory};
    ghost use Rattle.std.specs.Prelude.{◌≡◌};

    ghost from_gives = { λ _ e. e ≡ NoMemory };

    fn from(_refused: AllocFailed<T>) -> MeaningError {
        MeaningError::NoMemory
    }
}
