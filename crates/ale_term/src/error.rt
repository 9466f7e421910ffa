//! Why nothing is read.
use std::alloc::{AllocError, AllocFailed};
use thiserror::Error;

/// Why lexemes were not read.
#[derive(Debug, Drop, Error)]
pub enum ReadError {
    /// Nothing of the form stands at the start.
    #[error("NotTheForm")]
    NotTheForm,
    /// Memory ran out.
    #[error("NoMemory")]
    NoMemory,
}

impl From<AllocError> for ReadError {
    ghost use Rattle.ale_term.specs.declared.error.ReadError.TheVariants.{NoMemory};
    ghost use Rattle.std.specs.Prelude.{◌≡◌};

    ghost from_gives = { λ _ e. e ≡ NoMemory };

    fn from(_refused: AllocError) -> ReadError {
        ReadError::NoMemory
    }
}

impl<T: Drop> From<AllocFailed<T>> for ReadError {
    ghost use Rattle.ale_term.specs.declared.error.ReadError.TheVariants.{NoMemory};
    ghost use Rattle.std.specs.Prelude.{◌≡◌};

    ghost from_gives = { λ _ e. e ≡ NoMemory };

    fn from(_refused: AllocFailed<T>) -> ReadError {
        ReadError::NoMemory
    }
}
