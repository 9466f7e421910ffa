//! Why a declaration or a command is none.
use ale_term::ReadError;
use ale_text::Text;
use std::alloc::{AllocError, AllocFailed};
use thiserror::Error;

/// Why tokens are no declaration and no command.
#[derive(Debug, Drop, Error)]
pub enum FormError {
    /// They nest deeper than 200.
    #[error("TooDeep")]
    TooDeep,
    /// This word of ALE's language, the first of its kind in them, is left out of this one.
    #[error("OutOfProfile")]
    OutOfProfile(Text),
    /// They have none of the forms.
    #[error("NotADeclaration")]
    NotADeclaration,
    /// Memory ran out.
    #[error("NoMemory")]
    NoMemory,
}

impl From<AllocError> for FormError {
    ghost use Rattle.ale_form.specs.declared.error.FormError.TheVariants.{NoMemory};
    ghost use Rattle.std.specs.Prelude.{◌≡◌};

    ghost from_gives = { λ _ e. e ≡ NoMemory };

    fn from(_refused: AllocError) -> FormError {
        FormError::NoMemory
    }
}

impl<T: Drop> From<AllocFailed<T>> for FormError {
    ghost use Rattle.ale_form.specs.declared.error.FormError.TheVariants.{NoMemory};
    ghost use Rattle.std.specs.Prelude.{◌≡◌};

    ghost from_gives = { λ _ e. e ≡ NoMemory };

    fn from(_refused: AllocFailed<T>) -> FormError {
        FormError::NoMemory
    }
}

impl From<ReadError> for FormError {
    ghost use Rattle.ale_form.specs.Results.{form_error};
    ghost use Rattle.std.specs.Prelude.{◌≡◌};

    ghost from_gives = { λ r e. e ≡ form_error r };

    fn from(refused: ReadError) -> FormError {
        match refused {
            ReadError::NotTheForm => FormError::NotADeclaration,
            ReadError::NoMemory => FormError::NoMemory,
        }
    }
}
