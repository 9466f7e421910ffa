use ale_form::FormError;
use ale_signature::SigError;
use ale_token::TokenError;
use ale_vocabulary::NameError;
use std::alloc::{AllocError, AllocFailed};
use thiserror::Error;

/// Why a grammar is refused: the first of these that holds. Declarations are counted from 1.
#[derive(Debug, Drop, Error)]
pub enum GrammarError {
    /// It has more than 4,194,304 bytes.
    #[error("TooLong")]
    TooLong,
    /// So long is its longest prefix that is UTF-8, in bytes.
    #[error("NotText")]
    NotText(usize),
    /// No token begins at a byte, or tokens lack an end. It never holds that memory ran out.
    #[error("Token")]
    Token(TokenError),
    /// This declaration, the first such, is refused. It never holds that memory ran out.
    #[error("Form")]
    Form(usize, FormError),
    /// This declaration, the first such, is of a form that is read but not built.
    #[error("NotBuilt")]
    NotBuilt(usize),
    /// The signature is refused. It never holds that memory ran out.
    #[error("Signature")]
    Signature(SigError),
    /// This declaration has the first fault of names.
    #[error("Names")]
    Names(usize, NameError),
    /// Memory ran out.
    #[error("NoMemory")]
    NoMemory,
}

impl From<AllocError> for GrammarError {
    ghost use Rattle.ale_load.specs.declared.grammar_error.GrammarError.TheVariants.{NoMemory};
    ghost use Rattle.std.specs.Prelude.{◌≡◌};

    ghost from_gives = { λ _ e. e ≡ NoMemory };

    fn from(_refused: AllocError) -> GrammarError {
        GrammarError::NoMemory
    }
}

impl<T: Drop> From<AllocFailed<T>> for GrammarError {
    ghost use Rattle.ale_load.specs.declared.grammar_error.GrammarError.TheVariants.{NoMemory};
    ghost use Rattle.std.specs.Prelude.{◌≡◌};

    ghost from_gives = { λ _ e. e ≡ NoMemory };

    fn from(_refused: AllocFailed<T>) -> GrammarError {
        GrammarError::NoMemory
    }
}
