use ale_vocabulary::NameError;
use std::alloc::{AllocError, AllocFailed};
use thiserror::Error;

/// Why commands are refused: the first of these that holds. Commands are counted from 1.
#[derive(Debug, Drop, Error)]
pub enum CommandError {
    /// The file has more than 4,194,304 bytes.
    #[error("TooLong")]
    TooLong,
    /// So long is its longest prefix that is UTF-8, in bytes.
    #[error("NotText")]
    NotText(usize),
    /// No token begins at this byte, and all before it is tokens, layout and comments.
    #[error("BadToken")]
    BadToken(usize),
    /// Tokens stand after the last end, and the first of them begins at this byte.
    #[error("NoEnd")]
    NoEnd(usize),
    /// This command, the first such, is none.
    #[error("BadCommand")]
    BadCommand(usize),
    /// This command, the first such, is of a form that is read but not built.
    #[error("NotBuilt")]
    NotBuilt(usize),
    /// This command, the first such, has a name that is not known, or is too large when all macros are put in.
    #[error("Name")]
    Name(usize, NameError),
    /// Memory ran out.
    #[error("NoMemory")]
    NoMemory,
}

impl From<AllocError> for CommandError {
    ghost use Rattle.ale_load.specs.declared.command_error.CommandError.TheVariants.{NoMemory};
    ghost use Rattle.std.specs.Prelude.{◌≡◌};

    ghost from_gives = { λ _ e. e ≡ NoMemory };

    fn from(_refused: AllocError) -> CommandError {
        CommandError::NoMemory
    }
}

impl<T: Drop> From<AllocFailed<T>> for CommandError {
    ghost use Rattle.ale_load.specs.declared.command_error.CommandError.TheVariants.{NoMemory};
    ghost use Rattle.std.specs.Prelude.{◌≡◌};

    ghost from_gives = { λ _ e. e ≡ NoMemory };

    fn from(_refused: AllocFailed<T>) -> CommandError {
        CommandError::NoMemory
    }
}
