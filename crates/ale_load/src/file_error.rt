use ale_token::TokenError;
use thiserror::Error;

/// Why a file is not cut into its declarations or commands.
#[derive(Clone, Copy, Debug, Error)]
pub enum FileError {
    /// It has more than 4,194,304 bytes.
    #[error("TooLong")]
    TooLong,
    /// So long is its longest prefix that is UTF-8, in bytes.
    #[error("NotText")]
    NotText(usize),
    /// Its text has no tokens, or they lack an end. It never holds that memory ran out.
    #[error("Unread")]
    Unread(TokenError),
    /// Memory ran out.
    #[error("NoMemory")]
    NoMemory,
}
