//! What a text is cut into, and why it is not.
use std::alloc::{AllocError, AllocFailed};
use thiserror::Error;

/// What a token is.
#[derive(Clone, Copy, Debug, PartialEq, Eq)]
pub enum Kind {
    /// A plain name, such as `ne_list`.
    Atom,
    /// A name between single quotes.
    Quoted,
    /// A name that begins with one of A to Z or with `_`.
    Variable,
    /// ASCII digits.
    Number,
    /// A symbol of the language, such as `--->`.
    Symbol,
    /// Any other character that the language has, or a text between double quotes.
    Other,
    /// The `.` that ends a declaration.
    End,
}

/// A token. Its text is the bytes from `from` to `to` of the source, the latter not among them.
#[derive(Clone, Copy, Debug, PartialEq, Eq)]
pub struct Token {
    pub kind: Kind,
    pub from: usize,
    pub to: usize,
}

impl Token {
    ghost use Rattle.std.specs.Prelude.{◌≡◌};
    ghost use Rattle.std.specs.Str.{chars};
    ghost use Rattle.ale_token.specs.Places.{spelling, Stands};

    /// The token's text in the source that it was read from.
    pub fn text<'a>(&self, source: &'a str) -> &'a str
        requires { Stands source.now self.now }
        ensures { chars result.now ≡ spelling source.now self.now }
    {
        &source[self.from..self.to]
    }
}

/// Why a text has no tokens, or tokens no declarations.
#[derive(Clone, Copy, Debug, PartialEq, Eq, Error)]
pub enum TokenError {
    /// No token begins at this byte, and all before it is tokens, layout and comments.
    #[error("BadToken")]
    BadToken(usize),
    /// Tokens stand after the last end, and the first of them begins at this byte.
    #[error("NoEnd")]
    NoEnd(usize),
    /// Memory ran out.
    #[error("NoMemory")]
    NoMemory,
}

impl From<AllocError> for TokenError {
    ghost use Rattle.std.specs.Prelude.{◌≡◌};
    ghost use Rattle.ale_token.specs.declared.token.TokenError.TheVariants.{NoMemory};

    ghost from_gives = { λ _ error. error ≡ NoMemory };

    fn from(_error: AllocError) -> TokenError {
        TokenError::NoMemory
    }
}

impl<T: Drop> From<AllocFailed<T>> for TokenError {
    ghost use Rattle.std.specs.Prelude.{◌≡◌};
    ghost use Rattle.ale_token.specs.declared.token.TokenError.TheVariants.{NoMemory};

    ghost from_gives = { λ _ error. error ≡ NoMemory };

    fn from(_error: AllocFailed<T>) -> TokenError {
        TokenError::NoMemory
    }
}
