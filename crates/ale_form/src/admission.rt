//! What stands against any form.
ghost use Rattle.std.specs.Prelude.{◌≡◌};
ghost use Rattle.ale_form.specs.Results.{Gives, admitted, form_result};

use crate::error::FormError;
use crate::left_out::left_out;
use crate::nesting::{nesting_limit, passes};
use ale_term::{Lexeme, ReadError};
use std::alloc::Global;

/// Whether the lexemes of a declaration or a command, without its end, nest no deeper than 200 and have no word that is
/// left out, whatever their form is. The calls of the readers nest as deep as the lexemes do.
///
/// # Errors
///
/// `TooDeep` exactly where they nest deeper than 200; else `OutOfProfile(word)` exactly where a word is left out, with the
/// first; and `NoMemory` where memory runs out; never `NotADeclaration`.
pub fn check(alloc: Global, lexemes: &[Lexeme]) -> Result<(), FormError>
    ensures { Gives (λ u. u) result (admitted lexemes.now) }
{
    if passes(alloc, lexemes, nesting_limit())? {
        return Err(FormError::TooDeep);
    }
    match left_out(alloc, lexemes)? {
        None => Ok(()),
        Some(word) => Err(FormError::OutOfProfile(word)),
    }
}

/// What was read of lexemes that `check` passes: where it is not of the form, they are no declaration and no command.
///
/// # Errors
///
/// `NotADeclaration` for `NotTheForm`, and `NoMemory` for `NoMemory`.
pub fn formed<T: Drop>(read: Result<T, ReadError>) -> Result<T, FormError>
    ensures { result ≡ form_result read }
{
    match read {
        Ok(found) => Ok(found),
        Err(ReadError::NotTheForm) => Err(FormError::NotADeclaration),
        Err(ReadError::NoMemory) => Err(FormError::NoMemory),
    }
}
