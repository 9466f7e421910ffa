//! The names that tokens stand for.
ghost use Rattle.std.specs.Prelude.{◌≡◌, IfOk, drop, string_bytes};
ghost use Rattle.std.specs.Str.{chars};
ghost use Rattle.ale_token.specs.Names.{name_of, unquoted, QuotesAreRead, QuotesMeanTheName};
ghost use Rattle.ale_token.specs.Places.{spelling, Stands};

use crate::spans::is_doubled;
use crate::token::{Kind, Token};
use std::alloc::{AllocError, Global};

/// The name that a token stands for: of a quoted one what stands between its quotes, where two quotes are one; of
/// any other its text.
pub fn name(alloc: Global, source: &str, token: &Token) -> Result<String, AllocError>
    requires { Stands source.now token.now }
    ensures { IfOk result (λ name. chars (string_bytes name) ≡ name_of token.now.kind (spelling source.now token.now)) }
{
    let text = token.text(source);
    match token.kind {
        Kind::Quoted => name_in_quotes(alloc, text),
        _ => String::from_str(alloc, text),
    }
}

/// Each name can be written between quotes, with two quotes for each, and is read back.
pub fn quoted_names()
    ensures reads { QuotesAreRead }
    ensures means { QuotesMeanTheName }
{}

/// The name between these quotes.
fn name_in_quotes(alloc: Global, text: &str) -> Result<String, AllocError>
    ensures { IfOk result (λ name. chars (string_bytes name) ≡ unquoted (drop 1 (chars text.now))) }
{
    let characters: Vec<char> = text.chars().collect(alloc)?;
    match characters.as_slice() {
        [_, rest @ ..] => unquoted(alloc, rest),
        [] => Ok(String::new(alloc)),
    }
}

/// The name that these characters stand for, up to the quote that closes it.
fn unquoted(alloc: Global, inside: &[char]) -> Result<String, AllocError>
    ensures { IfOk result (λ name. chars (string_bytes name) ≡ unquoted inside.now) }
{
    let mut name = String::new(alloc);
    let mut rest = inside;
    while let [c, after @ ..] = rest {
        if *c != '\'' {
            name.push(*c)?;
            rest = after;
        } else if is_doubled(after) {
            name.push('\'')?;
            rest = &after[1..];
        } else {
            return Ok(name);
        }
    }
    Ok(name)
}
