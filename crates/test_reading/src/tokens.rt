//! Tokens, the names of tokens, and the declarations that tokens are cut into.
ghost use Rattle.std.specs.List.{All};
ghost use Rattle.ale_token.specs.Places.{Stands};

use ale_token::{Token, TokenError, cut_declarations, name, tokens};
use std::alloc::{AllocError, Global};

/// Writes the kind and the text of a token.
fn push_token(text: &str, token: &Token, out: &mut String) -> Result<(), AllocError>
    requires { Stands text.now token.now }
{
    let kind = token.kind;
    let part = token.text(text);
    write!(out, " {kind:?} {part}")
}

/// Writes tokens one after the other.
fn push_tokens(text: &str, list: &[Token], out: &mut String) -> Result<(), AllocError>
    requires { All (Stands text.now) list.now }
{
    for token in list {
        push_token(text, token, out)?;
    }
    Ok(())
}

/// Writes why there are no tokens or no declarations.
fn push_error(error: &TokenError, out: &mut String) -> Result<(), AllocError> {
    write!(out, "{error:?} {error}")
}

/// The tokens of a text.
pub fn tokens_of(alloc: Global, text: &str) -> Result<String, AllocError> {
    let mut out = String::new(alloc);
    match tokens(alloc, text) {
        Ok(list) => push_tokens(text, list.as_slice(), &mut out)?,
        Err(error) => push_error(&error, &mut out)?,
    }
    Ok(out)
}

/// How many tokens a text has, and how many declarations they are cut into.
fn push_counts(alloc: Global, list: &[Token], out: &mut String) -> Result<(), AllocError> {
    let count = list.len();
    write!(out, "{count} tokens, ")?;
    match cut_declarations(alloc, list) {
        Ok(ranges) => {
            let cut = ranges.len();
            write!(out, "{cut} declarations")
        }
        Err(error) => push_error(&error, out),
    }
}

/// The same of a text.
pub fn counts_of(alloc: Global, text: &str) -> Result<String, AllocError> {
    let mut out = String::new(alloc);
    match tokens(alloc, text) {
        Ok(list) => push_counts(alloc, list.as_slice(), &mut out)?,
        Err(error) => push_error(&error, &mut out)?,
    }
    Ok(out)
}

/// Writes where the declarations begin and end.
fn push_cuts(alloc: Global, list: &[Token], out: &mut String) -> Result<(), AllocError> {
    match cut_declarations(alloc, list) {
        Ok(ranges) => {
            for (from, to) in ranges.as_slice() {
                write!(out, " {from} to {to}")?;
            }
            Ok(())
        }
        Err(error) => push_error(&error, out),
    }
}

/// The declarations of a text, by the numbers of their tokens.
pub fn cuts_of(alloc: Global, text: &str) -> Result<String, AllocError> {
    let mut out = String::new(alloc);
    match tokens(alloc, text) {
        Ok(list) => push_cuts(alloc, list.as_slice(), &mut out)?,
        Err(error) => push_error(&error, &mut out)?,
    }
    Ok(out)
}

/// The name of the first of the tokens.
fn name_of(alloc: Global, text: &str, list: &[Token]) -> Result<String, AllocError>
    requires { All (Stands text.now) list.now }
{
    match list {
        [first, ..] => name(alloc, text, first),
        [] => String::from_str(alloc, "no token"),
    }
}

/// The name of the first token of a text.
pub fn first_name(alloc: Global, text: &str) -> Result<String, AllocError> {
    match tokens(alloc, text) {
        Ok(list) => name_of(alloc, text, list.as_slice()),
        Err(_) => String::from_str(alloc, "no tokens"),
    }
}
