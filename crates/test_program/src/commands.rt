//! Commands that are read, and the refusals of others.
ghost use Rattle.ale_load.specs.Grammars.{FitsLoaded};
ghost use Rattle.ale_load.specs.Views.{loaded_data};

use crate::names::push_name_error;
use ale_load::{CommandError, Loaded, Query, load, read_commands};
use std::alloc::{AllocError, Global};
use test_support::bytes_of;

/// Writes the variables of what is asked for.
fn push_variables(query: &Query, out: &mut String) -> Result<(), AllocError> {
    out.push_str("variables")?;
    for name in query.names.as_slice() {
        out.push_str(" ")?;
        out.push_str(name.as_str())?;
    }
    out.push('\n')
}

/// Writes why commands are refused.
fn push_error(error: &CommandError, out: &mut String) -> Result<(), AllocError> {
    match error {
        CommandError::TooLong => out.push_str("TooLong\n"),
        CommandError::NotText(place) => write!(out, "NotText {place}\n"),
        CommandError::BadToken(place) => write!(out, "BadToken {place}\n"),
        CommandError::NoEnd(place) => write!(out, "NoEnd {place}\n"),
        CommandError::BadCommand(number) => write!(out, "{number} BadCommand\n"),
        CommandError::NotBuilt(number) => write!(out, "{number} NotBuilt\n"),
        CommandError::Name(number, error) => {
            write!(out, "{number} ")?;
            push_name_error(error, out)?;
            out.push('\n')
        }
        CommandError::NoMemory => out.push_str("NoMemory\n"),
    }
}

/// Writes what commands are read as.
fn push_read(read: &Result<Vec<Query>, CommandError>, out: &mut String) -> Result<(), AllocError> {
    match read {
        Ok(queries) => {
            for query in queries.as_slice() {
                push_variables(query, out)?;
            }
            Ok(())
        }
        Err(error) => push_error(error, out),
    }
}

/// What commands are read as over an accepted grammar.
fn asked(alloc: Global, loaded: &Loaded, bytes: &[u8]) -> Result<String, AllocError>
    requires { FitsLoaded (loaded_data loaded.now) }
{
    let mut out = String::new(alloc);
    push_read(&read_commands(alloc, bytes, loaded), &mut out)?;
    Ok(out)
}

/// What commands are read as over a grammar that is not loaded yet.
fn asked_over(alloc: Global, grammar: &[u8], bytes: &[u8]) -> Result<String, AllocError> {
    match load(alloc, grammar) {
        Ok(loaded) => asked(alloc, &loaded, bytes),
        Err(_error) => String::from_str(alloc, "no grammar\n"),
    }
}

/// What commands are read as over a grammar.
pub fn commands_of(alloc: Global, grammar: &str, commands: &str) -> Result<String, AllocError> {
    let bytes = bytes_of(alloc, commands)?;
    asked_over(alloc, grammar.as_bytes(), bytes.as_slice())
}
