//! Commands, each form of them, and each refusal.
ghost use Rattle.std.specs.List.{All};
ghost use Rattle.ale_token.specs.Places.{Stands};

use crate::show_terms::{push_form_error, push_goal, push_name, push_names, push_term};
use ale_command::{CommandTerm, read_command};
use ale_form::FormError;
use ale_token::{Token, tokens};
use std::alloc::{AllocError, Global};

/// Writes a command.
fn push_command(command: &CommandTerm, out: &mut String) -> Result<(), AllocError> {
    match command {
        CommandTerm::Mgsat(described) => {
            out.push_str("mgsat")?;
            push_term(described, out)
        }
        CommandTerm::Query(goal) => {
            out.push_str("query")?;
            push_goal(goal, out)
        }
        CommandTerm::Lex(word) => {
            out.push_str("lex")?;
            push_name(word, out)
        }
        CommandTerm::Rec(words) => {
            out.push_str("rec")?;
            push_names(words.as_slice(), out)
        }
        CommandTerm::Gen(described) => {
            out.push_str("gen")?;
            push_term(described, out)
        }
        CommandTerm::Code(name, arguments) => {
            out.push_str("code")?;
            push_name(name, out)?;
            write!(out, " {arguments}")
        }
    }
}

/// Writes what was read of a command.
fn push_commanded(
    read: &Result<CommandTerm, FormError>,
    out: &mut String,
) -> Result<(), AllocError> {
    match read {
        Ok(command) => push_command(command, out),
        Err(error) => push_form_error(error, out),
    }
}

/// Writes the command that the tokens of a text are.
fn push_tokens(
    alloc: Global,
    text: &str,
    list: &[Token],
    out: &mut String,
) -> Result<(), AllocError>
    requires { All (Stands text.now) list.now }
{
    let read = read_command(alloc, text, list);
    push_commanded(&read, out)
}

/// The command that a text is, without its end, as a text.
pub fn commanded(alloc: Global, text: &str) -> Result<String, AllocError> {
    let mut out = String::new(alloc);
    match tokens(alloc, text) {
        Ok(list) => push_tokens(alloc, text, list.as_slice(), &mut out)?,
        Err(_) => out.push_str("no tokens")?,
    }
    Ok(out)
}
