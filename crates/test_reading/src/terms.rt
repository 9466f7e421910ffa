//! Lexemes, and what is read at their start.
use crate::show_terms::{push_goal, push_left, push_names, push_read_error, push_term, push_terms};
use ale_term::{
    GoalTerm, Lexeme, ReadError, Term, add, atoms, call, description, element, goal, goal_element,
    joined, lexemes,
};
use ale_text::{Row, Text};
use ale_token::tokens;
use sqlite_items::Items;
use std::alloc::{AllocError, Global};

/// The lexemes of a text; none where it has no tokens.
pub fn lexemes_of(alloc: Global, text: &str) -> Result<Vec<Lexeme>, AllocError> {
    match tokens(alloc, text) {
        Ok(list) => lexemes(alloc, text, list.as_slice()),
        Err(_) => Ok(Vec::new(alloc)),
    }
}

/// Writes a lexeme.
fn push_lexeme(lexeme: &Lexeme, out: &mut String) -> Result<(), AllocError> {
    match lexeme {
        Lexeme::Atom(name) => {
            let name = name.as_str();
            write!(out, " atom {name}")
        }
        Lexeme::Quoted(name) => {
            let name = name.as_str();
            write!(out, " quoted {name}")
        }
        Lexeme::Variable(name) => {
            let name = name.as_str();
            write!(out, " variable {name}")
        }
        Lexeme::Number(digits) => {
            let digits = digits.as_str();
            write!(out, " number {digits}")
        }
        Lexeme::Sign(symbol) => write!(out, " {symbol:?}"),
        Lexeme::Other => out.push_str(" other"),
        Lexeme::End => out.push_str(" end"),
    }
}

/// The lexemes of a text, as a text.
pub fn lexemes_shown(alloc: Global, text: &str) -> Result<String, AllocError> {
    let found = lexemes_of(alloc, text)?;
    let mut out = String::new(alloc);
    for lexeme in found.as_slice() {
        push_lexeme(lexeme, &mut out)?;
    }
    Ok(out)
}

/// Writes a description that was read, and how many lexemes are left.
fn push_read(
    read: &Result<(Term, &[Lexeme]), ReadError>,
    out: &mut String,
) -> Result<(), AllocError> {
    match read {
        Ok((term, rest)) => {
            push_term(term, out)?;
            push_left(rest, out)
        }
        Err(error) => push_read_error(error, out),
    }
}

/// The description at the start of a text, as a text.
pub fn description_of(alloc: Global, text: &str) -> Result<String, AllocError> {
    let found = lexemes_of(alloc, text)?;
    let mut out = String::new(alloc);
    push_read(&description(alloc, found.as_slice()), &mut out)?;
    Ok(out)
}

/// The description of an element of a rule at the start of a text, as a text.
pub fn element_of(alloc: Global, text: &str) -> Result<String, AllocError> {
    let found = lexemes_of(alloc, text)?;
    let mut out = String::new(alloc);
    push_read(&element(alloc, found.as_slice()), &mut out)?;
    Ok(out)
}

/// Writes a call that was read, and how many lexemes are left.
fn push_call(
    read: &Result<((Text, Items<Term>), &[Lexeme]), ReadError>,
    out: &mut String,
) -> Result<(), AllocError> {
    match read {
        Ok(((name, arguments), rest)) => {
            out.push_str(name.as_str())?;
            push_terms(arguments.as_slice(), out)?;
            push_left(rest, out)
        }
        Err(error) => push_read_error(error, out),
    }
}

/// The call at the start of a text, as a text.
pub fn call_of(alloc: Global, text: &str) -> Result<String, AllocError> {
    let found = lexemes_of(alloc, text)?;
    let mut out = String::new(alloc);
    push_call(&call(alloc, found.as_slice()), &mut out)?;
    Ok(out)
}

/// Writes a goal that was read, and how many lexemes are left.
fn push_goal_read(
    read: &Result<(GoalTerm, &[Lexeme]), ReadError>,
    out: &mut String,
) -> Result<(), AllocError> {
    match read {
        Ok((goal, rest)) => {
            push_goal(goal, out)?;
            push_left(rest, out)
        }
        Err(error) => push_read_error(error, out),
    }
}

/// The goal at the start of a text, as a text.
pub fn goal_of(alloc: Global, text: &str) -> Result<String, AllocError> {
    let found = lexemes_of(alloc, text)?;
    let mut out = String::new(alloc);
    push_goal_read(&goal(alloc, found.as_slice()), &mut out)?;
    Ok(out)
}

/// The goal of an element of a rule at the start of a text, as a text.
pub fn goal_element_of(alloc: Global, text: &str) -> Result<String, AllocError> {
    let found = lexemes_of(alloc, text)?;
    let mut out = String::new(alloc);
    push_goal_read(&goal_element(alloc, found.as_slice()), &mut out)?;
    Ok(out)
}

/// Writes atoms that were read, and how many lexemes are left.
fn push_atoms(
    read: &Result<(Row<Text>, &[Lexeme]), ReadError>,
    out: &mut String,
) -> Result<(), AllocError> {
    match read {
        Ok((names, rest)) => {
            push_names(names.as_slice(), out)?;
            push_left(rest, out)
        }
        Err(error) => push_read_error(error, out),
    }
}

/// The atoms at the start of a text, as a text.
pub fn atoms_of(alloc: Global, text: &str) -> Result<String, AllocError> {
    let found = lexemes_of(alloc, text)?;
    let mut out = String::new(alloc);
    push_atoms(&atoms(alloc, found.as_slice()), &mut out)?;
    Ok(out)
}

/// Writes numbers that were joined.
fn push_joined(read: &Result<Vec<u32>, ReadError>, out: &mut String) -> Result<(), AllocError> {
    match read {
        Ok(numbers) => {
            for number in numbers.as_slice() {
                write!(out, " {number}")?;
            }
            Ok(())
        }
        Err(error) => push_read_error(error, out),
    }
}

/// The numbers 7, 1 and 2, of which the first was put before the others and the last after them.
pub fn joined_numbers(alloc: Global) -> Result<String, AllocError> {
    let mut others = Vec::new(alloc);
    others.push(1)?;
    add(&mut others, 2)?;
    let mut out = String::new(alloc);
    push_joined(&joined(alloc, 7, others), &mut out)?;
    Ok(out)
}
