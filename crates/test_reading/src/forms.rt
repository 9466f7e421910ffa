//! What stands against forms, forms that are all of the lexemes, and numbers.
use crate::show_terms::{push_form_error, push_goal, push_names, push_read_error, push_term};
use crate::terms::lexemes_of;
use ale_form::{
    FormError, check, ended, held_number, number_at, whole_description, whole_goal, whole_path,
};
use ale_term::{GoalTerm, Lexeme, ReadError, Term};
use ale_text::{Row, Text};
use std::alloc::{AllocError, Global};

/// Writes what stands against lexemes.
fn push_checked(checked: &Result<(), FormError>, out: &mut String) -> Result<(), AllocError> {
    match checked {
        Ok(()) => out.push_str("nothing"),
        Err(error) => push_form_error(error, out),
    }
}

/// What stands against a text.
pub fn checked(alloc: Global, text: &str) -> Result<String, AllocError> {
    let found = lexemes_of(alloc, text)?;
    let mut out = String::new(alloc);
    push_checked(&check(alloc, found.as_slice()), &mut out)?;
    Ok(out)
}

/// Writes a description that was read.
fn push_whole(read: &Result<Term, ReadError>, out: &mut String) -> Result<(), AllocError> {
    match read {
        Ok(term) => push_term(term, out),
        Err(error) => push_read_error(error, out),
    }
}

/// The description that a text is.
pub fn whole_description_of(alloc: Global, text: &str) -> Result<String, AllocError> {
    let found = lexemes_of(alloc, text)?;
    let mut out = String::new(alloc);
    push_whole(&whole_description(alloc, found.as_slice()), &mut out)?;
    Ok(out)
}

/// Writes a goal that was read.
fn push_whole_goal(read: &Result<GoalTerm, ReadError>, out: &mut String) -> Result<(), AllocError> {
    match read {
        Ok(goal) => push_goal(goal, out),
        Err(error) => push_read_error(error, out),
    }
}

/// The goal that a text is.
pub fn whole_goal_of(alloc: Global, text: &str) -> Result<String, AllocError> {
    let found = lexemes_of(alloc, text)?;
    let mut out = String::new(alloc);
    push_whole_goal(&whole_goal(alloc, found.as_slice()), &mut out)?;
    Ok(out)
}

/// Writes atoms that were read.
fn push_whole_path(
    read: &Result<Row<Text>, ReadError>,
    out: &mut String,
) -> Result<(), AllocError> {
    match read {
        Ok(names) => push_names(names.as_slice(), out),
        Err(error) => push_read_error(error, out),
    }
}

/// The atoms that a text is.
pub fn whole_path_of(alloc: Global, text: &str) -> Result<String, AllocError> {
    let found = lexemes_of(alloc, text)?;
    let mut out = String::new(alloc);
    push_whole_path(&whole_path(alloc, found.as_slice()), &mut out)?;
    Ok(out)
}

/// Writes the digits at the start, what number they are, and whether they are all.
fn push_number(found: Option<(&Text, &[Lexeme])>, out: &mut String) -> Result<(), AllocError> {
    match found {
        None => out.push_str("none"),
        Some((digits, rest)) => {
            let value = held_number(digits);
            let digits = digits.as_str();
            let end = if ended(rest).is_ok() { "all" } else { "more" };
            write!(out, "{digits} is {value}, {end}")
        }
    }
}

/// The number at the start of a text.
pub fn number_of(alloc: Global, text: &str) -> Result<String, AllocError> {
    let found = lexemes_of(alloc, text)?;
    let mut out = String::new(alloc);
    push_number(number_at(found.as_slice()), &mut out)?;
    Ok(out)
}
