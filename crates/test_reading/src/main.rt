//! Tests of the readers, from tokens to declarations and commands: each call is made with memory enough, and its answer
//! compared. The cases are the file `stdin`, in the form that `test_support` reads.
#![tactic(auto)]

mod commands;
mod declarations;
mod forms;
mod show_terms;
mod terms;
mod tokens;

use commands::commanded;
use declarations::declared;
use forms::{checked, number_of, whole_description_of, whole_goal_of, whole_path_of};
use std::alloc::{AllocError, Global};
use std::io;
use std::process::ExitCode;
use terms::{
    atoms_of, call_of, description_of, element_of, goal_element_of, goal_of, joined_numbers,
    lexemes_shown,
};
use test_support::{Case, Room, try_cases};
use tokens::{counts_of, cuts_of, first_name, tokens_of};

/// What a call of this name answers for the text.
fn answered(alloc: Global, call: &str, text: &str) -> Result<String, AllocError> {
    match call {
        "tokens" => tokens_of(alloc, text),
        "counts" => counts_of(alloc, text),
        "cuts" => cuts_of(alloc, text),
        "name" => first_name(alloc, text),
        "lexemes" => lexemes_shown(alloc, text),
        "description" => description_of(alloc, text),
        "element" => element_of(alloc, text),
        "call" => call_of(alloc, text),
        "goal" => goal_of(alloc, text),
        "goal element" => goal_element_of(alloc, text),
        "atoms" => atoms_of(alloc, text),
        "joined" => joined_numbers(alloc),
        "check" => checked(alloc, text),
        "whole description" => whole_description_of(alloc, text),
        "whole goal" => whole_goal_of(alloc, text),
        "whole path" => whole_path_of(alloc, text),
        "number" => number_of(alloc, text),
        "declaration" => declared(alloc, text),
        "command" => commanded(alloc, text),
        _ => String::from_str(alloc, "no such call"),
    }
}

/// An answer as a line, without the space before it.
fn line_of(alloc: Global, answer: &str) -> Result<String, AllocError> {
    let mut line = String::from_str(alloc, answer.strip_prefix(' ').unwrap_or(answer))?;
    line.push('\n')?;
    Ok(line)
}

/// The readers.
struct Reading;

impl Room for Reading {
    fn answer(&self, alloc: Global, case: &Case) -> Result<String, AllocError> {
        let found = answered(alloc, case.call.as_str(), case.text(0))?;
        line_of(alloc, found.as_str())
    }
}

fn main(rt: HostRuntime) -> io::Result<ExitCode> {
    try_cases(&rt, &Reading)
}
