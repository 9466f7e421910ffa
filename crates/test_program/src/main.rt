//! Tests of grammars that are loaded and of whole runs: each call is made with memory enough, and its answer compared.
//! The cases are the file `stdin`, in the form that `test_support` reads.
#![tactic(auto)]

mod commands;
mod loads;
mod names;
mod runs;

use commands::commands_of;
use loads::loaded;
use runs::{
    exit_of, exit_without_arguments, run_failing_files, run_failing_sink, run_texts, run_words,
};
use std::alloc::{AllocError, Global};
use std::io;
use std::process::ExitCode;
use test_support::{Case, Room, try_cases};

/// The last two lines of an answer: the last that was written, and the status.
fn ending(alloc: Global, answer: &str) -> Result<String, AllocError> {
    let mut before = String::new(alloc);
    let mut last = String::new(alloc);
    for line in answer.split('\n') {
        if !line.is_empty() {
            before = std::mem::replace(&mut last, String::from_str(alloc, line)?);
        }
    }
    let before = before.as_str();
    let last = last.as_str();
    format!(in alloc; "{before}\n{last}\n")
}

/// The end of what commands over a grammar answer.
fn end_of_run(alloc: Global, grammar: &str, commands: &str) -> Result<String, AllocError> {
    let answer = run_texts(alloc, grammar, commands)?;
    ending(alloc, answer.as_str())
}

/// The program over memory.
struct Program;

impl Room for Program {
    fn answer(&self, alloc: Global, case: &Case) -> Result<String, AllocError> {
        let first = case.text(0);
        let second = case.text(1);
        let third = case.text(2);
        match case.call.as_str() {
            "load" => loaded(alloc, first),
            "read" => commands_of(alloc, first, second),
            "run" => run_texts(alloc, first, second),
            "end of run" => end_of_run(alloc, first, second),
            "grammar" => run_texts(alloc, first, ""),
            "commands" => run_texts(alloc, "a sub [].", first),
            "words" => run_words(alloc, first, second, third),
            "exit" => exit_of(alloc, first, second, third),
            "no arguments" => exit_without_arguments(alloc, first),
            "files fail" => run_failing_files(alloc, first, second, third),
            "sink fails" => run_failing_sink(alloc, first, second, third),
            _ => String::from_str(alloc, "no such call\n"),
        }
    }
}

fn main(rt: HostRuntime) -> io::Result<ExitCode> {
    try_cases(&rt, &Program)
}
