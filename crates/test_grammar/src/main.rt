//! Tests of the program that declarations of all forms make, and of each fault of names: each call is made with memory enough, and
//! its answer compared. The cases are the file `stdin`, in the form that `test_support` reads.
#![tactic(auto)]

mod goals;
mod parts;
mod programs;
mod reading;
mod resolving;
mod signatures;

use resolving::{Question, answer_to};
use std::alloc::{AllocError, Global};
use std::io;
use std::process::ExitCode;
use test_support::{Case, Room, try_cases};

/// Grammars of all forms.
struct Grammars;

impl Room for Grammars {
    fn answer(&self, alloc: Global, case: &Case) -> Result<String, AllocError> {
        let text = case.text(0);
        match case.call.as_str() {
            "program" => answer_to(alloc, Question::Program, text),
            "names" => answer_to(alloc, Question::Names, text),
            _ => String::from_str(alloc, "no such call\n"),
        }
    }
}

fn main(rt: HostRuntime) -> io::Result<ExitCode> {
    try_cases(&rt, &Grammars)
}
