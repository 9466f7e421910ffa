//! Tests of relations, signatures, closures, subsumption, searches and of what is written of them: each call is made
//! with memory enough, and its answer compared. The cases are the file `stdin`, in the form that `test_support` reads.
#![tactic(auto)]

mod asking;
mod closing;
mod closures;
mod copies;
mod facts;
mod graphs;
mod meanings;
mod morphisms;
mod printing;
mod refusals;
mod relations;
mod searches;
mod signatures;
mod writing;

use ale_signature::{SigDecl, Signature};
use asking::{Question, asked, budget_of};
use closures::{closure, closure_size};
use copies::{copied_row, copied_text};
use morphisms::{seen, sent};
use printing::{name_of, printed};
use relations::{added_pairs, common_of, counts_of, pairs_of};
use signatures::{declared, outline_of, signature_of};
use std::alloc::{AllocError, Global};
use std::io;
use std::process::ExitCode;
use test_support::{Case, Room, try_cases};

/// What a call of this name answers over a signature.
fn answered(alloc: Global, sig: &Signature, case: &Case) -> Result<String, AllocError> {
    let first = case.text(1);
    let second = case.text(2);
    match case.call.as_str() {
        "closure" => closure(alloc, sig, first),
        "nodes" => closure_size(alloc, sig, first),
        "visible" => seen(alloc, sig, first, second),
        "subsumes" => sent(alloc, sig, first, second),
        "meaning" => asked(alloc, sig, first, Question::Meaning),
        "search" => asked(alloc, sig, first, Question::Search(budget_of(second))),
        "part" => asked(alloc, sig, first, Question::Part(budget_of(second))),
        "structure" => printed(alloc, sig, first, second, case.text(3)),
        _ => String::from_str(alloc, "no such call\n"),
    }
}

/// What the call of a case answers over the signature of declarations.
fn answered_with(alloc: Global, decls: &[SigDecl], case: &Case) -> Result<String, AllocError> {
    match &Signature::build(alloc, decls) {
        Ok(sig) => answered(alloc, sig, case),
        Err(_) => String::from_str(alloc, "no signature\n"),
    }
}

/// What the call of a case answers over the signature of the declarations that it is given first.
fn answered_over(alloc: Global, case: &Case) -> Result<String, AllocError> {
    let decls = declared(alloc, case.text(0))?;
    answered_with(alloc, decls.as_slice(), case)
}

/// The logic.
struct Logic;

impl Room for Logic {
    fn answer(&self, alloc: Global, case: &Case) -> Result<String, AllocError> {
        let first = case.text(0);
        match case.call.as_str() {
            "copied text" => copied_text(alloc, first),
            "copied row" => copied_row(alloc, first),
            "pairs" => pairs_of(alloc, first),
            "counts" => counts_of(alloc, first),
            "common" => common_of(alloc, first),
            "added" => added_pairs(alloc),
            "outline" => outline_of(alloc, first),
            "signature" => signature_of(alloc, first),
            "name" => name_of(alloc, first),
            _ => answered_over(alloc, case),
        }
    }
}

fn main(rt: HostRuntime) -> io::Result<ExitCode> {
    try_cases(&rt, &Logic)
}
