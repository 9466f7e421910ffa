//! The report on a grammar and its commands.
ghost use Rattle.std.specs.Prelude.{◌≡◌, ◌≢◌, ◌++◌, ℕ, List, Ok, Err, IfOk, OnOk, map, string_bytes};
ghost use Rattle.ale_hierarchy.specs.Order.{hierarchy};
ghost use Rattle.ale_load.specs.declared.grammar_error.GrammarError.TheVariants as grammar;
ghost use Rattle.ale_load.specs.declared.command_error.CommandError.TheVariants as command;
ghost use Rattle.ale_load.specs.Grammars.{FitsLoaded, load_of};
ghost use Rattle.ale_load.specs.Commands.{AllFit, commands_of};
ghost use Rattle.ale_load.specs.Views.{loaded_data, query_data};
ghost use Rattle.ale_load.specs.Results.{LoadGives, CommandsGive};
ghost use Rattle.ale_top.specs.Lines.{grammar_line, command_line};
ghost use Rattle.ale_top.specs.Output.{outcome, after_grammar, after_commands, commands_text, all_finished};
ghost use Rattle.ale_top.specs.Reports.{report_of, IsInput, AreCounted, AreCountedFor, AreCountedIn};
ghost use Rattle.ale_top.specs.Runs.{IsReported};

use crate::lines::{push_all_passed, push_command_line, push_grammar_line};
use crate::report::Report;
use crate::status::Status;
use ale_load::{CommandError, GrammarError, Loaded, Query, load, read_commands};
use ale_report::push_command;
use ale_signature::Signature;
use std::alloc::{AllocError, Global};

/// What was read of a file.
#[derive(Drop)]
pub enum Input {
    /// All its bytes.
    Whole(Vec<u8>),
    /// It has more bytes than a file may have.
    TooLong,
}

// The report on a grammar that is refused; where memory ran out there is none.
fn grammar_refused(alloc: Global, error: &GrammarError) -> Result<Report, AllocError>
    ensures some { OnOk result (error.now ≢ grammar.NoMemory) }
    ensures report { IfOk result (λ r. report_of r ≡ (Status.Grammar, grammar_line error.now)) }
    ensures status { IfOk result (λ r. r.status ≡ Status.Grammar) }
{
    if let GrammarError::NoMemory = error {
        return Err(AllocError);
    }
    let mut text = String::new(alloc);
    push_grammar_line(alloc, &mut text, error)?;
    Ok(Report {
        status: Status::Grammar,
        text,
    })
}

// The report on commands that are refused.
fn commands_refused(alloc: Global, error: &CommandError) -> Result<Report, AllocError>
    ensures report { IfOk result (λ r. report_of r ≡ (Status.Commands, command_line error.now)) }
    ensures status { IfOk result (λ r. r.status ≡ Status.Commands) }
{
    let mut text = String::new(alloc);
    push_command_line(alloc, &mut text, error)?;
    Ok(Report {
        status: Status::Commands,
        text,
    })
}

// Writes the part of each command; tells whether every search ended within the budget.
fn push_commands(
    alloc: Global,
    out: &mut String,
    sig: &Signature,
    queries: &[Query],
    budget: u64,
) -> Result<bool, AllocError>
    requires { AllFit (hierarchy sig.now) (map query_data queries.now) }
    ensures text { OnOk result (string_bytes out.new ≡ string_bytes out.old ++ commands_text sig.now budget 1 (map query_data queries.now)) }
    ensures finished { IfOk result (λ b. b ≡ all_finished sig.now budget (map query_data queries.now)) }
    ensures counted { OnOk result (AreCounted sig.now budget (map query_data queries.now)) }
{
    let mut finished = true;
    for (index, query) in queries.iter().enumerate() {
        let slots = query.names.as_slice().len();
        let ended = push_command(alloc, out, sig, index + 1, &query.desc, slots, budget)?;
        finished = finished && ended;
    }
    Ok(finished)
}

// The report on accepted commands.
fn answered(
    alloc: Global,
    loaded: &Loaded,
    queries: &[Query],
    budget: u64,
) -> Result<Report, AllocError>
    requires { AllFit (hierarchy loaded.now.signature) (map query_data queries.now) }
    ensures report { IfOk result (λ r. report_of r ≡ after_commands (loaded_data loaded.now) budget (Ok (map query_data queries.now))) }
    ensures kind { IfOk result (λ r. IsReported r.status) }
    ensures counted { OnOk result (AreCounted loaded.now.signature budget (map query_data queries.now)) }
{
    let mut text = String::new(alloc);
    text.push_str("ale: inside the fragment\n")?;
    push_all_passed(alloc, &mut text, loaded.passed.as_slice())?;
    let finished = push_commands(alloc, &mut text, &loaded.signature, queries, budget)?;
    let status = if finished {
        Status::Done
    } else {
        Status::Unfinished
    };
    Ok(Report { status, text })
}

// The grammar of what was read.
fn load_input(alloc: Global, grammar: &Input) -> Result<Loaded, GrammarError>
    ensures exact { (g : List ℕ) → IsInput grammar.now g → LoadGives loaded_data result (load_of g) }
    ensures fits { IfOk result (λ l. FitsLoaded (loaded_data l)) }
{
    match grammar {
        Input::Whole(bytes) => load(alloc, bytes.as_slice()),
        Input::TooLong => Err(GrammarError::TooLong),
    }
}

// The commands of what was read.
fn read_input(alloc: Global, commands: &Input, loaded: &Loaded) -> Result<Vec<Query>, CommandError>
    requires { FitsLoaded (loaded_data loaded.now) }
    ensures exact { (c : List ℕ) → IsInput commands.now c → CommandsGive (λ v. map query_data v.items) result (commands_of (loaded_data loaded.now) c) }
    ensures fit { IfOk result (λ v. AllFit (hierarchy loaded.now.signature) (map query_data v.items)) }
{
    match commands {
        Input::Whole(bytes) => read_commands(alloc, bytes.as_slice(), loaded),
        Input::TooLong => Err(CommandError::TooLong),
    }
}

// The report on commands for an accepted grammar.
fn report_commands(
    alloc: Global,
    loaded: &Loaded,
    commands: &Input,
    budget: u64,
) -> Result<Report, AllocError>
    requires { FitsLoaded (loaded_data loaded.now) }
    ensures report { (c : List ℕ) → IsInput commands.now c
        → IfOk result (λ r. report_of r ≡ after_commands (loaded_data loaded.now) budget (commands_of (loaded_data loaded.now) c)) }
    ensures kind { IfOk result (λ r. IsReported r.status) }
    ensures counted { (c : List ℕ) → IsInput commands.now c → OnOk result (AreCountedFor (loaded_data loaded.now) c budget) }
{
    match read_input(alloc, commands, loaded) {
        Ok(queries) => answered(alloc, loaded, queries.as_slice(), budget),
        Err(CommandError::NoMemory) => Err(AllocError),
        Err(error) => commands_refused(alloc, &error),
    }
}

/// The report on a grammar file and a command file.
pub fn report_on(
    alloc: Global,
    grammar: &Input,
    commands: &Input,
    budget: u64,
) -> Result<Report, AllocError>
    ensures report { (g c : List ℕ) → IsInput grammar.now g → IsInput commands.now c → IfOk result (λ r. report_of r ≡ outcome g c budget) }
    ensures kind { IfOk result (λ r. IsReported r.status) }
    ensures counted { (g c : List ℕ) → IsInput grammar.now g → IsInput commands.now c → OnOk result (AreCountedIn g c budget) }
{
    match load_input(alloc, grammar) {
        Ok(loaded) => report_commands(alloc, &loaded, commands, budget),
        Err(error) => grammar_refused(alloc, &error),
    }
}
