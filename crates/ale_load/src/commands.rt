//! Commands that are read and whose names are looked up.
ghost use Rattle.std.specs.Prelude.{◌≡◌, ◌≢◌, ℕ, Result, Ok, Err, IfOk, MatchResult, List, map, option_map};
ghost use Rattle.std.specs.List.{All};
ghost use Rattle.ale_token.specs.Places.{Stands};
ghost use Rattle.ale_token.specs.Declarations.{IsDeclaration};
ghost use Rattle.ale_form.specs.Results.{Gives};
ghost use Rattle.ale_term.specs.Terms.{term_data};
ghost use Rattle.ale_hierarchy.specs.Order.{hierarchy};
ghost use Rattle.ale_stage.specs.Stages.{command_is_built};
ghost use Rattle.ale_command.specs.Commands.{command_data};
ghost use Rattle.ale_load.specs.declared.command_error.CommandError.{CommandError};
ghost use Rattle.ale_load.specs.declared.command_error.CommandError.TheVariants.{NoMemory};
ghost use Rattle.ale_load.specs.Reading.{each_read, first_without};
ghost use Rattle.ale_load.specs.Grammars.{FitsLoaded};
ghost use Rattle.ale_load.specs.Commands.{QueryData, AllFit, AreCommands, asked, queries_after, command_fault, token_fault, form_fault, command_in, formed, after_names, commands_of};
ghost use Rattle.ale_load.specs.Laws.{CommandsLaw, FitLaw};
ghost use Rattle.ale_load.specs.Results.{CommandsGive};
ghost use Rattle.ale_load.specs.Views.{parts_in, part_in, loaded_data, query_data};

use crate::command_error::CommandError;
use crate::file::{Parts, cut};
use crate::file_error::FileError;
use crate::grammar::Loaded;
use crate::query::{Asked, Query, query_after};
use ale_command::{CommandTerm, one_command, read_command};
use ale_describe::{describe_law, limits_law, plain_law};
use ale_form::FormError;
use ale_stage::command_is_built;
use ale_term::Term;
use ale_token::TokenError;
use ale_vocabulary::first_law;
use std::alloc::Global;

// Why commands whose tokens are not cut are refused.
fn token_fault(error: TokenError) -> CommandError
    ensures { result ≡ token_fault error }
{
    match error {
        TokenError::BadToken(place) => CommandError::BadToken(place),
        TokenError::NoEnd(place) => CommandError::NoEnd(place),
        TokenError::NoMemory => CommandError::NoMemory,
    }
}

// Why commands whose file is not cut are refused.
fn command_fault(error: FileError) -> CommandError
    ensures { result ≡ command_fault error }
{
    match error {
        FileError::TooLong => CommandError::TooLong,
        FileError::NotText(place) => CommandError::NotText(place),
        FileError::Unread(error) => token_fault(error),
        FileError::NoMemory => CommandError::NoMemory,
    }
}

// Why commands are refused whose part with this number is none.
fn form_fault(number: usize, error: FormError) -> CommandError
    ensures { result ≡ form_fault number error }
{
    match error {
        FormError::NoMemory => CommandError::NoMemory,
        _ => CommandError::BadCommand(number),
    }
}

// The command of this range of tokens.
fn command(alloc: Global, parts: &Parts, range: (usize, usize)) -> Result<CommandTerm, FormError>
    requires stand { All (Stands parts.now.text.now) parts.now.tokens.items }
    requires range { IsDeclaration parts.now.tokens.items range }
    ensures { Gives command_data result (command_in (part_in parts.now range)) }
{
    read_command(
        alloc,
        parts.text,
        &parts.tokens.as_slice()[range.0..range.1],
    )
}

// The commands of all parts.
fn commands(alloc: Global, parts: &Parts) -> Result<Vec<CommandTerm>, CommandError>
    requires stand { All (Stands parts.now.text.now) parts.now.tokens.items }
    requires each { All {X = ℕ × ℕ} (IsDeclaration parts.now.tokens.items) parts.now.ranges.items }
    ensures { CommandsGive (λ v. map command_data v.items) result (formed (each_read command_in 1 (parts_in parts.now))) }
{
    let ranges = parts.ranges.as_slice();
    let mut read = Vec::new(alloc);
    for range in ranges {
        match command(alloc, parts, *range) {
            Ok(command) => read.push(command)?,
            Err(error) => return Err(form_fault(read.len() + 1, error)),
        }
    }
    Ok(read)
}

// The number of the first command that is not built.
fn first_unbuilt(commands: &[CommandTerm]) -> Option<usize>
    ensures { result ≡ first_without command_is_built 1 (map command_data commands.now) }
{
    for (index, command) in commands.iter().enumerate() {
        if !command_is_built(command) {
            return Some(index + 1);
        }
    }
    None
}

// The description that a command asks for.
fn asked(command: &CommandTerm) -> Option<&Term>
    ensures { option_map (λ t. term_data t.now) result ≡ asked (command_data command.now) }
{
    match command {
        CommandTerm::Mgsat(term) => Some(term),
        _ => None,
    }
}

// What the commands ask for.
fn queries(
    alloc: Global,
    loaded: &Loaded,
    commands: &[CommandTerm],
) -> Result<Vec<Query>, CommandError>
    ensures { CommandsGive (λ v. map query_data v.items) result (after_names (queries_after (loaded_data loaded.now) 1 0 (map command_data commands.now))) }
{
    let mut found = Vec::new(alloc);
    let mut so_far = 0;
    for (index, command) in commands.iter().enumerate() {
        if let Some(term) = asked(command) {
            match query_after(alloc, loaded, so_far, term)? {
                Asked::Query(query, parts) => {
                    found.push(query)?;
                    so_far = parts;
                }
                Asked::Refused(error) => return Err(CommandError::Name(index + 1, error)),
            }
        }
    }
    Ok(found)
}

// The queries of the file with these bytes.
fn read_in(alloc: Global, bytes: &[u8], loaded: &Loaded) -> Result<Vec<Query>, CommandError>
    ensures { CommandsGive (λ v. map query_data v.items) result (commands_of (loaded_data loaded.now) bytes.now) }
{
    let parts = match cut(alloc, bytes) {
        Ok(parts) => parts,
        Err(error) => return Err(command_fault(error)),
    };
    let commands = commands(alloc, &parts)?;
    match first_unbuilt(commands.as_slice()) {
        Some(number) => Err(CommandError::NotBuilt(number)),
        None => queries(alloc, loaded, commands.as_slice()),
    }
}

/// What the commands with these bytes ask for, by a grammar that was loaded.
///
/// # Errors
///
/// The first of these: `TooLong` for more than 4,194,304 bytes; `NotText(p)` where the bytes before `p` are the longest
/// prefix that is UTF-8; `BadToken(p)` where no token begins at `p`; `NoEnd(p)` where tokens that begin at `p` have no end;
/// `BadCommand(k)` where command `k` is the first that is none; `NotBuilt(k)` where it is the first of a form that is
/// read and not built yet; `Name(k, e)` where it is the first with a name that is not known, the first of which `e` has; or
/// with `TooBig`, where its description has more than 100,000 parts or is nested more than 4,000 deep when all macros and lists
/// are put in, or all up to it have more than 4,000,000 parts. `NoMemory` comes where memory runs out.
pub fn read_commands(
    alloc: Global,
    bytes: &[u8],
    loaded: &Loaded,
) -> Result<Vec<Query>, CommandError>
    requires { FitsLoaded (loaded_data loaded.now) }
    ensures exact { CommandsGive (λ v. map query_data v.items) result (commands_of (loaded_data loaded.now) bytes.now) }
    ensures found { MatchResult result (λ v. AreCommands (loaded_data loaded.now) bytes.now (Ok (map query_data v.items)))
        (λ e. e ≢ NoMemory → AreCommands (loaded_data loaded.now) bytes.now (Err e)) }
    ensures only { (answer : Result (List QueryData) CommandError) → AreCommands (loaded_data loaded.now) bytes.now answer
        → CommandsGive (λ v. map query_data v.items) result answer }
    ensures fit { IfOk result (λ v. AllFit (hierarchy loaded.now.signature) (map query_data v.items)) }
{
    commands_law();
    read_in(alloc, bytes, loaded)
}

/// The bytes of commands are read as one thing or refused for one cause, which the function that `read_commands` carries
/// out gives; and what is read speaks of types, features and variables that are there, and has no inequation.
pub fn commands_law()
    ensures reads { CommandsLaw }
    ensures fit { FitLaw }
{
    one_command();
    first_law();
    limits_law();
    describe_law();
    plain_law();
}
