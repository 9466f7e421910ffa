//! The forms of commands.
ghost use Rattle.std.specs.Prelude.{◌≡◌, length, nat_lt};
ghost use Rattle.ale_term.specs.Results.{Gives};
ghost use Rattle.ale_command.specs.Commands.{command_data};
ghost use Rattle.ale_command.specs.Reading.{most_digits, satisfiers_of, proofs_of, entries_of, parses_of, sentences_of, arity_of, instructions_of, command_at};

use crate::command_term::CommandTerm;
use ale_form::{ended, held_number, number_at, whole_description, whole_goal, whole_path};
use ale_term::{Lexeme, ReadError, Symbol, atom_at, past, past_word};
use ale_text::Text;
use std::alloc::Global;

fn satisfiers(alloc: Global, lexemes: &[Lexeme]) -> Result<CommandTerm, ReadError>
    ensures { Gives command_data result (satisfiers_of lexemes.now) }
{
    Ok(CommandTerm::Mgsat(whole_description(alloc, lexemes)?))
}

fn proofs(alloc: Global, lexemes: &[Lexeme]) -> Result<CommandTerm, ReadError>
    ensures { Gives command_data result (proofs_of lexemes.now) }
{
    Ok(CommandTerm::Query(whole_goal(alloc, lexemes)?))
}

fn entries(alloc: Global, lexemes: &[Lexeme]) -> Result<CommandTerm, ReadError>
    ensures { Gives command_data result (entries_of lexemes.now) }
{
    let (word, rest) = atom_at(lexemes).ok_or(ReadError::NotTheForm)?;
    ended(rest)?;
    Ok(CommandTerm::Lex(word.copy(alloc)?))
}

fn parses(alloc: Global, lexemes: &[Lexeme]) -> Result<CommandTerm, ReadError>
    ensures { Gives command_data result (parses_of lexemes.now) }
{
    Ok(CommandTerm::Rec(whole_path(alloc, lexemes)?))
}

fn sentences(alloc: Global, lexemes: &[Lexeme]) -> Result<CommandTerm, ReadError>
    ensures { Gives command_data result (sentences_of lexemes.now) }
{
    Ok(CommandTerm::Gen(whole_description(alloc, lexemes)?))
}

// The most digits that the number of arguments may have.
fn most_digits() -> usize
    ensures { result ≡ most_digits }
{
    9
}

// How many characters the text has, or one more than the limit where they are more.
fn has_more(text: &Text, limit: usize) -> bool
    ensures { result ≡ nat_lt limit (length text.now) }
{
    text.as_str().chars().count() > limit
}

// The number that the lexemes are, of no more digits than it may have.
fn arity(lexemes: &[Lexeme]) -> Result<u32, ReadError>
    ensures { Gives (λ n. n) result (arity_of lexemes.now) }
{
    let (digits, rest) = number_at(lexemes).ok_or(ReadError::NotTheForm)?;
    ended(rest)?;
    if has_more(digits, most_digits()) {
        return Err(ReadError::NotTheForm);
    }
    Ok(held_number(digits))
}

fn instructions(alloc: Global, lexemes: &[Lexeme]) -> Result<CommandTerm, ReadError>
    ensures { Gives command_data result (instructions_of lexemes.now) }
{
    let (name, rest) = atom_at(lexemes).ok_or(ReadError::NotTheForm)?;
    let behind = past(rest, Symbol::Slash).ok_or(ReadError::NotTheForm)?;
    let arguments = arity(behind)?;
    Ok(CommandTerm::Code(name.copy(alloc)?, arguments))
}

// The command that the lexemes are. The calls nest as deep as the lexemes do.
#[tactic(auto, using(crate::proofs::Words::word_rules))]
pub(crate) fn command(alloc: Global, lexemes: &[Lexeme]) -> Result<CommandTerm, ReadError>
    ensures { Gives command_data result (command_at lexemes.now) }
{
    if let Some(behind) = past_word(lexemes, "mgsat") {
        return satisfiers(alloc, behind);
    }
    if let Some(behind) = past_word(lexemes, "query") {
        return proofs(alloc, behind);
    }
    if let Some(behind) = past_word(lexemes, "lex") {
        return entries(alloc, behind);
    }
    if let Some(behind) = past_word(lexemes, "rec") {
        return parses(alloc, behind);
    }
    if let Some(behind) = past_word(lexemes, "gen") {
        return sentences(alloc, behind);
    }
    let behind = past_word(lexemes, "code").ok_or(ReadError::NotTheForm)?;
    instructions(alloc, behind)
}
