//! The reading of commands from tokens.
ghost use Rattle.std.specs.Prelude.{◌≡◌, ◌≢◌, ◌↔◌, Ok, Err, Result, List, MatchResult};
ghost use Rattle.std.specs.List.{All};
ghost use Rattle.ale_token.specs.Places.{Stands};
ghost use Rattle.ale_term.specs.Lexemes.{lexemes};
ghost use Rattle.ale_term.specs.declared.lexeme.Lexeme.{Lexeme};
ghost use Rattle.ale_form.specs.declared.error.FormError.{FormError};
ghost use Rattle.ale_form.specs.declared.error.FormError.TheVariants.{NoMemory};
ghost use Rattle.ale_form.specs.Results.{Gives, Answers};
ghost use Rattle.ale_command.specs.Commands.{CommandData, IsCommand, command_data};
ghost use Rattle.ale_command.specs.Reading.{command_of};

use crate::command::command;
use crate::command_term::CommandTerm;
use ale_form::{FormError, check, formed};
use ale_term::{Lexeme, lexemes};
use ale_token::Token;
use std::alloc::Global;

/// The command that the tokens of a text are, without its end: `mgsat D`, `query G`, `lex w`, `rec [w,..]`, `gen D` or
/// `code p/n`. The tokens are ones that `ale_token::tokens` gives for the text.
///
/// # Errors
///
/// `TooDeep` exactly where they nest deeper than 200; else `OutOfProfile(word)` exactly where a word is left out, with the
/// first; else `NotADeclaration` exactly where no form of a command fits; and `NoMemory` where memory runs out.
pub fn read_command(alloc: Global, text: &str, tokens: &[Token]) -> Result<CommandTerm, FormError>
    requires { All (Stands text.now) tokens.now }
    ensures exact { Gives command_data result (command_of (lexemes text.now tokens.now)) }
    ensures found { let ls = lexemes text.now tokens.now in
        MatchResult result (λ c. Answers IsCommand ls (Ok (command_data c))) (λ e. e ≢ NoMemory → Answers IsCommand ls (Err e)) }
    ensures only { (answer : Result CommandData FormError) → Answers IsCommand (lexemes text.now tokens.now) answer → Gives command_data result answer }
{
    read_tokens(alloc, text, tokens)
}

/// Lexemes are answered in one way: as one command, or with one refusal.
pub fn one_command()
    ensures answered { (ls : List Lexeme) (r : Result CommandData FormError) → Answers IsCommand ls r ↔ command_of ls ≡ r }
{}

fn read_tokens(alloc: Global, text: &str, tokens: &[Token]) -> Result<CommandTerm, FormError>
    requires { All (Stands text.now) tokens.now }
    ensures { Gives command_data result (command_of (lexemes text.now tokens.now)) }
{
    let found = lexemes(alloc, text, tokens)?;
    read_lexemes(alloc, found.as_slice())
}

// The command that the lexemes are, unless something stands against it.
fn read_lexemes(alloc: Global, lexemes: &[Lexeme]) -> Result<CommandTerm, FormError>
    ensures { Gives command_data result (command_of lexemes.now) }
{
    check(alloc, lexemes)?;
    formed(command(alloc, lexemes))
}
